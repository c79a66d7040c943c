//! Ground problems of knowledge bases: one for each theory over its data, whose valuations are the models of
//! the theory that extend the data.
#![tactic(auto)]

mod errors;
mod problems;

pub use errors::GroundError;
pub use problems::ground;
