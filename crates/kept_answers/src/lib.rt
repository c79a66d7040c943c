//! The last answer to each kind of query, kept so that a repeated query gets it at once.
#![tactic(auto)]

mod answers;
mod elements;
pub mod laws;
mod literals;
mod queries;

pub use answers::{Answered, KeptAnswers};
pub use literals::are_same_literals;
