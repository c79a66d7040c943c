//! The literals that a knowledge base and choices force, over any solver of its ground problem.
#![tactic(auto)]

mod forcing;
mod picking;
mod searching;
mod unknown;

pub use forcing::forced;
pub use unknown::Unknown;
