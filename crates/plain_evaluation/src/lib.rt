//! The value of a term and the truth of a formula in a structure, which take no memory.
//!
//! Other evaluators share the variables in scope (`environments`) and sums, products and aggregates step by step
//! (`totals`).
#![tactic(auto)]

pub mod environments;
mod evaluation;
pub mod frames;
pub mod totals;

pub use evaluation::truth;
