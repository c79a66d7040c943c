//! A solver that callers keep, and brute force, asked the same questions about the same problem.
#![tactic(auto)]

pub mod additions;
pub mod asking;
pub mod faults;
pub mod holding;
pub mod problems;
pub mod rules;
pub mod sides;
pub mod totals;
pub mod truths;
