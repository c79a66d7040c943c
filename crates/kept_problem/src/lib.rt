//! The problem that a solver keeps: others are joined to it, clauses under selectors are added, and selectors
//! become false for good.
#![tactic(auto)]

mod kept;

pub use kept::KeptProblem;
