//! Literals that were found to be forced, each with choices that alone force it, kept for later questions.
#![tactic(auto)]

pub mod laws;
mod lits;
mod supports;

pub use supports::KeptSupports;
