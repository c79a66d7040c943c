//! What the sentences, definitions and functions of a theory alone fix, and laws of it.
#![tactic(auto)]

pub mod laws;
