//! What a solver derives while it searches, as entries of a derivation log.
#![tactic(auto)]

mod log;
mod numbers;

pub use log::{LogMark, SearchLog};
