//! The rule by which a search chooses what it decides next.
#![tactic(auto)]

mod rules;

pub use rules::{Choose, FirstGreatest, first_greatest};
