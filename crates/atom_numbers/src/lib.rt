//! The variables of ground atoms, and the structure that the values of variables are.
#![tactic(auto)]

mod found;
mod laws;
mod numbers;
mod places;
mod tables;
mod unknown;

pub use found::FoundStructure;
pub use laws::literals_hold_by_their_variables;
pub use numbers::AtomNumbers;
pub use unknown::open_literals;
