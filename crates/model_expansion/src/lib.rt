//! Models of a problem under assumptions.
#![tactic(auto)]

mod enumeration;
mod expansion;
pub mod found;

pub use enumeration::several;
pub use expansion::expand;
