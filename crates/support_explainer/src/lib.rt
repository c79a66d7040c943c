//! Why no valuation is left, or why a literal is true in all that are left.
#![tactic(auto)]

mod deletion;
mod explaining;
mod lists;
pub mod reason;

pub use explaining::{conflict, support};
