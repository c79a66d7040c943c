//! Atoms that settle a formula where they are certainly false, and the rows of known tables that lead to those of its
//! instances which that leaves.
#![tactic(auto)]

mod guarded;
mod guards;
mod rows;

pub use guarded::ranges_for;
pub use guards::{Guard, guard_in};
pub use rows::rows_left;
