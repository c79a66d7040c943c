//! Atoms that make an instance of a sentence add nothing where they are known to be false, and the rows of known tables
//! that lead to the other instances.
#![tactic(auto)]

mod guarded;
mod guards;
mod rows;

pub use guarded::ranges_for;
pub use guards::{Guard, Part, guard_in};
pub use rows::rows_left;
