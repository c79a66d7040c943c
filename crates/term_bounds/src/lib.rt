//! Bounds on the terms of a ground problem: the value of a term, and clauses that a bound implies where it does not
//! hold.
#![tactic(auto)]

mod amounts;
mod breaking;
mod implying;
mod laws;
mod linear;
mod reasons;
mod shares;
mod term_values;
mod trials;

pub use amounts::is_at_most;
pub use breaking::{BrokenBound, broken};
pub use implying::{Implication, implied};
pub use laws::{bounds_by_totals, least_is_least};
pub use term_values::value_of;
pub use trials::is_term_below;
