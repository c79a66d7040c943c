//! Literals, clauses and truth values of propositional problems, with what it means
//! that a clause follows from others by unit propagation, and that a clause is fresh.
#![tactic(auto)]

mod clause_lists;
mod clauses;
mod laws;
mod literals;
mod packed;
mod valuations;

pub use clause_lists::ClauseList;
pub use clauses::Clause;
pub use laws::{
    fresh_against_fewer, freshness_is_closure, quiet_leaves_fresh, refutation_is_sound,
};
pub use literals::{Lit, Var};
pub use packed::PackedLit;
pub use std::alloc::AllocError as Memory;
pub use valuations::{Assignment, Values, satisfies};
