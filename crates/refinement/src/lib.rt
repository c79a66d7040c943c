//! What a theory alone fixes: the narrowed structure, by passes over the theory and by following what becomes known.
#![tactic(auto)]

mod facts;
mod following;
mod notes;
mod occurrences;
mod passes;
mod starts;
mod walk;

pub use passes::refine;
