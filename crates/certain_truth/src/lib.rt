//! What is certain of a formula, and the value of a term as far as it is known, where only some atoms are known:
//! Kleene's strong three-valued logic. The calls take no memory.
#![tactic(auto)]

mod certainty;
mod connectives;
pub mod laws;
mod sides;
mod totals;

pub use certainty::{certain_formula, kleene, known_term};
