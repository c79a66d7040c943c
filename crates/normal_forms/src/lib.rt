//! Negation normal forms of formulas.
#![tactic(auto)]

mod laws;
mod negations;

pub use laws::{normal_form_is_normal, normal_form_is_true};
pub use negations::nnf;
