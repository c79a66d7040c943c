//! Partial structures: for each atom over the domains whether it is certainly true, certainly false or
//! unknown, as the three-valued structures of IDP3.
//!
//! An evaluator takes what is known as a `Known` and walks it argument by argument (`lookups`).
#![tactic(auto)]

mod atoms;
mod elements;
mod errors;
mod extension;
mod flags;
mod known;
pub mod laws;
pub mod lookups;
mod ordered;
mod partial;
mod spots;

pub use errors::SetError;
pub use kb_logic::Memory;
pub use known::Known;
pub use partial::{Partial, extends};
pub use row_tries::LentElem;
pub use spots::Place;
pub use truths::Truth;

/// The path by which the crates above name a truth value in their clauses.
pub mod truths {
    pub use row_tries::Truth;
}
