//! What is asked of a knowledge base under choices beside one model: several models, the least value of a term, why
//! there is no model, and why a literal is true in all, over any solver of its ground problem.
#![tactic(auto)]

mod conflicting;
mod enumerating;
mod found;
mod minimising;
mod supporting;

pub use conflicting::conflict;
pub use enumerating::models;
pub use found::{Least, Models, Reason, StructureList};
pub use minimising::least;
pub use supporting::support;
