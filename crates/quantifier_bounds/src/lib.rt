//! What the sentences, definitions and functions of a theory alone fix of what is unknown.
#![tactic(auto)]

mod atoms;
mod definitions;
mod derivation;
mod fault;
mod functions;
mod heads;
mod instances;
pub mod laws;
mod leaves;
mod left;
mod order;
mod places;
mod walk;

pub use definitions::definitions_must;
pub use derivation::front;
pub use fault::BoundFault;
pub use functions::functions_must;
pub use instances::open_instances;
pub use order::nth;
pub use walk::{Setting, either, must};
