//! The clauses of definitions: the bodies of their instances by the variables of the heads, and what each atom takes.
#![tactic(auto)]

mod atoms;
mod bodies;
mod definitions;
mod heads;
mod instances;
mod laws;
mod symbols;

pub use definitions::{push_definition, push_definitions};
pub use laws::{defined_are_ranges, typed_can_be_ground};
