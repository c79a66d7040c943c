//! Types of variables.
#![tactic(auto)]

mod copies;
mod definitions;
mod files;
mod laws;
mod remaining;
mod rules;
mod trees;
mod typed;

pub use files::derive;
pub use laws::{types_are_in_order, worked_examples};
pub use typed::{Named, Places, TypedKb};
