//! Rules of definitions with numbers for words.
#![tactic(auto)]

mod bodies;
mod definitions;
mod heads;
mod simple;

pub use definitions::definition;
