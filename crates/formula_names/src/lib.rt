//! Names of formulas and terms as numbers.
#![tactic(auto)]

mod arrows;
mod binders;
mod closing;
pub mod formulas;
mod nodes;
pub mod positions;
pub mod resolver;
pub mod scopes;
pub mod standings;
pub mod tables;
pub mod uses;
pub mod words;
