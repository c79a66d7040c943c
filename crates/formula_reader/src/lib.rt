//! Reads whole texts that are one formula or one term, and the formulas and terms inside blocks.
#![tactic(auto)]

pub mod expressions;
mod formulas;
mod kinds;
mod laws;
pub mod nested;
mod terms;
mod whole;

pub use laws::{one_formula, one_formula_reading, one_term, one_term_reading};
pub use whole::{read_formula, read_term};
