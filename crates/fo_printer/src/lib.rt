//! Texts in the language of knowledge bases: literals, tables of structures, structure blocks and
//! formulas.
#![tactic(auto)]

mod block;
mod entries;
mod formulas;
mod gathering;
mod rows;

pub use block::print_block;
pub use formulas::print_formula;
pub use literal_printer::{print_literal, print_symbols};
