//! The texts of literals and of the tables of structures.
#![tactic(auto)]

mod literals;
pub mod pieces;
mod tables;

pub use literals::{print_literal, push_literal};
pub use tables::{print_symbols, push_symbols};
