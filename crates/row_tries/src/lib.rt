//! Tries of rows: each row is a symbol and elements, and each has a mark that says what is known of it.
//!
//! A row is found by its elements one after another. Its names are looked up among the words that a trie has numbers
//! for, so nothing is copied to find a row.
#![tactic(auto)]

pub mod lent;
mod near;
mod rows;
mod truths;
mod words;

pub use lent::LentElem;
pub use rows::{Edge, Label, Mark, Rows};
pub use truths::Truth;
pub use words::Words;
