//! What makes a knowledge base too large: its declarations with their ground atoms, its sentences, definitions and
//! terms with their weights, and the heaviest of them.
#![tactic(auto)]

mod choice;
mod counting;
mod explaining;
mod lines;
mod numbers;
mod open;
mod parts;
mod reading;

pub use explaining::{Refusal, explained};
