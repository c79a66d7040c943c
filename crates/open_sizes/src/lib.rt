//! How much of a knowledge base is left open by what is known of its atoms.
#![tactic(auto)]

mod atoms;
mod bases;
mod connectives;
pub mod examples;
pub mod laws;
mod occurrences;
mod outermost;
mod setting;
mod weighed;

pub use bases::{open_in_asked, open_in_definition, open_in_sentence, open_weight};
