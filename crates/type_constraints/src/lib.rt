//! The types of variables, from what formulas, terms and rules demand of the types of their terms.
#![tactic(auto)]

mod candidates;
mod collect;
mod constraints;
mod infer;
mod report;
mod rules;
mod subtypes;
mod term_kinds;
mod variables;

pub use rules::rule_types;
pub use variables::{block_term_types, sentence_types};
