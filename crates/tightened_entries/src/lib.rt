//! The entries of a search for a least value, derived under the last of its bounds.
#![tactic(auto)]

mod literals;
mod selectors;
#[cfg(test)]
mod tests;
mod tightening;

pub use tightening::under_last_bound;
