//! A partial structure from what the entries of a structure say.
#![tactic(auto)]

mod closing;
mod elements;
mod facts;
mod filling;
mod rows;
mod together;

pub use filling::fill;
