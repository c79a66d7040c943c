//! The engine of a solver of ground problems: it holds the clauses of a problem, searches for valuations
//! under assumptions, and learns clauses from its conflicts.
#![tactic(auto)]

mod bounding;
mod cores;
mod engine;
mod growing;
mod levels;
mod lit_sets;
mod noting;
mod passing;
mod pushing;
mod searching;
mod summing;

pub use cores::chosen;
pub use engine::Engine;
pub use lit_sets::LitSet;
