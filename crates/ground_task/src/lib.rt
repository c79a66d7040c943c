//! Models of a knowledge base under choices, over any solver of its ground problem.
#![tactic(auto)]

pub mod answers;
mod choices;
mod kept;
mod task;

pub use task::Task;
