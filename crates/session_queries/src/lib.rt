//! The queries of a session: its task, what asks it, and the reply that answers.
#![tactic(auto)]

mod commands;
mod queries;
mod tasks;

pub use commands::{is_query, is_undecided, needs_model};
pub use queries::{explain, minimize, model, models, propagate, why};
pub use tasks::{open_anew, opened};
