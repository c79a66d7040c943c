//! Laws of tasks: what stays of a task while its solver grows.
#![tactic(auto)]

mod laws;

pub use laws::task_outlasts_additions;
