//! What a person is told of how a run ended, beside what it printed.
#![tactic(auto)]

mod files;
mod logs;
mod notes;
mod words;

pub use logs::Lost;
pub use notes::note_on;
