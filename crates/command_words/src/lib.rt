//! The command line of the program, as a command of `clap`.
#![tactic(auto)]

mod command;
mod complaints;
mod line;

pub use complaints::{Complaint, complaint_on};
pub use line::{FileWords, Line, line_of};
