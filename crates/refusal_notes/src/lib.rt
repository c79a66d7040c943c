//! What is told on standard error where a run ends with a status other than 0: where a file is refused and why, a
//! device that failed, and how the program is called.
#![tactic(auto)]

mod advice;
mod causes;
mod excerpt;
mod habits;
mod logs;
mod note;
mod places;
mod replies;
mod signs;
mod spots;
mod usage;

pub use logs::{long_log_note, lost_log_note, refused_log_note};
pub use note::{Memory, fault_note, file_note, gone_file_note, long_file_note};
pub use replies::reply_note;
pub use spots::{column_of, line_of};
pub use usage::{
    BUDGET_NOTE, GENERATION_NOTE, MEMORY_LOST, OUTPUT_LOST, SCRIPT_TOO_LONG, USAGE, VERSION,
};
