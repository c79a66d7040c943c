//! Large valid files, each made from a number.
#![tactic(auto)]

mod kinds;
mod laws;
mod rows;
mod texts;

pub use kinds::Kind;
pub use laws::written_out;
pub use texts::file_text;
