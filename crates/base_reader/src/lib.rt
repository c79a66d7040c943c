//! The knowledge base of a file: all stages of reading, one after another.
#![tactic(auto)]

mod bases;
mod laws;
mod reading;

pub use bases::{accepted_can_be_grounded, accepted_is_bounded};
pub use grammar::KbError;
pub use laws::{accepted_or_refused, one_file_meaning, one_file_refusal};
pub use reading::read_base;
