//! What a file means is said so that it can be read: laws.
#![tactic(auto)]

mod accepted_blocks;
mod laws;
mod spoken_formulas;

pub use accepted_blocks::{accepted_are_listed, accepted_are_read_back, accepted_are_writable};
pub use laws::{
    files_are_spoken, files_have_word_names, sentences_are_read_back, structures_are_read_back,
};
pub use spoken_formulas::{accepted_are_read_again, accepted_are_spoken};
