//! What is told of words that are no command line.
use command_words::{Complaint, complaint_on};
use refusal_notes::{BUDGET_NOTE, GENERATION_NOTE, USAGE, VERSION};
use std::alloc::{AllocError, Global};

/// The bytes of a text.
pub fn bytes_of(alloc: Global, text: &str) -> Result<Vec<u8>, AllocError> {
    text.as_bytes().to_vec(alloc)
}

/// What is told of a complaint.
fn told_of(alloc: Global, complaint: &Complaint) -> Result<Vec<u8>, AllocError> {
    match complaint {
        Complaint::Help => bytes_of(alloc, USAGE),
        Complaint::Version => bytes_of(alloc, VERSION),
        Complaint::Wrong(lines) => bytes_of(alloc, lines.as_str()),
        Complaint::Budget => bytes_of(alloc, BUDGET_NOTE),
        Complaint::Generation => bytes_of(alloc, GENERATION_NOTE),
    }
}

/// What is told of these words: how the program is called where they ask for it or there are none, else what is wrong
/// with them.
pub fn note_on_words(alloc: Global, words: &[String]) -> Result<Vec<u8>, AllocError> {
    let complaint = complaint_on(alloc, words)?;
    told_of(alloc, &complaint)
}
