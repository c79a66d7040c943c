//! What is told of a log.
use crate::words::bytes_of;
use idp_cli::{Job, job_of, log_path};
use refusal_notes::{OUTPUT_LOST, SCRIPT_TOO_LONG, long_log_note, lost_log_note, refused_log_note};
use std::alloc::{AllocError, Global};

/// The device that failed where writing did.
#[derive(Clone, Copy)]
pub enum Lost {
    Output,
    Log,
}

/// The file and the log that the words would have checked against each other.
fn checked_by<'a>(
    alloc: Global,
    words: &'a [String],
) -> Result<Option<(&'a str, &'a str)>, AllocError> {
    match job_of(alloc, words)? {
        Some(Job::Verify(file, _, log)) => Ok(Some((file, log))),
        _ => Ok(None),
    }
}

/// What is told of a log whose entry of this number is the first that is no step.
pub fn note_on_entry(alloc: Global, words: &[String], entry: u64) -> Result<Vec<u8>, AllocError> {
    match checked_by(alloc, words)? {
        Some((file, log)) => refused_log_note(alloc, log, file, entry),
        None => Ok(Vec::new(alloc)),
    }
}

/// What is told of an input that is too long: of a log, or of the commands.
pub fn note_on_length(alloc: Global, words: &[String]) -> Result<Vec<u8>, AllocError> {
    match checked_by(alloc, words)? {
        Some((_, log)) => long_log_note(alloc, log),
        None => bytes_of(alloc, SCRIPT_TOO_LONG),
    }
}

/// What is told of a device that could not be written.
pub fn note_on_loss(alloc: Global, words: &[String], lost: Lost) -> Result<Vec<u8>, AllocError> {
    let Lost::Log = lost else {
        return bytes_of(alloc, OUTPUT_LOST);
    };
    match log_path(alloc, words)? {
        Some(log) => lost_log_note(alloc, log.as_str()),
        None => bytes_of(alloc, OUTPUT_LOST),
    }
}
