//! The note on how a run ended.
use crate::files::{note_on_reading, note_on_refusal};
use crate::logs::{Lost, note_on_entry, note_on_length, note_on_loss};
use crate::words::{bytes_of, note_on_words};
use idp_cli::Status;
use kb_io::Shelf;
use refusal_notes::MEMORY_LOST;
use std::alloc::{AllocError, Global};

/// What is told of how a run by these words ended; nothing where all was done. Where writing failed, the lost device is
/// told of. A file that was refused is read once more, and once more refused; one that may be what could not be read is
/// only read. Each note ends with a newline.
pub fn note_on<H: Shelf>(
    alloc: Global,
    words: &[String],
    shelf: &mut H,
    status: Status,
    lost: Lost,
) -> Result<Vec<u8>, AllocError> {
    match status {
        Status::Done => Ok(Vec::new(alloc)),
        Status::KbRefused(cause, _) => note_on_refusal(alloc, words, shelf, cause),
        Status::ReadFault => note_on_reading(alloc, words, shelf),
        Status::Usage => note_on_words(alloc, words),
        Status::WriteFault => note_on_loss(alloc, words, lost),
        Status::Memory => bytes_of(alloc, MEMORY_LOST),
        Status::ScriptTooLong => note_on_length(alloc, words),
        Status::LogRefused(entry) => note_on_entry(alloc, words, entry),
    }
}
