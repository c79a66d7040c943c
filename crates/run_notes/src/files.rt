//! What is told of a file that is refused or cannot be read.
use base_reader::{KbError, read_base};
use heaviest_parts::explained;
use idp_cli::{Job, Options, job_of};
use kb_io::{ReadError, Shelf, read_up_to};
use kb_text::{K, KbFault};
use refusal_notes::{fault_note, file_note, gone_file_note, long_file_note};
use std::alloc::{AllocError, Global};

/// A longer file is refused unread.
const MOST_FILE_BYTES: usize = 4_194_304;

/// What a job reads.
#[derive(Clone, Copy)]
struct Inputs<'a> {
    file: &'a str,
    options: Options<'a>,
    /// The log that is read beside the file; without one it is standard input.
    log: Option<&'a str>,
}

/// What a job reads; nothing where it makes its file.
fn inputs_of<'a>(job: Job<'a>) -> Option<Inputs<'a>> {
    let (file, options, log) = match job {
        Job::Consult(job) => (job.file, job.options, None),
        Job::Check(file, options) => (file, options, None),
        Job::Verify(file, options, log) => (file, options, Some(log)),
        Job::Make(_, _) | Job::Summarise(_, _) => return None,
    };
    Some(Inputs { file, options, log })
}

/// What the words read; nothing where they are no command line, or make a file.
fn inputs_by<'a>(alloc: Global, words: &'a [String]) -> Result<Option<Inputs<'a>>, AllocError> {
    match job_of(alloc, words)? {
        Some(job) => Ok(inputs_of(job)),
        None => Ok(None),
    }
}

/// Reads the named file to its end.
fn read_file<H: Shelf>(alloc: Global, shelf: &mut H, name: &str) -> Result<Vec<u8>, ReadError> {
    let Ok(mut source) = shelf.open(name) else {
        return Err(ReadError::Fault);
    };
    let bytes = read_up_to(alloc, &mut source, MOST_FILE_BYTES);
    shelf.close(source);
    bytes
}

/// What is told of a refusal, and where a size is refused, which parts of the file make it so large.
fn note_on_fault(
    alloc: Global,
    inputs: &Inputs<'_>,
    bytes: &[u8],
    fault: KbFault,
    lines: &[u8],
) -> Result<Vec<u8>, AllocError> {
    let mut note = fault_note(alloc, inputs.file, bytes, fault)?;
    note.extend_from_slice(lines)?;
    Ok(note)
}

/// What is told of bytes that are too large. They are read once, with what is counted of their parts.
fn note_on_size(alloc: Global, inputs: &Inputs<'_>, bytes: &[u8]) -> Result<Vec<u8>, AllocError> {
    let options = inputs.options;
    match explained(alloc, bytes, options.theory, options.structure)? {
        Some(refusal) => note_on_fault(alloc, inputs, bytes, refusal.fault, &refusal.lines),
        None => gone_file_note(alloc, inputs.file),
    }
}

/// What is told of bytes that are refused otherwise.
fn note_on_bytes(alloc: Global, inputs: &Inputs<'_>, bytes: &[u8]) -> Result<Vec<u8>, AllocError> {
    let options = inputs.options;
    match read_base(alloc, bytes, options.theory, options.structure) {
        Ok(_) => gone_file_note(alloc, inputs.file),
        Err(KbError::Refused(fault)) => note_on_fault(alloc, inputs, bytes, fault, b""),
        Err(KbError::Memory) => Err(AllocError),
    }
}

/// What is told of the file that was refused for this cause.
fn note_on_refused<H: Shelf>(
    alloc: Global,
    inputs: &Inputs<'_>,
    shelf: &mut H,
    cause: K,
) -> Result<Vec<u8>, AllocError> {
    match read_file(alloc, shelf, inputs.file) {
        Ok(bytes) if cause == K::TooLarge => note_on_size(alloc, inputs, &bytes),
        Ok(bytes) => note_on_bytes(alloc, inputs, &bytes),
        Err(ReadError::TooLong(newlines)) => long_file_note(alloc, inputs.file, newlines),
        Err(ReadError::Fault) => gone_file_note(alloc, inputs.file),
        Err(ReadError::Memory) => Err(AllocError),
    }
}

/// What is told of the file that is refused for this cause by a run by these words; nothing of a file that is made,
/// which is never refused.
pub fn note_on_refusal<H: Shelf>(
    alloc: Global,
    words: &[String],
    shelf: &mut H,
    cause: K,
) -> Result<Vec<u8>, AllocError> {
    match inputs_by(alloc, words)? {
        Some(inputs) => note_on_refused(alloc, &inputs, shelf, cause),
        None => Ok(Vec::new(alloc)),
    }
}

/// What is told where reading failed: that the file cannot be read, or where it can, that the other input cannot, which
/// is the log or standard input.
pub fn note_on_reading<H: Shelf>(
    alloc: Global,
    words: &[String],
    shelf: &mut H,
) -> Result<Vec<u8>, AllocError> {
    let Some(inputs) = inputs_by(alloc, words)? else {
        return file_note(alloc, None);
    };
    match read_file(alloc, shelf, inputs.file) {
        Err(ReadError::Fault) => file_note(alloc, Some(inputs.file)),
        _ => file_note(alloc, inputs.log),
    }
}
