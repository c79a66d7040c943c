//! Runs over devices in memory, and what is told of them.
ghost use Rattle.std.specs.Prelude.{◌≡◌, IfOk, IfSome};

use idp_cli::{Status, log_path, run};
use kb_io::{MemFile, MemShelf, MemSink, MemSource, NullSink};
use refusal_notes::reply_note;
use run_notes::{Lost, note_on};
use std::alloc::{AllocError, Global};

/// A source of these bytes.
fn source_of(alloc: Global, bytes: &[u8]) -> Result<MemSource, AllocError>
    ensures { IfOk result (λ source. source.faults ≡ 0) }
{
    Ok(MemSource::new(bytes.to_vec(alloc)?, Vec::new(alloc), Vec::new(alloc)))
}

/// The files that the second and the third word name, where they are there.
#[derive(Drop)]
pub struct Files {
    pub file: Option<Vec<u8>>,
    pub log: Option<Vec<u8>>,
}

/// The file that a word names, where it is there.
fn file_at(
    alloc: Global,
    name: Option<&String>,
    bytes: &Option<Vec<u8>>,
) -> Result<Option<MemFile>, AllocError>
    ensures { IfOk result (λ file. IfSome file (λ file. file.source.faults ≡ 0)) }
{
    let (Some(name), Some(bytes)) = (name, bytes) else {
        return Ok(None);
    };
    Ok(Some(MemFile {
        name: String::from_str(alloc, name.as_str())?,
        source: source_of(alloc, bytes)?,
    }))
}

/// A shelf with these files; with the first one alone where both have one name.
fn shelf_of(alloc: Global, words: &[String], files: &Files) -> Result<MemShelf, AllocError> {
    let Some(file) = file_at(alloc, words.get(1), &files.file)? else {
        return Ok(MemShelf::new(Vec::new(alloc), Vec::new(alloc)));
    };
    match file_at(alloc, words.get(2), &files.log)? {
        Some(log) if log.name.as_str() != file.name.as_str() => {
            Ok(MemShelf::new(vec![in alloc; log, file]?, Vec::new(alloc)))
        }
        _ => Ok(MemShelf::new(vec![in alloc; file]?, Vec::new(alloc))),
    }
}

/// Adds the replies, and after each what is told of it at a terminal.
fn add_replies(lines: &mut Vec<u8>, replies: &[u8]) -> Result<(), AllocError> {
    for reply in replies.split(|b| *b == b'\n') {
        if !reply.is_empty() {
            lines.extend_from_slice(reply)?;
            lines.push(b'\n')?;
            lines.extend_from_slice(reply_note(reply).as_bytes())?;
        }
    }
    Ok(())
}

/// Adds the status.
fn add_status(alloc: Global, lines: &mut Vec<u8>, status: Status) -> Result<(), AllocError> {
    let code = status.code();
    lines.extend_from_slice(format!(in alloc; "status {code}\n\n")?.as_bytes())
}

/// Adds what a run by these words printed, over these files, what is told of it, and its status.
pub fn play(
    alloc: Global,
    lines: &mut Vec<u8>,
    words: &[String],
    files: &Files,
    commands: Option<Vec<u8>>,
) -> Result<(), AllocError> {
    let mut shelf = shelf_of(alloc, words, files)?;
    let mut commands = match commands {
        Some(bytes) => source_of(alloc, &bytes)?,
        None => source_of(alloc, b"")?,
    };
    let mut out = MemSink::new(
        Vec::new(alloc),
        Vec::new(alloc),
        Vec::new(alloc),
        Vec::new(alloc),
    );
    let status = run(
        alloc,
        words,
        &mut shelf,
        &mut commands,
        &mut out,
        &mut NullSink,
    );
    add_replies(lines, out.held())?;
    let mut again = shelf_of(alloc, words, files)?;
    lines.extend_from_slice(&note_on(alloc, words, &mut again, status, Lost::Output)?)?;
    add_status(alloc, lines, status)
}

/// Adds what is told of a run by these words that ended so, without any files.
pub fn tell_of(
    alloc: Global,
    lines: &mut Vec<u8>,
    words: &[String],
    status: Status,
    lost: Lost,
) -> Result<(), AllocError> {
    let mut shelf = MemShelf::new(Vec::new(alloc), Vec::new(alloc));
    lines.extend_from_slice(&note_on(alloc, words, &mut shelf, status, lost)?)?;
    add_status(alloc, lines, status)
}

/// Adds the name of the file that these words give to a log.
pub fn name_log(alloc: Global, lines: &mut Vec<u8>, words: &[String]) -> Result<(), AllocError> {
    match log_path(alloc, words)? {
        Some(name) => lines.extend_from_slice(name.as_bytes())?,
        None => lines.extend_from_slice(b"no log")?,
    }
    lines.extend_from_slice(b"\n\n")
}
