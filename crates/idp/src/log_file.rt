//! The file that a log is written to.
#[cfg(test)]
mod tests;

use idp_cli::{Job, job_of, log_path};
use std::alloc::{AllocError, Global};
use std::fs::{self, Files};
use std::io::{Error, ErrorKind, Result, Write};
use std::os::unix::fs::MetadataExt;

/// Where a log goes.
#[derive(Drop)]
pub enum LogFile<F> {
    /// No log is asked for: what is written is let go.
    Unasked,
    /// A file that was made anew.
    Made(F),
    /// A file that cannot be made: nothing can be written.
    Lost,
}

impl<F: Write> Write for LogFile<F> {
    fn write(&mut self, piece: &[u8]) -> Result<usize> {
        match self {
            LogFile::Unasked => Ok(piece.len()),
            LogFile::Made(file) => file.write(piece),
            LogFile::Lost => Err(Error::from(ErrorKind::NotFound)),
        }
    }

    fn flush(&mut self) -> Result<()> {
        match self {
            LogFile::Unasked => Ok(()),
            LogFile::Made(file) => file.flush(),
            LogFile::Lost => Err(Error::from(ErrorKind::NotFound)),
        }
    }
}

/// Whether both names are there, and are names of one file.
fn are_one<R: Files>(rt: &R, name: &str, other: &str) -> bool {
    match (fs::metadata(rt, name), fs::metadata(rt, other)) {
        (Ok(found), Ok(beside)) => found.dev() == beside.dev() && found.ino() == beside.ino(),
        _ => false,
    }
}

/// Makes the file of a log anew. It never takes the place of the knowledge base.
fn make<R: Files>(rt: &R, path: &str, base: &str) -> LogFile<R::File> {
    if are_one(rt, path, base) {
        return LogFile::Lost;
    }
    match fs::create(rt, path) {
        Ok(file) => LogFile::Made(file),
        Err(_) => LogFile::Lost,
    }
}

/// Where the words say that the log goes.
pub fn log_of<R: Files + AllocGlobal>(
    rt: &R,
    words: &[String],
) -> std::result::Result<LogFile<R::File>, AllocError> {
    let alloc: Global = rt.alloc();
    let Some(path) = log_path(alloc, words)? else {
        return Ok(LogFile::Unasked);
    };
    match job_of(alloc, words)? {
        Some(Job::Consult(job)) => Ok(make(rt, path.as_str(), job.file)),
        _ => Ok(LogFile::Unasked),
    }
}
