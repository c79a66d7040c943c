//! What a line of the cases asks for.
use idp_cli::Status;
use std::alloc::{AllocError, Global};

/// What a line asks for.
#[derive(Drop)]
pub enum Asked<'a> {
    /// Nothing: it is a remark.
    Nothing,
    /// A run by these words, with the commands of the named file.
    Run(Vec<String>, Option<&'a str>),
    /// What is told of a run that ended so.
    Note(Status),
    /// Which file these words name for a log.
    LogName(Vec<String>),
    /// What is told of a run by these words whose log is lost.
    LostLog(Vec<String>),
}

/// The end of a run that no file brings about.
fn status_of(digit: &str) -> Option<Status> {
    match digit {
        "3" => Some(Status::ReadFault),
        "4" => Some(Status::WriteFault),
        "5" => Some(Status::Memory),
        "6" => Some(Status::ScriptTooLong),
        _ => None,
    }
}

/// The words of a text, with blanks between them; none of a full stop.
fn words_of(alloc: Global, text: &str) -> Result<Vec<String>, AllocError> {
    let mut words = Vec::new(alloc);
    if text != "." {
        for word in text.split(' ') {
            words.push(String::from_str(alloc, word)?)?;
        }
    }
    Ok(words)
}

/// What a line asks for: `# REMARK`, `status N`, `log WORDS`, `lost WORDS`, `WORDS` or `WORDS < SCRIPT`, where a full
/// stop stands for no words.
pub fn asked_by(alloc: Global, line: &str) -> Result<Asked<'_>, AllocError> {
    if line.starts_with('#') {
        return Ok(Asked::Nothing);
    }
    if let Some(digit) = line.strip_prefix("status ") {
        return match status_of(digit) {
            Some(status) => Ok(Asked::Note(status)),
            None => Ok(Asked::Nothing),
        };
    }
    if let Some(words) = line.strip_prefix("log ") {
        return Ok(Asked::LogName(words_of(alloc, words)?));
    }
    if let Some(words) = line.strip_prefix("lost ") {
        return Ok(Asked::LostLog(words_of(alloc, words)?));
    }
    match line.split_once(" < ") {
        Some((words, script)) => Ok(Asked::Run(words_of(alloc, words)?, Some(script))),
        None => Ok(Asked::Run(words_of(alloc, line)?, None)),
    }
}
