//! What is told of a log.
use crate::note::Memory;
use std::alloc::Global;

/// What is told of the named log, whose entry of this number is no step of a log of the named file.
pub fn refused_log_note(
    alloc: Global,
    log: &str,
    file: &str,
    entry: u64,
) -> Result<Vec<u8>, Memory> {
    let text = format!(in alloc; "idp: {log}: entry {entry} is no step of a log of {file}\n")?;
    Ok(text.into_bytes())
}

/// What is told of the named log, which has too many bytes.
pub fn long_log_note(alloc: Global, log: &str) -> Result<Vec<u8>, Memory> {
    let text = format!(in alloc; "idp: {log}: the log has more than 67,108,864 bytes\n")?;
    Ok(text.into_bytes())
}

/// What is told of the named log, which is lost.
pub fn lost_log_note(alloc: Global, log: &str) -> Result<Vec<u8>, Memory> {
    let text = format!(in alloc;
        "idp: {log}: the log cannot be made or written there; it never takes the place of FILE\n"
    )?;
    Ok(text.into_bytes())
}
