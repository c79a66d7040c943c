//! What is told on standard error of how a run ended.
use crate::files::FileSystem;
use idp_cli::Status;
use refusal_notes::MEMORY_LOST;
use run_notes::{Lost, note_on};
use std::io::Write;

/// Tells on standard error how a run by these words over these files ended; nothing where all was done. A file that can
/// be read once alone is not opened anew. That it cannot be told changes nothing.
pub fn tell(
    rt: &HostRuntime,
    words: &[String],
    files: &mut FileSystem<'_, HostRuntime>,
    status: Status,
    lost: Lost,
) {
    files.end();
    let _told = match note_on(rt.alloc(), words, files, status, lost) {
        Ok(note) => rt.stderr().write_all(&note),
        Err(_) => rt.stderr().write_all(MEMORY_LOST.as_bytes()),
    };
}
