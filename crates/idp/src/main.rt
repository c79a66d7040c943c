//! The consultant's program: the words of the process, its files and its standard streams, handed to `run`.
#![tactic(auto)]

mod adapters;
mod closed_streams;
mod files;
mod log_file;
mod terminal;
#[cfg(test)]
mod tests;
mod voice;

use adapters::{CountedReader, CountedWriter};
use closed_streams::StandIns;
use file_laws::{
    files_are_spoken, files_have_word_names, sentences_are_read_back, structures_are_read_back,
};
use files::FileSystem;
use idp_cli::{Status, run};
use kb_io::Sink;
use log_file::log_of;
use run_laws::{
    logs_are_verified_as_they_should_be, printed_bytes_determine_the_replies,
    statuses_come_where_they_should, what_is_printed_of_a_file_can_be_read,
};
use run_notes::Lost;
use std::alloc::AllocError;
use std::env::{self, Env};
use std::io::{ErrorKind, IsTerminal};
use std::process::ExitCode;
use terminal::{Noted, Prompted};
use voice::tell;

/// The words after the program's name. A word that is no text makes them none, which is no command line.
fn words_of<R: Env + AllocGlobal>(rt: &R) -> Result<Vec<String>, AllocError> {
    let mut words = Vec::new(rt.alloc());
    match env::args(rt) {
        Ok(args) => {
            for word in args.skip(1) {
                words.push(word)?;
            }
        }
        Err(e) if e.kind() == ErrorKind::OutOfMemory => return Err(AllocError),
        Err(_) => {}
    }
    Ok(words)
}

/// Runs by the words, over these files and the standard streams.
fn answers<L: Sink>(
    rt: &HostRuntime,
    words: &[String],
    files: &mut FileSystem<'_, HostRuntime>,
    log: &mut L,
) -> Status {
    let typed = rt.stdin().is_terminal();
    run(
        rt.alloc(),
        words,
        files,
        &mut CountedReader::new(Prompted::new(rt.stdin(), rt.stderr(), typed)),
        &mut CountedWriter::new(Noted::new(rt.stdout(), rt.stderr(), typed)),
        log,
    )
}

/// Which device failed where writing did: the log, where it did, since nothing is written after that.
fn lost_by<W>(log: &CountedWriter<W>) -> Lost {
    if log.has_failed() {
        Lost::Log
    } else {
        Lost::Output
    }
}

/// Tells that memory ran out before the run began.
fn gives_up(rt: &HostRuntime) -> ExitCode {
    tell(
        rt,
        &[],
        &mut FileSystem::new(rt),
        Status::Memory,
        Lost::Output,
    );
    ExitCode::from(Status::Memory.code())
}

fn main(rt: HostRuntime) -> ExitCode {
    statuses_come_where_they_should();
    logs_are_verified_as_they_should_be();
    printed_bytes_determine_the_replies();
    files_have_word_names();
    structures_are_read_back();
    files_are_spoken();
    sentences_are_read_back();
    what_is_printed_of_a_file_can_be_read();
    let _stand_ins = StandIns::new(&rt);
    let Ok(words) = words_of(&rt) else {
        return gives_up(&rt);
    };
    let Ok(log) = log_of(&rt, &words) else {
        return gives_up(&rt);
    };
    let mut log = CountedWriter::new(log);
    let mut files = FileSystem::new(&rt);
    let status = answers(&rt, &words, &mut files, &mut log);
    tell(&rt, &words, &mut files, status, lost_by(&log));
    ExitCode::from(status.code())
}
