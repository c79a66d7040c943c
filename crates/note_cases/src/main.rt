//! Plays command lines over small files, and prints what each run printed, what a person is told of it, and its status.
#![tactic(auto)]

mod asked;
mod files;
mod playing;

use asked::{Asked, asked_by};
use files::bytes_of;
use idp_cli::Status;
use playing::{Files, name_log, play, tell_of};
use run_notes::Lost;
use std::alloc::AllocError;
use std::io::{Read, Write};
use std::process::ExitCode;

/// The bytes of the file that a word names; none where there is no such file, or no word.
fn bytes_at(rt: &HostRuntime, name: Option<&String>) -> Option<Vec<u8>> {
    match name {
        Some(name) => bytes_of(rt, name.as_str()),
        None => None,
    }
}

/// Adds what a line asks for.
fn add_line(rt: &HostRuntime, lines: &mut Vec<u8>, line: &str) -> Result<(), AllocError> {
    let alloc = rt.alloc();
    match asked_by(alloc, line)? {
        Asked::Nothing => Ok(()),
        Asked::Note(status) => tell_of(alloc, lines, &[], status, Lost::Output),
        Asked::LostLog(words) => tell_of(alloc, lines, &words, Status::WriteFault, Lost::Log),
        Asked::LogName(words) => name_log(alloc, lines, &words),
        Asked::Run(words, script) => {
            let files = Files {
                file: bytes_at(rt, words.get(1)),
                log: bytes_at(rt, words.get(2)),
            };
            let commands = match script {
                Some(name) => bytes_of(rt, name),
                None => None,
            };
            play(alloc, lines, &words, &files, commands)
        }
    }
}

/// What is printed of the lines, each after the line itself.
fn report(rt: &HostRuntime, text: &str) -> Result<Vec<u8>, AllocError> {
    let mut lines = Vec::new(rt.alloc());
    for line in text.lines() {
        lines.extend_from_slice(b"$ ")?;
        lines.extend_from_slice(line.as_bytes())?;
        lines.push(b'\n')?;
        add_line(rt, &mut lines, line)?;
    }
    Ok(lines)
}

fn main(rt: HostRuntime) -> ExitCode {
    let mut text = String::new(rt.alloc());
    if rt.stdin().read_to_string(&mut text).is_err() {
        return ExitCode::from(3);
    }
    let Ok(lines) = report(&rt, text.as_str()) else {
        return ExitCode::from(5);
    };
    match rt.stdout().write_all(&lines) {
        Ok(()) => ExitCode::from(0),
        Err(_) => ExitCode::from(4),
    }
}
