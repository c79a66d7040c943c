//! Plays cases over the solver that callers keep, over one that is made anew for each question, and over brute force,
//! and prints the verdicts.
#![tactic(auto)]

mod drawing;
mod lines;
mod listing;
mod playing;
mod report;
mod stores;
mod texts;
mod words;

use report::report;
use std::io::{Read, Write};
use std::process::ExitCode;
use std::str;

fn main(rt: HostRuntime) -> ExitCode {
    let mut text = Vec::new(rt.alloc());
    if rt.stdin().read_to_end(&mut text).is_err() {
        return ExitCode::from(3);
    }
    let Ok(text) = str::from_utf8(&text) else {
        return ExitCode::from(1);
    };
    let Ok(lines) = report(rt.alloc(), text) else {
        return ExitCode::from(5);
    };
    match rt.stdout().write_all(lines.as_bytes()) {
        Ok(()) => ExitCode::from(0),
        Err(_) => ExitCode::from(4),
    }
}
