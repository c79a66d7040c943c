//! Plays transcripts through `run` over devices in memory, and prints what each run left.
#![tactic(auto)]

mod cases;
mod playing;
mod report;

use report::report;
use std::io::{Read, Write};
use std::process::ExitCode;

fn main(rt: HostRuntime) -> ExitCode {
    let mut texts = Vec::new(rt.alloc());
    if rt.stdin().read_to_end(&mut texts).is_err() {
        return ExitCode::from(3);
    }
    let Some(lines) = report(rt.alloc(), &texts) else {
        return ExitCode::from(1);
    };
    match rt.stdout().write_all(&lines) {
        Ok(()) => ExitCode::from(0),
        Err(_) => ExitCode::from(4),
    }
}
