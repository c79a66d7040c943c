//! Asks solvers what lines of words say: each line is a problem with a question about it.
#![tactic(auto)]

mod answering;
mod asking;
mod reading;
mod texts;

use answering::answer;
use std::io;
use std::process::ExitCode;

fn main(rt: HostRuntime) -> ExitCode {
    let Ok(text) = io::read_to_string(rt.alloc(), rt.stdin()) else {
        return ExitCode::from(3);
    };
    for line in text.as_str().lines() {
        if line.is_empty() || line.starts_with('#') {
            continue;
        }
        let Ok(said) = answer(rt.alloc(), line) else {
            return ExitCode::from(5);
        };
        if println!(rt; "{said}").is_err() {
            return ExitCode::from(4);
        }
    }
    ExitCode::from(0)
}
