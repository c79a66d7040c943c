//! Prints what the readers and the stages up to sizes make of each case on the standard input.
//!
//! A case is a line with the name of a call, and the text that the call is given. A line `====` stands between each
//! two.
#![tactic(auto)]

mod calls;
mod lines;
mod printing;

use printing::printed;
use std::io::{Read, Write};
use std::process::ExitCode;

fn main(rt: HostRuntime) -> ExitCode {
    let mut cases = Vec::new(rt.alloc());
    if rt.stdin().read_to_end(&mut cases).is_err() {
        return ExitCode::from(3);
    }
    let Ok(lines) = printed(rt.alloc(), &cases) else {
        return ExitCode::from(5);
    };
    match rt.stdout().write_all(lines.as_bytes()) {
        Ok(()) => ExitCode::from(0),
        Err(_) => ExitCode::from(4),
    }
}
