//! Prints what theories fix of what their data leave open: each line of its input is a knowledge base.
#![tactic(auto)]

mod closures;
mod stages;

use stages::push_lines;
use std::io::{Read, Write};
use std::process::ExitCode;

fn main(rt: HostRuntime) -> ExitCode {
    let mut text = Vec::new(rt.alloc());
    if rt.stdin().read_to_end(&mut text).is_err() {
        return ExitCode::from(3);
    }
    let mut out = Vec::new(rt.alloc());
    if push_lines(rt.alloc(), &text, &mut out).is_err() {
        return ExitCode::from(5);
    }
    match rt.stdout().write_all(&out) {
        Ok(()) => ExitCode::from(0),
        Err(_) => ExitCode::from(4),
    }
}
