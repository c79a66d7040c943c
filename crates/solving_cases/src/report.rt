//! What is printed of all cases.
use crate::lines::{Line, line_of};
use crate::playing::{Play, played};
use solving_judge::faults::{Fault, text_of};
use std::alloc::{AllocError, Global};

/// Adds a line of a number and a text.
fn add_line(alloc: Global, lines: &mut String, number: u64, text: &str) -> Result<(), AllocError> {
    let line = format!(in alloc; "{number}: {text}\n")?;
    lines.push_str(line.as_str())
}

/// Plays a line, after a new case where it begins one.
fn play_line(alloc: Global, play: &mut Play, text: &str) -> Result<Option<String>, Fault> {
    let line = line_of(alloc, text)?;
    if let Line::Case = line {
        *play = Play::new(alloc);
    }
    played(alloc, play, line)
}

/// Adds what came of a line that asks something.
fn report_line(
    alloc: Global,
    lines: &mut String,
    play: &mut Play,
    number: u64,
    text: &str,
) -> Result<(), AllocError> {
    match play_line(alloc, play, text) {
        Ok(Some(said)) => add_line(alloc, lines, number, said.as_str()),
        Ok(None) => Ok(()),
        Err(fault) => add_line(alloc, lines, number, text_of(fault)),
    }
}

/// What is printed: the number of each line that asks something, and what came of it.
pub fn report(alloc: Global, text: &str) -> Result<String, AllocError> {
    let mut lines = String::new(alloc);
    let mut play = Play::new(alloc);
    let mut number = 0u64;
    for line in text.split('\n') {
        number = number.saturating_add(1);
        report_line(alloc, &mut lines, &mut play, number, line)?;
    }
    Ok(lines)
}
