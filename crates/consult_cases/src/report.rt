//! What is printed of the cases.
ghost use Rattle.std.specs.Prelude.{◌≡◌, ◌++◌, IfOk, IfSome, OnOk};
ghost use Rattle.std.specs.String.{string_bytes};
ghost use Rattle.consult_cases.specs.Playing.{IsPlayed, log_text, outcome_text, status_text, Adds};
ghost use Rattle.consult_cases.specs.Playing.{IsReport};

use crate::cases::{case_of, cut_at, words_of};
use crate::playing::{Outcome, play};
use idp_cli::Status;
use std::alloc::{AllocError, Global};

/// What stands between two cases.
const CASE: &[u8] = b"\n====\n";

/// As many bytes as are handed over one by one.
const SINGLES: [usize; 2_000] = [1; 2_000];

fn status_line(alloc: Global, status: Status) -> Result<String, AllocError>
    ensures { IfOk result (λ line. string_bytes line ≡ status_text status) }
{
    let code = status.code();
    format!(in alloc; "status {code}\n")
}

/// Adds what the log held, behind a line that says so; nothing where it held nothing.
fn add_log(lines: &mut Vec<u8>, log: &[u8]) -> Result<(), AllocError>
    ensures { OnOk result (lines.new.items ≡ lines.old.items ++ log_text log.now) }
{
    if log.is_empty() {
        return Ok(());
    }
    lines.extend_from_slice(b"log\n")?;
    lines.extend_from_slice(log)
}

/// Adds the replies, the log and the status.
fn add_outcome(alloc: Global, lines: &mut Vec<u8>, outcome: &Outcome) -> Result<(), AllocError>
    ensures { OnOk result (lines.new.items ≡ lines.old.items
        ++ outcome_text outcome.now.status outcome.now.text.items outcome.now.log.items) }
{
    lines.extend_from_slice(&outcome.text)?;
    add_log(lines, &outcome.log)?;
    let line = status_line(alloc, outcome.status)?;
    lines.extend_from_slice(line.as_bytes())
}

/// The pieces in which the devices hand over their bytes: `whole` or `bytes`, which hands them over one by one.
fn pieces_of(how: &str) -> Option<&'static [usize]> {
    match how {
        "whole" => Some(&[]),
        "bytes" => Some(&SINGLES),
        _ => None,
    }
}

/// Plays a case and adds what it left.
fn add_case(alloc: Global, lines: &mut Vec<u8>, text: &[u8]) -> Option<()>
    ensures { IfSome result (λ _. Adds IsPlayed text.now lines.old.items lines.new.items) }
{
    let case = case_of(text)?;
    let Ok(head) = words_of(alloc, case.head) else {
        return None;
    };
    let (how, words) = head.split_first()?;
    let pieces = pieces_of(how.as_str())?;
    let Ok(outcome) = play(alloc, words, &case, pieces) else {
        return None;
    };
    if add_outcome(alloc, lines, &outcome).is_err() {
        return None;
    }
    Some(())
}

/// What the cases left, one after another; nothing where a text is no case, or memory ran out.
pub fn report(alloc: Global, texts: &[u8]) -> Option<Vec<u8>>
    ensures { IfSome result (λ lines. IsReport texts.now lines.items) }
{
    let mut lines = Vec::new(alloc);
    let mut rest = texts;
    while let Some((text, after)) = cut_at(rest, CASE) {
        add_case(alloc, &mut lines, text)?;
        rest = after;
    }
    add_case(alloc, &mut lines, rest)?;
    Some(lines)
}
