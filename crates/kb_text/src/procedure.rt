//! Where a procedure ends: the Lua texts in it are passed over, braces in them not counted.
ghost use Rattle.std.specs.Prelude.{◌≡◌, ◌≤◌, ◌<◌, ◌+◌, ◌^◌, length, IfSome};
ghost use Rattle.kb_text.specs.Procedures.{passage_at, passed, step_of, FitsIn, ClosesAfter, is_procedure_word};

use crate::bytes::line_len;
use crate::ends::{close_len, quoted_len};

/// What stands at a place of a procedure.
pub enum Passage {
    Opening,
    Closing,
    /// So many bytes, in which no brace counts.
    Over(usize),
    /// A text or comment that does not end, or the end of the file.
    Unclosed,
}

/// What it does where some braces are open.
pub enum Step {
    /// The first brace is closed.
    Last,
    /// It never will be.
    Stop,
    /// So many braces are open after so many bytes.
    Next(usize, usize),
}

fn passed(front: usize, rest: Option<usize>) -> Passage
    requires { IfSome rest (λ m. m + front < 2 ^ 64) }
    ensures { result ≡ passed front rest }
{
    match rest {
        Some(n) => Passage::Over(n + front),
        None => Passage::Unclosed,
    }
}

fn passage_at(bytes: &[u8]) -> Passage
    requires some { 0 < length bytes.now }
    requires short { length bytes.now < 2 ^ 63 }
    ensures { result ≡ passage_at bytes.now }
{
    let first = bytes[0];
    if first == b'{' {
        Passage::Opening
    } else if first == b'}' {
        Passage::Closing
    } else if first == b'"' || first == b'\'' {
        let (_, rest) = bytes.split_at(1);
        passed(1, quoted_len(rest, first))
    } else if bytes.starts_with(b"[[") {
        let (_, rest) = bytes.split_at(2);
        passed(2, close_len(rest, b']', b']'))
    } else if bytes.starts_with(b"--[[") {
        let (_, rest) = bytes.split_at(4);
        passed(4, close_len(rest, b']', b']'))
    } else if bytes.starts_with(b"--") {
        let (_, rest) = bytes.split_at(1);
        Passage::Over(line_len(rest) + 1)
    } else {
        Passage::Over(1)
    }
}

fn step_of(braces: usize, passage: Passage) -> Step
    requires { braces < 2 ^ 63 }
    ensures { result ≡ step_of braces passage }
{
    match passage {
        Passage::Opening => Step::Next(braces + 1, 1),
        Passage::Closing => match braces {
            0 => Step::Next(0, 1),
            1 => Step::Last,
            _ => Step::Next(braces - 1, 1),
        },
        Passage::Over(n) => Step::Next(braces, n),
        Passage::Unclosed => Step::Stop,
    }
}

fn step_at(braces: usize, bytes: &[u8]) -> Step
    requires some { 0 < length bytes.now }
    requires short { length bytes.now < 2 ^ 63 }
    requires few { braces < 2 ^ 63 }
    ensures value { result ≡ step_of braces (passage_at bytes.now) }
    ensures within { FitsIn braces bytes.now result }
{
    step_of(braces, passage_at(bytes))
}

/// Whether a word begins a procedure, where some brace is open or none.
pub fn is_procedure_word(in_braces: bool, text: &[u8]) -> bool
    ensures { result ≡ is_procedure_word in_braces text.now }
{
    !in_braces && text == b"procedure".as_slice()
}

/// How many bytes of Lua there are up to the brace that closes the first one, and with it.
pub fn procedure_len(bytes: &[u8]) -> Option<usize>
    ensures value { ClosesAfter 0 bytes.now result }
    ensures within { IfSome result (λ n. n ≤ length bytes.now) }
{
    let mut braces: usize = 0;
    let mut i = 0;
    while i < bytes.len() {
        let (_, rest) = bytes.split_at(i);
        match step_at(braces, rest) {
            Step::Last => return Some(i + 1),
            Step::Stop => return None,
            Step::Next(next, n) => {
                braces = next;
                i += n;
            }
        }
    }
    None
}
