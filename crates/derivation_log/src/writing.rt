//! The text of an entry.
ghost use Rattle.std.specs.Prelude.{◌≡◌, ◌++◌, OnOk, OnErr};
ghost use Rattle.std.specs.Fmt.{decimal};
ghost use Rattle.kb_logic.specs.Decimals.{decimal_text};
ghost use Rattle.derivation_log.specs.Lines.{literal_text, literals_text, numbers_text, body_text, entry_text};

use crate::entries::Entry;
use ground_core::{LitList, Memory};
use itoa::Buffer;
use kb_logic::ExtInt;
use lit_core::Lit;

/// Appends the bytes.
fn push_bytes(out: &mut Vec<u8>, bytes: &[u8]) -> Result<(), Memory>
    ensures { OnOk result (out.new.items ≡ out.old.items ++ bytes.now) }
{
    out.extend_from_slice(bytes)?;
    Ok(())
}

/// Appends the number in decimal digits.
fn push_number(out: &mut Vec<u8>, n: u64) -> Result<(), Memory>
    ensures { OnOk result (out.new.items ≡ out.old.items ++ decimal n) }
{
    let mut buffer = Buffer::new();
    push_bytes(out, buffer.format(n).as_bytes())
}

/// Appends a literal as its variable, with a minus where it is negated.
fn push_literal(out: &mut Vec<u8>, lit: Lit) -> Result<(), Memory>
    ensures { OnOk result (out.new.items ≡ out.old.items ++ literal_text lit) }
{
    if !lit.positive {
        push_bytes(out, b"-")?;
    }
    push_number(out, lit.var.0)
}

/// Appends the literals and 0.
fn push_literals(out: &mut Vec<u8>, lits: &LitList) -> Result<(), Memory>
    ensures { OnOk result (out.new.items ≡ out.old.items ++ literals_text lits.now) }
{
    for lit in lits.as_slice() {
        push_literal(out, *lit)?;
        push_bytes(out, b" ")?;
    }
    push_bytes(out, b"0")
}

/// Appends the numbers and 0.
fn push_numbers(out: &mut Vec<u8>, numbers: &[u64]) -> Result<(), Memory>
    ensures { OnOk result (out.new.items ≡ out.old.items ++ numbers_text numbers.now) }
{
    for n in numbers {
        push_number(out, *n)?;
        push_bytes(out, b" ")?;
    }
    push_bytes(out, b"0")
}

/// Appends the line but for its newline.
fn push_body(out: &mut Vec<u8>, e: &Entry) -> Result<(), Memory>
    ensures { OnOk result (out.new.items ≡ out.old.items ++ body_text e.now) }
{
    match e {
        Entry::Mark(n) => {
            push_bytes(out, b"q ")?;
            push_number(out, *n)
        }
        Entry::Learnt(lits, hints) => {
            push_bytes(out, b"l ")?;
            push_literals(out, lits)?;
            push_bytes(out, b" ")?;
            push_numbers(out, hints.as_slice())
        }
        Entry::Sum(n, lits) => {
            push_bytes(out, b"c ")?;
            push_number(out, *n)?;
            push_bytes(out, b" ")?;
            push_literals(out, lits)
        }
        Entry::Bound(s, t, k) => {
            push_bytes(out, b"b ")?;
            push_number(out, s.0)?;
            push_bytes(out, b" ")?;
            push_number(out, u64::from(*t))?;
            push_bytes(out, b" ")?;
            push_below(out, *k)
        }
        Entry::Exclude(s, lits) => {
            push_bytes(out, b"n ")?;
            push_number(out, s.0)?;
            push_bytes(out, b" ")?;
            push_literals(out, lits)
        }
        Entry::Inconsistent(lits, c) => {
            push_bytes(out, b"i ")?;
            push_literals(out, lits)?;
            push_bytes(out, b" ")?;
            push_number(out, *c)
        }
        Entry::Forced(l, lits, c) => {
            push_bytes(out, b"f ")?;
            push_literal(out, *l)?;
            push_bytes(out, b" ")?;
            push_literals(out, lits)?;
            push_bytes(out, b" ")?;
            push_number(out, *c)
        }
        Entry::Least(t, k, lits, c) => {
            push_bytes(out, b"m ")?;
            push_number(out, u64::from(*t))?;
            push_bytes(out, b" ")?;
            push_below(out, *k)?;
            push_bytes(out, b" ")?;
            push_literals(out, lits)?;
            push_bytes(out, b" ")?;
            push_number(out, *c)
        }
    }
}

/// Appends the line.
fn push_entry(out: &mut Vec<u8>, e: &Entry) -> Result<(), Memory>
    ensures { OnOk result (out.new.items ≡ out.old.items ++ entry_text e.now) }
{
    push_body(out, e)?;
    push_bytes(out, b"\n")
}

/// Appends the bound, which may be infinite.
fn push_below(out: &mut Vec<u8>, k: ExtInt) -> Result<(), Memory>
    ensures { OnOk result (out.new.items ≡ out.old.items ++ decimal_text k) }
{
    match kb_logic::decimal(out, k) {
        Ok(()) => Ok(()),
        Err(_) => Err(Memory),
    }
}

/// Appends the entry's text. Where memory runs out, all is as before.
pub fn write_entry(out: &mut Vec<u8>, e: &Entry) -> Result<(), Memory>
    ensures ok { OnOk result (out.new.items ≡ out.old.items ++ entry_text e.now) }
    ensures err { OnErr result (out.new.items ≡ out.old.items) }
{
    // Written beside what is there, and added in one piece: half a line never stands in a log.
    let mut text = Vec::new(*out.allocator());
    push_entry(&mut text, e)?;
    out.extend_from_slice(&text)?;
    Ok(())
}
