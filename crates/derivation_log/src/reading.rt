//! An entry, read from its text.
ghost use Rattle.std.specs.Prelude.{◌≡◌, ◌<◌, ◌+◌, ◌≤◌, ◌↔◌, IsTrue, IfOk, IfErr, length, take, drop, All};
ghost use Rattle.derivation_log.specs.Texts.{IsNumber, IsTerm, IsLiteral, IsHint, IsBelow, IsWritten};
ghost use Rattle.derivation_log.specs.Readings.{IsEntryAt, RefusedAt};

use crate::building::entry_of;
use crate::entries::Entry;
use crate::scans::scan;
use crate::writing::write_entry;
use ground_core::Memory;
use kb_logic::ExtInt;
use lit_core::Lit;
use std::alloc::Global;

/// Why no entry was read.
#[derive(Clone, Copy, Debug, PartialEq, Eq)]
pub enum EntryError {
    /// No text of an entry begins there.
    NotAnEntry,
    /// There was not enough memory.
    Memory,
}

/// Whether the number has a field: every number of 64 bits does.
fn is_number(n: u64) -> bool
    ensures { IsTrue result × IsNumber n }
{
    true
}

/// Whether the number of a term has a field.
fn is_term(n: u32) -> bool
    ensures { IsTrue result × IsTerm n }
{
    true
}

/// Whether the number can be a hint: 0 ends a list of hints.
fn is_hint(n: u64) -> bool
    ensures { IsTrue result ↔ IsHint n }
{
    n != 0
}

/// Whether the literal has a field: 0 ends a list of literals.
fn is_literal(lit: Lit) -> bool
    ensures { IsTrue result ↔ IsLiteral lit }
{
    lit.var.0 != 0
}

/// Whether all of the literals have fields.
fn are_literals(lits: &[Lit]) -> bool
    ensures { IsTrue result ↔ All IsLiteral lits.now }
{
    for lit in lits {
        if !is_literal(*lit) {
            return false;
        }
    }
    true
}

/// Whether all of the numbers can be hints.
fn are_hints(hints: &[u64]) -> bool
    ensures { IsTrue result ↔ All IsHint hints.now }
{
    for hint in hints {
        if !is_hint(*hint) {
            return false;
        }
    }
    true
}

/// Whether the bound has a field.
fn is_below(k: ExtInt) -> bool
    ensures { IsTrue result ↔ IsBelow k }
{
    match k {
        ExtInt::NegInf => false,
        ExtInt::Num(_) => true,
        ExtInt::PosInf => true,
    }
}

/// Whether the entry has a text.
fn is_written(e: &Entry) -> bool
    ensures { IsTrue result ↔ IsWritten e.now }
{
    match e {
        Entry::Mark(n) => is_number(*n),
        Entry::Learnt(lits, hints) => {
            are_literals(lits.as_slice()) && are_hints(hints.as_slice())
        }
        Entry::Sum(n, lits) => is_number(*n) && are_literals(lits.as_slice()),
        Entry::Bound(s, t, k) => is_number(s.0) && is_term(*t) && is_below(*k),
        Entry::Exclude(s, lits) => is_number(s.0) && are_literals(lits.as_slice()),
        Entry::Inconsistent(lits, c) => are_literals(lits.as_slice()) && is_number(*c),
        Entry::Forced(l, lits, c) => {
            is_literal(*l) && are_literals(lits.as_slice()) && is_number(*c)
        }
        Entry::Least(t, k, lits, c) => {
            is_term(*t) && is_below(*k) && are_literals(lits.as_slice()) && is_number(*c)
        }
    }
}

/// Whether the bytes begin with the text.
fn begins_with(bytes: &[u8], text: &[u8]) -> bool
    ensures { IsTrue result ↔ (take (length text.now) bytes.now ≡ text.now) }
{
    if bytes.len() < text.len() {
        return false;
    }
    bytes.split_at(text.len()).0 == text
}

/// The entry whose text begins at `at`, and where it ends.
///
/// The line is read with no check, what was read is written again, and it is an entry if that text stands there. So no
/// rule of the format is checked by itself (single spaces, no leading zeros, numbers within their types), and a text
/// that is read is one that `write_entry` writes.
pub fn read_entry(alloc: Global, bytes: &[u8], at: usize) -> Result<(Entry, usize), EntryError>
    requires { at < length bytes.now }
    ensures ok { IfOk result (λ r. IsEntryAt bytes.now at r.0 r.1) }
    ensures err { IfErr result (RefusedAt bytes.now at) }
{
    let rest = bytes.split_at(at).1;
    let Ok(fields) = scan(alloc, rest) else {
        return Err(EntryError::Memory);
    };
    let Ok(e) = entry_of(alloc, fields.as_slice()) else {
        return Err(EntryError::Memory);
    };
    if !is_written(&e) {
        return Err(EntryError::NotAnEntry);
    }
    let mut text = Vec::new(alloc);
    if write_entry(&mut text, &e).is_err() {
        return Err(EntryError::Memory);
    }
    if !begins_with(rest, text.as_slice()) {
        return Err(EntryError::NotAnEntry);
    }
    Ok((e, at + text.len()))
}
