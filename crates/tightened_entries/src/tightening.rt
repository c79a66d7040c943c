//! Entries under the last of their bounds.
ghost use Rattle.std.specs.Prelude.{◌≡◌, ◌++◌, ◌∷◌, [], IfOk, OnOk, All, List, flat_map, length, map};
ghost use Rattle.derivation_log.specs.declared.entries.Entry.{Entry as AnEntry};
ghost use Rattle.derivation_log.specs.Lines.{entry_text};
ghost use Rattle.derivation_log.specs.Texts.{IsWritten};
ghost use Rattle.search_log.specs.Entries.{AreEntries, IsOfSearch};
ghost use Rattle.tightened_entries.specs.LastBounds.{bounds_of, is_bound, number_under, others, selectors_of};
ghost use Rattle.tightened_entries.specs.LastBounds.{tightened, under};
ghost use Rattle.tightened_entries.specs.Readings.{Reads};
ghost use Rattle.tightened_entries.specs.SelectorSets.{AreHashed};

use crate::literals::literals_under;
use crate::selectors::{Selectors, selectors_of};
use derivation_log::{Entry, read_entry, write_entry};
use ground_core::Memory;
use std::alloc::Global;

/// Whether the entry is a bound.
fn is_bound(entry: &Entry) -> bool
    ensures { result ≡ is_bound entry.now }
{
    match entry {
        Entry::Bound(_, _, _) => true,
        Entry::Mark(_) => false,
        Entry::Learnt(_, _) => false,
        Entry::Sum(_, _) => false,
        Entry::Exclude(_, _) => false,
        Entry::Inconsistent(_, _) => false,
        Entry::Forced(_, _, _) => false,
        Entry::Least(_, _, _, _) => false,
    }
}

/// The number of the last of `count` bounds in place of each one's, where `before` constraints come before them.
fn number_under(before: u64, count: usize, number: u64) -> Result<u64, Memory>
    ensures { IfOk result (λ n. n ≡ number_under before count number) }
{
    let Some(last) = before.checked_add(count as u64) else {
        return Err(Memory);
    };
    if number > before && number <= last {
        Ok(last)
    } else {
        Ok(number)
    }
}

/// The entry with the last bound in place of each.
fn under(alloc: Global, before: u64, selectors: &Selectors, entry: Entry) -> Result<Entry, Memory>
    requires { AreHashed selectors.now }
    ensures { IfOk result (λ e. e ≡ under before selectors.now.list.items entry) }
{
    match entry {
        Entry::Mark(n) => Ok(Entry::Mark(n)),
        Entry::Learnt(lits, hints) => {
            Ok(Entry::Learnt(literals_under(alloc, selectors, &lits)?, hints))
        }
        Entry::Sum(n, lits) => Ok(Entry::Sum(
            number_under(before, selectors.list.len(), n)?,
            literals_under(alloc, selectors, &lits)?,
        )),
        Entry::Bound(s, t, k) => Ok(Entry::Bound(s, t, k)),
        Entry::Exclude(s, lits) => Ok(Entry::Exclude(s, literals_under(alloc, selectors, &lits)?)),
        Entry::Inconsistent(lits, c) => {
            Ok(Entry::Inconsistent(literals_under(alloc, selectors, &lits)?, c))
        }
        Entry::Forced(l, lits, c) => {
            Ok(Entry::Forced(l, literals_under(alloc, selectors, &lits)?, c))
        }
        Entry::Least(t, k, lits, c) => {
            Ok(Entry::Least(t, k, literals_under(alloc, selectors, &lits)?, c))
        }
    }
}

/// Appends the entry under the last bound, where it is no bound.
fn push_under(
    text: &mut Vec<u8>,
    alloc: Global,
    before: u64,
    selectors: &Selectors,
    entry: Entry,
) -> Result<(), Memory>
    requires { AreHashed selectors.now }
    ensures { OnOk result (text.new.items
        ≡ text.old.items ++ flat_map entry_text (map (under before selectors.now.list.items) (others (entry ∷ [])))) }
{
    if is_bound(&entry) {
        return Ok(());
    }
    let tight = under(alloc, before, selectors, entry)?;
    write_entry(text, &tight)
}

/// Appends the entries that are no bounds under the last bound.
fn push_others(
    text: &mut Vec<u8>,
    alloc: Global,
    before: u64,
    selectors: &Selectors,
    entries: &[u8],
) -> Result<(), Memory>
    requires { AreHashed selectors.now }
    ensures { OnOk result ((es : List AnEntry) × Reads entries.now es × (text.new.items
        ≡ text.old.items ++ flat_map entry_text (map (under before selectors.now.list.items) (others es)))) }
{
    let mut at = 0;
    while at < entries.len() {
        let Ok((entry, next)) = read_entry(alloc, entries, at) else {
            return Err(Memory);
        };
        push_under(text, alloc, before, selectors, entry)?;
        at = next;
    }
    Ok(())
}

/// Goes on from the text of the bounds to that of all entries under the last one.
fn complete(
    text: &mut Vec<u8>,
    alloc: Global,
    before: u64,
    selectors: &Selectors,
    entries: &[u8],
) -> Result<(), Memory>
    requires { AreHashed selectors.now }
    ensures { OnOk result ((es : List AnEntry) → Reads entries.now es → selectors.now.list.items ≡ selectors_of es
        → text.old.items ≡ flat_map entry_text (bounds_of es)
        → text.new.items ≡ flat_map entry_text (tightened before es)) }
{
    if selectors.list.len() < 2 {
        text.clear();
        text.extend_from_slice(entries)?;
        return Ok(());
    }
    push_others(text, alloc, before, selectors, entries)
}

/// The entries of a search for a least value, with its bounds first and all that was derived under one of them derived
/// under the last. `constraints` is how many constraints the log had before them. The same bytes where there are less
/// than two bounds.
pub fn under_last_bound(alloc: Global, entries: &[u8], constraints: u64) -> Result<Vec<u8>, Memory>
    requires texts { AreEntries entries.now }
    ensures texts { IfOk result (λ text. AreEntries text.items) }
    ensures tightened { IfOk result (λ text. (es : List AnEntry) × All IsWritten es × All IsOfSearch es
        × (entries.now ≡ flat_map entry_text es)
        × (text.items ≡ flat_map entry_text (tightened constraints es))) }
{
    let mut text = Vec::new(alloc);
    let selectors = selectors_of(alloc, entries, &mut text)?;
    complete(&mut text, alloc, constraints, &selectors, entries)?;
    Ok(text)
}
