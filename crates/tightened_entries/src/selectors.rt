//! The selectors of the bounds among some entries.
ghost use Rattle.std.specs.Prelude.{◌≡◌, [], ◌∷◌, ◌++◌, IfOk, OnOk, All, List, flat_map};
ghost use Rattle.derivation_log.specs.declared.entries.Entry.{Entry as AnEntry};
ghost use Rattle.derivation_log.specs.Lines.{entry_text};
ghost use Rattle.search_log.specs.Entries.{IsOfSearch};
ghost use Rattle.tightened_entries.specs.LastBounds.{bounds_of, is_over, last_of, selectors_of};
ghost use Rattle.tightened_entries.specs.Readings.{Reads};
ghost use Rattle.tightened_entries.specs.SelectorSets.{AreHashed};

use derivation_log::{Entry, read_entry, write_entry};
use ground_core::Memory;
use indexmap::IndexSet;
use lit_core::{Lit, Var};
use std::alloc::Global;

// Hashed as well, so that each literal is looked up once, however many bounds there are.
/// The variables of bounds' selectors.
#[derive(Drop)]
pub struct Selectors {
    /// In the order of the bounds.
    pub list: Vec<u64>,
    pub set: IndexSet<u64>,
}

impl Selectors {
    /// No selectors.
    fn new(alloc: Global) -> Selectors
        ensures hashed { AreHashed result }
        ensures empty { result.list.items ≡ [] }
    {
        Selectors {
            list: Vec::new(alloc),
            set: IndexSet::new(alloc),
        }
    }

    /// One selector more.
    fn push(&mut self, selector: Var) -> Result<(), Memory>
        requires { AreHashed self.old }
        ensures hashed { OnOk result (AreHashed self.new) }
        ensures list { OnOk result (self.new.list.items ≡ self.old.list.items ++ selector.0 ∷ []) }
    {
        self.set.insert_full(selector.0)?;
        self.list.push(selector.0)?;
        Ok(())
    }

    /// Whether the literal is one of a selector.
    pub fn has(&self, lit: Lit) -> bool
        requires { AreHashed self.now }
        ensures { result ≡ is_over self.now.list.items lit }
    {
        self.set.contains(&lit.var.0)
    }

    /// The last one, 0 where there is none.
    pub fn last(&self) -> u64
        ensures { result ≡ last_of self.now.list.items }
    {
        match self.list.last() {
            Some(selector) => *selector,
            None => 0,
        }
    }

    /// Takes note of an entry, and appends it where it is a bound. An entry that no search writes is refused: a search
    /// has none, so nobody meets that end.
    fn note(&mut self, text: &mut Vec<u8>, entry: Entry) -> Result<(), Memory>
        requires { AreHashed self.old }
        ensures hashed { OnOk result (AreHashed self.new) }
        ensures list { OnOk result (self.new.list.items ≡ self.old.list.items ++ selectors_of (entry ∷ [])) }
        ensures text { OnOk result (text.new.items
            ≡ text.old.items ++ flat_map entry_text (bounds_of (entry ∷ []))) }
        ensures search { OnOk result (IsOfSearch entry) }
    {
        match &entry {
            Entry::Bound(selector, _, _) => {
                self.push(*selector)?;
                write_entry(text, &entry)
            }
            Entry::Learnt(_, _) => Ok(()),
            Entry::Sum(_, _) => Ok(()),
            Entry::Exclude(_, _) => Ok(()),
            Entry::Mark(_) => Err(Memory),
            Entry::Inconsistent(_, _) => Err(Memory),
            Entry::Forced(_, _, _) => Err(Memory),
            Entry::Least(_, _, _, _) => Err(Memory),
        }
    }
}

/// The selectors of the bounds among the entries; the bounds are appended to the text.
pub fn selectors_of(alloc: Global, entries: &[u8], text: &mut Vec<u8>) -> Result<Selectors, Memory>
    ensures hashed { IfOk result AreHashed }
    ensures read { IfOk result (λ found. (es : List AnEntry) × All IsOfSearch es × Reads entries.now es
        × (found.list.items ≡ selectors_of es)
        × (text.new.items ≡ text.old.items ++ flat_map entry_text (bounds_of es))) }
{
    let mut found = Selectors::new(alloc);
    let mut at = 0;
    while at < entries.len() {
        let Ok((entry, next)) = read_entry(alloc, entries, at) else {
            return Err(Memory);
        };
        found.note(text, entry)?;
        at = next;
    }
    Ok(found)
}
