//! A log that a search writes.
ghost use Rattle.std.specs.Prelude.{◌≡◌, ◌+◌, ◌<◌, ℕ, length, take, slice_index_or, IfOk, OnOk, OnErr};
ghost use Rattle.std.specs.Bool.{OnFalse, OnTrue};
ghost use Rattle.derivation_log.specs.declared.entries.Entry.TheVariants as entry;
ghost use Rattle.search_log.specs.Entries.{AreEntries, Grows, IsOfSearch};
ghost use Rattle.search_log.specs.Logs.{Bears, Begins, Stays, cleared, forgotten, no_log, number_of, numbers_of};
ghost use Rattle.search_log.specs.Logs.{refuted, with_entry, with_refutation};

use crate::numbers::{copied, make_place, negations, number_at};
use derivation_log::{Entry, NumberList, write_entry};
use ground_core::Memory;
use kb_logic::ExtInt;
use lit_core::{Lit, Var};
use std::alloc::Global;
use std::marker::Model;

/// What a solver states while it searches, as entries of a derivation log; nothing where no log is kept.
///
/// A clause has the next number where an entry bears it, and keeps it. An entry is written before its clause is pushed
/// to the store, so no hint names a clause that has no entry.
#[derive(Drop)]
pub struct SearchLog {
    alloc: Global,
    is_on: bool,
    /// For each clause of the store its number in the log, or 0.
    numbers: Vec<u64>,
    /// How many clauses have numbers.
    borne: u64,
    /// The number of the empty clause, or 0.
    empty: u64,
    /// The number of the clause that says why the last search found no values, or 0.
    refutation: u64,
    text: Vec<u8>,
}

impl Model for SearchLog {
    ghost use Rattle.search_log.specs.Logs.{LogState};

    ghost Value = { LogState };

    ghost use Rattle.search_log.specs.LogFields.{state_of, IsLog};

    ghost view = { state_of };

    ghost invariant = { IsLog };
}

/// Where a log stands.
#[derive(Clone, Copy)]
pub struct LogMark {
    pub len: usize,
    pub borne: u64,
}

impl SearchLog {
    /// Keeps nothing.
    pub fn new(alloc: Global) -> SearchLog
        ensures { result ≡ no_log }
    {
        SearchLog {
            alloc,
            is_on: false,
            numbers: Vec::new(alloc),
            borne: 0,
            empty: 0,
            refutation: 0,
            text: Vec::new(alloc),
        }
    }

    /// Keeps a log from now on, in which the first clauses of the store have the first numbers.
    pub fn begin(&mut self, count: usize) -> Result<(), Memory>
        ensures ok { OnOk result (Begins self.old count self.new) }
        ensures err { OnErr result (self.new ≡ self.old) }
        ensures same { self.new.entries ≡ self.old.entries }
    {
        let numbers = first_numbers(self.alloc, count)?;
        self.numbers = numbers;
        self.is_on = true;
        self.borne = count as u64;
        self.empty = 0;
        self.refutation = 0;
        Ok(())
    }

    /// Whether a log is kept.
    pub fn is_kept(&self) -> bool
        ensures { result ≡ self.now.on }
    {
        self.is_on
    }

    /// The numbers of these clauses, but of those that have none.
    fn numbers_of(&self, ids: &[u64]) -> Result<NumberList, Memory>
        ensures { IfOk result (λ list. list ≡ numbers_of self.now ids.now) }
    {
        let mut list = NumberList::new(self.alloc);
        for id in ids {
            let number = number_at(self.numbers.as_slice(), *id as usize);
            if number == 0 {
                continue;
            }
            list.push(number)?;
        }
        Ok(list)
    }

    /// Writes an entry that bears no clause.
    fn write(&mut self, entry: &Entry) -> Result<(), Memory>
        requires { IsOfSearch entry.now }
        ensures ok { OnOk result (self.new ≡ with_entry self.old entry.now) }
        ensures err { OnErr result (self.new ≡ self.old) }
        ensures grows { Grows self.old.entries self.new.entries }
    {
        write_entry(&mut self.text, entry)
    }

    /// Writes an entry, by which the clause with this place in the store gets the next number.
    fn bear(&mut self, id: u64, entry: &Entry) -> Result<(), Memory>
        requires { IsOfSearch entry.now }
        ensures ok { OnOk result (Bears self.old id entry.now self.new) }
        ensures err { OnErr result (Stays self.old self.new) }
        ensures grows { Grows self.old.entries self.new.entries }
    {
        let Some(next) = self.borne.checked_add(1) else {
            return Err(Memory);
        };
        let place = id as usize;
        make_place(&mut self.numbers, place)?;
        self.write(entry)?;
        self.numbers[place] = next;
        self.borne = next;
        Ok(())
    }

    /// `l`: a clause was learnt, which follows in order from the clauses with these places in the store.
    pub fn learnt(&mut self, id: u64, clause: &[Lit], hints: &[u64]) -> Result<(), Memory>
        ensures off { OnFalse self.old.on (self.new ≡ self.old) }
        ensures on { OnTrue self.old.on (OnOk result (Bears self.old id
            (entry.Learnt clause.now (numbers_of self.old hints.now)) self.new)) }
        ensures err { OnErr result (Stays self.old self.new) }
        ensures grows { Grows self.old.entries self.new.entries }
    {
        if !self.is_on {
            return Ok(());
        }
        let entry = Entry::Learnt(copied(self.alloc, clause)?, self.numbers_of(hints)?);
        self.bear(id, &entry)
    }

    /// `c`: the constraint of this number implies the clause.
    pub fn implied(&mut self, id: u64, constraint: u64, clause: &[Lit]) -> Result<(), Memory>
        ensures off { OnFalse self.old.on (self.new ≡ self.old) }
        ensures on { OnTrue self.old.on (OnOk result (Bears self.old id
            (entry.Sum constraint clause.now) self.new)) }
        ensures err { OnErr result (Stays self.old self.new) }
        ensures grows { Grows self.old.entries self.new.entries }
    {
        if !self.is_on {
            return Ok(());
        }
        let entry = Entry::Sum(constraint, copied(self.alloc, clause)?);
        self.bear(id, &entry)
    }

    /// `n`: where the new variable is true, the clause is.
    pub fn exclude(&mut self, id: u64, out: Var, clause: &[Lit]) -> Result<(), Memory>
        ensures off { OnFalse self.old.on (self.new ≡ self.old) }
        ensures on { OnTrue self.old.on (OnOk result (Bears self.old id
            (entry.Exclude out clause.now) self.new)) }
        ensures err { OnErr result (Stays self.old self.new) }
        ensures grows { Grows self.old.entries self.new.entries }
    {
        if !self.is_on {
            return Ok(());
        }
        let entry = Entry::Exclude(out, copied(self.alloc, clause)?);
        self.bear(id, &entry)
    }

    /// `b`: the new variable is true where the term is below the number. Terms are counted from 0 here.
    pub fn bound(&mut self, out: Var, term: u32, below: ExtInt) -> Result<(), Memory>
        ensures off { OnFalse self.old.on (self.new ≡ self.old) }
        ensures on { OnTrue self.old.on (OnOk result (self.new
            ≡ with_entry self.old (entry.Bound out (term + 1) below))) }
        ensures err { OnErr result (self.new ≡ self.old) }
        ensures grows { Grows self.old.entries self.new.entries }
    {
        if !self.is_on {
            return Ok(());
        }
        let Some(number) = term.checked_add(1) else {
            return Err(Memory);
        };
        self.write(&Entry::Bound(out, number, below))
    }

    /// Writes that the negation of the core follows, which is why there are no values.
    fn write_refutation(&mut self, core: &[Lit], hints: &[u64]) -> Result<(), Memory>
        ensures ok { OnOk result (self.new ≡ with_refutation self.old core.now hints.now) }
        ensures err { OnErr result (self.new ≡ self.old) }
        ensures grows { Grows self.old.entries self.new.entries }
    {
        let Some(next) = self.borne.checked_add(1) else {
            return Err(Memory);
        };
        let entry = Entry::Learnt(negations(self.alloc, core)?, self.numbers_of(hints)?);
        self.write(&entry)?;
        self.borne = next;
        self.refutation = next;
        if core.is_empty() {
            self.empty = next;
        }
        Ok(())
    }

    /// `l`: nothing makes the literals of the core true, as follows in order from the clauses with these places in the
    /// store. There are none where the core has a literal with its negation; then nothing is written.
    pub fn refute(&mut self, core: &[Lit], hints: &[u64]) -> Result<(), Memory>
        ensures off { OnFalse self.old.on (self.new ≡ self.old) }
        ensures on { OnTrue self.old.on (OnOk result (self.new ≡ refuted self.old core.now hints.now)) }
        ensures err { OnErr result (self.new ≡ self.old) }
        ensures grows { Grows self.old.entries self.new.entries }
    {
        if !self.is_on {
            return Ok(());
        }
        if hints.is_empty() {
            self.refutation = 0;
            return Ok(());
        }
        if core.is_empty() && self.empty != 0 {
            self.refutation = self.empty;
            return Ok(());
        }
        self.write_refutation(core, hints)
    }

    /// The number of the clause that says why the last search found no values, or 0.
    pub fn refutation(&self) -> u64
        ensures { result ≡ self.now.refutation }
    {
        self.refutation
    }

    /// Gives up the number of the empty clause, as what was learnt is given up.
    pub fn forget(&mut self)
        ensures { self.new ≡ forgotten self.old }
    {
        self.empty = 0;
    }

    /// The bytes of the entries.
    pub fn entries(&self) -> &[u8]
        ensures value { result.now ≡ self.now.entries }
        ensures texts { AreEntries self.now.entries }
    {
        self.text.as_slice()
    }

    /// Takes the entries away. Numbers go on.
    pub fn clear(&mut self)
        ensures { self.new ≡ cleared self.old }
    {
        self.text.clear();
    }

    /// Where the log stands.
    pub fn mark(&self) -> LogMark
        ensures len { result.len ≡ length self.now.entries }
        ensures borne { result.borne ≡ self.now.borne }
        ensures texts { AreEntries self.now.entries }
    {
        LogMark {
            len: self.text.len(),
            borne: self.borne,
        }
    }

    /// Takes away the entries that were written since then, for what they say did not come about.
    pub fn back_to(&mut self, mark: LogMark)
        requires { AreEntries (take mark.len self.old.entries) }
        ensures entries { self.new.entries ≡ take mark.len self.old.entries }
        ensures borne { self.new.borne ≡ mark.borne }
    {
        self.text.truncate(mark.len);
        self.borne = mark.borne;
    }
}

/// The numbers from 1 on.
fn first_numbers(alloc: Global, count: usize) -> Result<Vec<u64>, Memory>
    ensures size { IfOk result (λ list. length list.items ≡ count) }
    ensures each { IfOk result (λ list. (id : ℕ) → id < count → slice_index_or list.items id 0 ≡ id + 1) }
{
    let mut list = Vec::new(alloc);
    for place in 0..count {
        list.push(place as u64 + 1)?;
    }
    Ok(list)
}
