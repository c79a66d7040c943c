//! The clause database: the literals of all clauses stand in one arena, one clause after another.
//!
//! A clause is described by an entry of sixteen bytes, so that four of them fill a cache line, and its literals stand
//! side by side, in 32 bits each. A push of literals that are not in order sorts them in a buffer, which keeps its
//! memory from push to push.
ghost use Rattle.std.specs.Prelude.{◌≡◌, ℕ, ◌<◌, ◌≤◌, ◌+◌, ◌*◌, ◌^◌, ◌++◌, ◌∷◌, [], length, max, Some, None, Option};
ghost use Rattle.std.specs.Prelude.{List, IfSome, IsOk, IsTrue, OnOk, OnErr, MatchOption, ◌↔◌, slice_get, slice_set};
ghost use Rattle.std.specs.Prelude.{All, vec_capacity};
ghost use Rattle.lit_core.specs.declared.literals.Lit.{Lit};
ghost use Rattle.lit_core.specs.Literals.{HasEachOnce};
ghost use Rattle.lit_core.specs.Packing.{Fits};
ghost use Rattle.clause_base.specs.ClauseDbFields.{AreRemoved, EndsAt, HaveSkips};
ghost use Rattle.clause_base.specs.StoreState.{IsEachOnceOf};

use lit_core::{Lit, Memory, PackedLit};
use smallvec::SmallVec;
use std::alloc::Global;
use std::marker::Model;

/// Where a clause stands in the arena.
#[derive(Clone, Copy, Debug)]
struct Entry {
    start: u32,
    /// One more than the number of its literals, or 0 where it was removed.
    size: u32,
    /// Where a search for another literal to watch begins, for each of its two watches. Any number is right there.
    ///
    /// Where the clause was removed, `first` is the skip: so many entries just before this one are of removed clauses
    /// too. It may be less than there are, and 0 says nothing.
    first: u32,
    second: u32,
}

/// The clauses that are held, by their numbers.
#[derive(Debug, Drop)]
pub struct ClauseDb {
    /// The literals of the clauses.
    lits: Vec<PackedLit>,
    entries: Vec<Entry>,
    /// Room in which the literals of the next clause are sorted.
    buffer: SmallVec<Lit, 3>,
    /// The length of a clause for which there is room.
    spare: Option<usize>,
    /// The clauses from this number on were all removed.
    live: usize,
}

impl Model for ClauseDb {
    ghost use Rattle.clause_base.specs.ClauseDbState.{ClauseDbState};

    ghost Value = { ClauseDbState };

    ghost use Rattle.clause_base.specs.ClauseDbFields.{state_of, IsKept};

    ghost view = { state_of };

    ghost invariant = { IsKept };
}

/// Writes the literals into the empty buffer, which has room for them.
fn fill(buffer: &mut SmallVec<Lit, 3>, lits: &[Lit])
    requires empty { buffer.old.items ≡ [] }
    requires room { length lits.now ≤ buffer.old.capacity }
    ensures items { buffer.new.items ≡ lits.now }
    ensures capacity { buffer.new.capacity ≡ buffer.old.capacity }
{
    for lit in lits {
        buffer.push_reserved(*lit);
    }
}

/// Sorts the literals, and keeps each once.
fn sort_once(buffer: &mut SmallVec<Lit, 3>)
    ensures once { IsEachOnceOf buffer.old.items buffer.new.items }
    ensures shorter { length buffer.new.items ≤ length buffer.old.items }
    ensures capacity { buffer.new.capacity ≡ buffer.old.capacity }
{
    buffer.sort_unstable();
    buffer.dedup();
}

/// Adds the literals at the end of the arena, which has room for them.
fn append(arena: &mut Vec<PackedLit>, lits: &[Lit])
    requires fits { All Fits lits.now }
    requires room { length arena.old.items + length lits.now ≤ vec_capacity arena.old }
    ensures items { arena.new.items ≡ arena.old.items ++ lits.now }
    ensures capacity { vec_capacity arena.new ≡ vec_capacity arena.old }
{
    for lit in lits {
        arena.push_reserved(PackedLit::new(*lit));
    }
}

/// Whether each literal's variable is below that of the next one.
fn is_rising(lits: &[Lit]) -> bool
    ensures { IsTrue result → HasEachOnce lits.now }
{
    for place in 1..lits.len() {
        if lits[place - 1].var.0 >= lits[place].var.0 {
            return false;
        }
    }
    true
}

/// Adds the literals, each once and in order, at the end of the arena, which has room for them, as the empty buffer
/// has.
///
/// Literals that are in order, as those mostly are that a bound on a sum implies, are written as they come: to sort
/// some hundred of them takes longer than all else that a push does.
fn append_once(arena: &mut Vec<PackedLit>, buffer: &mut SmallVec<Lit, 3>, lits: &[Lit])
    requires empty { buffer.old.items ≡ [] }
    requires fits { All Fits lits.now }
    requires buffer { length lits.now ≤ buffer.old.capacity }
    requires room { length arena.old.items + length lits.now ≤ vec_capacity arena.old }
    ensures once { (c : List Lit) × IsEachOnceOf lits.now c × (arena.new.items ≡ arena.old.items ++ c) }
    ensures longer { length arena.old.items ≤ length arena.new.items }
    ensures within { length arena.new.items ≤ length arena.old.items + length lits.now }
    ensures empty { buffer.new.items ≡ [] }
{
    if is_rising(lits) {
        append(arena, lits);
        return;
    }
    fill(buffer, lits);
    sort_once(buffer);
    append(arena, buffer.as_slice());
    buffer.clear();
}

/// The entry with another place for the search at this node.
fn moved(entry: Entry, node: usize, place: usize) -> Entry
    requires { place < 2 ^ 32 }
    ensures { (result.start ≡ entry.start) × (result.size ≡ entry.size) }
{
    if node % 2 == 0 {
        Entry {
            first: place as u32,
            ..entry
        }
    } else {
        Entry {
            second: place as u32,
            ..entry
        }
    }
}

/// How many entries there are up to the last that is not removed, where all from `live` on are. Of a gap whose skip was
/// written one entry is looked at.
fn live_of(entries: &[Entry], live: usize) -> usize
    requires within { live ≤ length entries.now }
    requires removed { AreRemoved entries.now live }
    requires skips { HaveSkips entries.now }
    ensures within { result ≤ length entries.now }
    ensures removed { AreRemoved entries.now result }
{
    let mut at = live;
    while at > 0 {
        let last = entries[at - 1];
        if last.size != 0 {
            return at;
        }
        at = (at - 1).saturating_sub(last.first as usize);
    }
    0
}

/// Where the last of these entries ends.
fn end_of(entries: &[Entry], live: usize) -> usize
    requires { live ≤ length entries.now }
    ensures { EndsAt entries.now live result }
{
    if live == 0 {
        return 0;
    }
    let last = entries[live - 1];
    last.start as usize + (last.size as usize).saturating_sub(1)
}

impl ClauseDb {
    /// No clause.
    pub fn new(alloc: Global) -> ClauseDb
        ensures { result ≡ record { clauses = []; spare = 0 } }
    {
        ClauseDb {
            lits: Vec::new(alloc),
            entries: Vec::new(alloc),
            buffer: SmallVec::new(alloc),
            spare: None,
            live: 0,
        }
    }

    /// How many clauses were ever pushed.
    pub fn len(&self) -> usize
        ensures { result ≡ length self.now.clauses }
    {
        self.entries.len()
    }

    /// How many clauses there are up to the last that is held: all after it were removed.
    pub fn live(&self) -> usize
        ensures within { result ≤ length self.now.clauses }
        ensures removed { (id : ℕ) (c : List Lit) → result ≤ id → slice_get self.now.clauses id ≡ Some (Some c) → ⊥ }
    {
        self.live
    }

    /// Whether there is room for a clause of this length.
    pub fn has_room(&self, len: usize) -> bool
        ensures { IsTrue result ↔ (len < self.now.spare) }
    {
        match self.spare {
            Some(spare) => len <= spare,
            None => false,
        }
    }

    /// Makes room for a clause of this length.
    pub fn reserve(&mut self, len: usize) -> Result<(), Memory>
        ensures ok { OnOk result (self.new ≡ record {
          clauses = self.old.clauses;
          spare =
              max self.old.spare (len + 1);
        }) }
        ensures err { OnErr result (self.new ≡ self.old) }
        ensures clauses { self.new.clauses ≡ self.old.clauses }
        ensures room { len < self.old.spare → IsOk result }
    {
        if self.has_room(len) {
            return Ok(());
        }
        if len >= u32::MAX as usize || self.lits.len() >= u32::MAX as usize - len {
            return Err(Memory);
        }
        self.entries.reserve(1)?;
        self.lits.reserve(len)?;
        self.buffer.reserve(len)?;
        self.spare = Some(len);
        Ok(())
    }

    /// Writes the skip of the last entry, where its clause was removed, before another one is added.
    ///
    /// Searches push clauses and give them back, one search after another. Without the skip each of them would, as it
    /// gives back the first that it pushed, walk over all that the searches before it gave back.
    fn note_gap(&mut self)
        ensures { self.new ≡ self.old }
    {
        if self.live == self.entries.len() {
            return;
        }
        let last = self.entries.len() - 1;
        let skip = (last - self.live).min(u32::MAX as usize);
        let entry = self.entries[last];
        self.entries[last] = Entry {
            first: skip as u32,
            ..entry
        };
    }

    /// Adds the clause of these literals, for which there is room.
    pub fn push(&mut self, lits: &[Lit])
        requires room { length lits.now < self.old.spare }
        requires fits { All Fits lits.now }
        ensures { (c : List Lit) × IsEachOnceOf lits.now c × (self.new ≡ record {
          clauses =
              self.old.clauses ++ Some c ∷ [];
          spare = 0;
        }) }
    {
        self.note_gap();
        let start = self.lits.len() as u32;
        append_once(&mut self.lits, &mut self.buffer, lits);
        let size = self.lits.len() as u32 - start + 1;
        self.entries.push_reserved(Entry {
            start,
            size,
            first: 0,
            second: 0,
        });
        self.spare = None;
        self.live = self.entries.len();
    }

    /// The literals of a held clause, or None where it was removed.
    pub fn get(&self, id: usize) -> Option<&[PackedLit]>
        requires { id < length self.now.clauses }
        ensures clause { MatchOption result (slice_get self.now.clauses id ≡ Some None)
            (λ c. slice_get self.now.clauses id ≡ Some (Some c.now)) }
        ensures small { IfSome result (λ c. length c.now < 2 ^ 32) }
    {
        let entry = self.entries[id];
        if entry.size == 0 {
            return None;
        }
        let start = entry.start as usize;
        let end = start + (entry.size as usize - 1);
        Some(&self.lits[start..end])
    }

    /// The literals of a held clause.
    pub fn lend(&self, id: u64) -> &[PackedLit]
        requires { (c : List Lit) × (slice_get self.now.clauses id ≡ Some (Some c)) }
        ensures { slice_get self.now.clauses id ≡ Some (Some result.now) }
    {
        match self.get(id as usize) {
            Some(lits) => lits,
            None => unreachable!(),
        }
    }

    /// Where a search for another literal to watch begins. Clause n has the nodes 2n and 2n + 1, one for each watch.
    pub fn place(&self, node: usize) -> usize
        requires { node < 2 * length self.now.clauses }
    {
        let entry = self.entries[node / 2];
        if node % 2 == 0 {
            entry.first as usize
        } else {
            entry.second as usize
        }
    }

    /// Remembers where the next search at this node begins, if the clause is held: a removed one has its skip there.
    pub fn set_place(&mut self, node: usize, place: usize)
        requires node { node < 2 * length self.old.clauses }
        requires place { place < 2 ^ 32 }
        ensures { self.new ≡ self.old }
    {
        let entry = self.entries[node / 2];
        if entry.size == 0 {
            return;
        }
        self.entries[node / 2] = moved(entry, node, place);
    }

    /// Removes a clause. The arena ends with the last clause that is held, so that what was pushed last and is removed,
    /// in whatever order, leaves no literal there.
    pub fn remove(&mut self, id: u64)
        requires { id < length self.old.clauses }
        ensures { self.new ≡ record { clauses = slice_set self.old.clauses id None; spare = self.old.spare } }
    {
        let entry = self.entries[id as usize];
        self.entries[id as usize] = Entry {
            size: 0,
            first: 0,
            ..entry
        };
        self.live = live_of(self.entries.as_slice(), self.live);
        let end = end_of(self.entries.as_slice(), self.live);
        self.lits.truncate(end);
    }
}
