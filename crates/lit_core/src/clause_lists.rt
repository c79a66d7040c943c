//! Many clauses, whose literals stand side by side.
ghost use Rattle.std.specs.Prelude.{◌≡◌, ◌≤◌, ◌<◌, ◌+◌, ◌^◌, ◌↔◌, ◌++◌, ◌∷◌, [], length, take, slice_get};
ghost use Rattle.std.specs.Prelude.{slice_index_or};
ghost use Rattle.std.specs.Prelude.{All, IsTrue, IfOk, OnOk, OnErr, MatchOption, Some, map, vec_capacity};

use crate::clauses::Clause;
use crate::literals::Lit;
use crate::packed::PackedLit;
use std::alloc::{AllocError as Memory, Global};
use std::marker::Model;

/// Clauses, by their places: the literals of all of them in 32 bits each, and where each clause ends. A literal that
/// has no number of 32 bits, and more than 2^32 literals, are refused as out of memory.
#[derive(Debug, Drop)]
pub struct ClauseList {
    lits: Vec<PackedLit>,
    ends: Vec<u32>,
}

impl Model for ClauseList {
    ghost use Rattle.std.specs.Prelude.{List};
    ghost use Rattle.lit_core.specs.declared.literals.Lit.{Lit};

    ghost Value = { List (List Lit) };

    ghost use Rattle.lit_core.specs.ClauseListFields.{state_of, IsKept};

    ghost view = { state_of };

    ghost invariant = { IsKept };
}

/// Adds the literals at the end, or leaves what stood there at the front.
fn add_lits(arena: &mut Vec<PackedLit>, lits: &[Lit]) -> Result<(), Memory>
    ensures ok { OnOk result (arena.new.items ≡ arena.old.items ++ lits.now) }
    ensures front { take (length arena.old.items) arena.new.items ≡ arena.old.items }
{
    for lit in lits {
        if !PackedLit::fits(*lit) {
            return Err(Memory);
        }
        arena.push(PackedLit::new(*lit))?;
    }
    Ok(())
}

/// The clause of these literals.
fn unpacked(alloc: Global, lits: &[PackedLit]) -> Result<Clause, Memory>
    ensures { IfOk result (λ c. c ≡ lits.now) }
{
    let mut clause = Clause::new(alloc);
    for lit in lits {
        clause.push(lit.lit())?;
    }
    Ok(clause)
}

/// Adds the ends of clauses that stand behind so many literals.
fn add_ends(ends: &mut Vec<u32>, more: &[u32], before: usize)
    requires room { length ends.old.items + length more.now ≤ vec_capacity ends.old }
    requires small { All (λ e. before + e < 2 ^ 32) more.now }
    ensures { ends.new.items ≡ ends.old.items ++ map (λ e. before + e) more.now }
{
    for end in more {
        ends.push_reserved(before as u32 + *end);
    }
}

/// Where the clause at this place begins.
fn start_of(ends: &[u32], place: usize) -> usize
    requires { place ≤ length ends.now }
    ensures { result ≡ slice_index_or (0 ∷ ends.now) place 0 }
{
    if place == 0 {
        0
    } else {
        ends[place - 1] as usize
    }
}

impl ClauseList {
    /// No clause.
    pub fn new(alloc: Global) -> ClauseList
        ensures { result ≡ [] }
    {
        ClauseList {
            lits: Vec::new(alloc),
            ends: Vec::new(alloc),
        }
    }

    /// The number of clauses.
    pub fn len(&self) -> usize
        ensures { result ≡ length self.now }
    {
        self.ends.len()
    }

    /// Whether there is no clause.
    pub fn is_empty(&self) -> bool
        ensures { IsTrue result ↔ (length self.now ≡ 0) }
    {
        self.ends.is_empty()
    }

    /// The literals of the clause at a place, or None past the end.
    pub fn get(&self, place: usize) -> Option<&[PackedLit]>
        ensures { MatchOption result (length self.now ≤ place) (λ c. slice_get self.now place ≡ Some c.now) }
    {
        if place >= self.ends.len() {
            return None;
        }
        let start = start_of(&self.ends, place);
        let end = self.ends[place] as usize;
        Some(&self.lits[start..end])
    }

    /// The clause at a place.
    pub fn clause(&self, alloc: Global, place: usize) -> Result<Clause, Memory>
        requires { place < length self.now }
        ensures { IfOk result (λ c. slice_get self.now place ≡ Some c) }
    {
        match self.get(place) {
            Some(lits) => unpacked(alloc, lits),
            None => unreachable!(),
        }
    }

    /// Adds a clause at the end.
    pub fn push(&mut self, lits: &[Lit]) -> Result<(), Memory>
        ensures ok { OnOk result (self.new ≡ self.old ++ lits.now ∷ []) }
        ensures err { OnErr result (self.new ≡ self.old) }
    {
        let before = self.lits.len();
        if lits.len() > u32::MAX as usize || before > u32::MAX as usize - lits.len() {
            return Err(Memory);
        }
        self.ends.reserve(1)?;
        match add_lits(&mut self.lits, lits) {
            Ok(()) => {
                self.ends.push_reserved((before + lits.len()) as u32);
                Ok(())
            }
            Err(error) => {
                self.lits.truncate(before);
                Err(error)
            }
        }
    }

    /// Keeps the first `len` clauses.
    pub fn truncate(&mut self, len: usize)
        ensures { self.new ≡ take len self.old }
    {
        if len < self.ends.len() {
            let end = start_of(&self.ends, len);
            self.ends.truncate(len);
            self.lits.truncate(end);
        }
    }

    /// Adds the clauses of another list at the end.
    pub fn append(&mut self, more: &ClauseList) -> Result<(), Memory>
        ensures ok { OnOk result (self.new ≡ self.old ++ more.now) }
        ensures err { OnErr result (self.new ≡ self.old) }
    {
        let before = self.lits.len();
        if more.lits.len() > u32::MAX as usize || before > u32::MAX as usize - more.lits.len() {
            return Err(Memory);
        }
        self.ends.reserve(more.ends.len())?;
        self.lits.extend_from_slice(more.lits.as_slice())?;
        add_ends(&mut self.ends, &more.ends, before);
        Ok(())
    }

    /// The same clauses once more.
    pub fn copy(&self, alloc: Global) -> Result<ClauseList, Memory>
        ensures { IfOk result (λ c. c ≡ self.now) }
    {
        Ok(ClauseList {
            lits: Vec::from_slice(alloc, self.lits.as_slice())?,
            ends: Vec::from_slice(alloc, self.ends.as_slice())?,
        })
    }
}
