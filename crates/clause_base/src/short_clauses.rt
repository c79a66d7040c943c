//! Clauses of two to four literals, listed once under each of their literals.
//!
//! The other literals stand in the list itself. So a walk along the clauses of a literal that became false reads one
//! array in order, and looks at no clause; nothing in the lists changes on the way, and nothing when steps are taken
//! back. The number of the clause and three others take sixteen bytes; longer clauses are watched.
ghost use Rattle.std.specs.Prelude.{◌≡◌, ℕ, ◌+◌, ◌^◌, ◌<◌, ◌≤◌, [], length, List, OnOk, Some, Option, slice_get};
ghost use Rattle.lit_core.specs.declared.literals.Lit.{Lit};
ghost use Rattle.lit_core.specs.Packing.{number_of};
ghost use Rattle.clause_base.specs.ShortState.{IsPacked, HaveLists};
ghost use Rattle.clause_base.specs.ShortFields.{IsLonger, StaysPacked, lists_of};

use crate::clause_db::ClauseDb;
use crate::occurrences::Occurrence;
use crate::packing::{add_clause, count, list_of, make_room, short_clause};
use lit_core::{Lit, Memory};
use std::alloc::Global;
use std::marker::Model;

/// How many occurrences are listed at most, which take some 32 MiB: ten million short clauses must not take a third
/// more memory than they do unlisted.
const MOST: usize = 2_097_152;

/// The short clauses of each literal.
#[derive(Debug, Drop)]
pub struct ShortClauses {
    lists: Vec<Vec<Occurrence>>,
    /// The short clauses below this number are listed.
    packed: usize,
    /// How many occurrences may still be listed.
    left: usize,
    alloc: Global,
}

impl Model for ShortClauses {
    ghost use Rattle.clause_base.specs.ShortState.{ShortState};

    ghost Value = { ShortState };

    ghost use Rattle.clause_base.specs.ShortFields.{state_of};

    ghost view = { state_of };
}

/// Adds empty lists, so that there are at least `count`.
fn add_empty(lists: &mut Vec<Vec<Occurrence>>, count: usize, alloc: Global) -> Result<(), Memory>
    ensures kept { IsLonger (lists_of lists.old) (lists_of lists.new) }
    ensures enough { OnOk result (count ≤ length lists.new.items) }
{
    while lists.len() < count {
        lists.push(Vec::new(alloc))?;
    }
    Ok(())
}

impl ShortClauses {
    /// No list.
    pub fn new(alloc: Global) -> ShortClauses
        ensures { result ≡ record { lists = []; packed = 0 } }
    {
        ShortClauses {
            lists: Vec::new(alloc),
            packed: 0,
            left: MOST,
            alloc,
        }
    }

    /// Adds empty lists, so that there are at least `count`.
    pub fn add_lists(&mut self, count: usize) -> Result<(), Memory>
        ensures kept { (clauses : List (Option (List Lit))) (vars : ℕ) → IsPacked clauses vars self.old
            → IsPacked clauses vars self.new }
        ensures packed { self.new.packed ≡ self.old.packed }
        ensures longer { length self.old.lists ≤ length self.new.lists }
        ensures enough { OnOk result (count ≤ length self.new.lists) }
    {
        add_empty(&mut self.lists, count, self.alloc)
    }

    /// As `add_lists` where a clause is listed. Else no list is needed, and those of a million variables take 64 MiB.
    pub fn grow_lists(&mut self, count: usize) -> Result<(), Memory>
        ensures kept { (clauses : List (Option (List Lit))) (vars : ℕ) → IsPacked clauses vars self.old
            → IsPacked clauses vars self.new }
        ensures packed { self.new.packed ≡ self.old.packed }
        ensures longer { length self.old.lists ≤ length self.new.lists }
        ensures enough { OnOk result (0 < self.old.packed → count ≤ length self.new.lists) }
    {
        if self.packed == 0 {
            return Ok(());
        }
        self.add_lists(count)
    }

    /// The short clauses below this number are listed.
    pub fn packed(&self) -> usize
        ensures { result ≡ self.now.packed }
    {
        self.packed
    }

    /// The short clauses of a literal.
    pub fn of(&self, lit: Lit) -> &[Occurrence]
        requires { number_of lit < length self.now.lists }
        ensures { slice_get self.now.lists (number_of lit) ≡ Some result.now }
    {
        self.lists[list_of(lit)].as_slice()
    }

    /// Lists the clause with the number `packed`, if it is short.
    fn pack_next(&mut self, held: &ClauseDb) -> Result<(), Memory>
        requires within { self.old.packed < length held.now.clauses }
        requires small { self.old.packed < 2 ^ 32 }
        requires lists { HaveLists (length self.old.lists) held.now.clauses }
        ensures kept { StaysPacked held.now.clauses self.old self.new }
        ensures lists { length self.new.lists ≡ length self.old.lists }
        ensures packed { OnOk result (self.new.packed ≡ self.old.packed + 1) }
    {
        let Some(lits) = short_clause(held, self.packed) else {
            self.packed += 1;
            return Ok(());
        };
        add_clause(&mut self.lists, self.packed as u32, lits)?;
        self.packed += 1;
        Ok(())
    }

    /// Lists the short clauses from `packed` on, as far as there is room. Where memory runs out in the midst, those
    /// below `packed` are listed whole, and what else is listed does no harm.
    pub fn pack(&mut self, held: &ClauseDb) -> Result<(), Memory>
        requires { HaveLists (length self.old.lists) held.now.clauses }
        ensures kept { StaysPacked held.now.clauses self.old self.new }
        ensures lists { length self.new.lists ≡ length self.old.lists }
    {
        let mut counts = Vec::new(self.alloc);
        counts.resize(self.lists.len(), 0)?;
        let plan = count(&mut counts, held, self.packed, self.left);
        make_room(&mut self.lists, counts.as_slice())?;
        self.left = plan.left;
        while self.packed < plan.end {
            self.pack_next(held)?;
        }
        Ok(())
    }
}
