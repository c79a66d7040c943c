//! Scores of variables, and lists of those that may be decided.
ghost use Rattle.std.specs.Prelude.{◌≡◌, ◌↔◌, ℕ, ◌≤◌, ◌<◌, ◌+◌, [], ◌∷◌, length, IsTrue, OnOk};
ghost use Rattle.lit_core.specs.declared.literals.Lit.{Lit};
ghost use Rattle.search_decisions.specs.Scores.{AreListed, Raises, score_of};

use crate::phases::{grow_counts, is_open};
use ground_core::Memory;
use lit_core::{Assignment, Lit, PackedLit, Var};
use std::alloc::Global;

/// How many conflicts had each variable in their clause, and the list that was made last.
///
/// The two lists are kept from decision to decision, so that a list takes memory only where it is
/// longer than any before.
#[derive(Drop)]
pub struct Scores {
    /// For each variable how many conflicts had it in their clause.
    pub scores: Vec<u64>,
    /// The numbers of the listed variables.
    pub open: Vec<u64>,
    /// Their scores, in the same order.
    pub listed: Vec<u64>,
}

impl Scores {
    /// No conflict was met.
    pub fn new(alloc: Global) -> Scores
        ensures { result.scores.items ≡ [] }
    {
        Scores {
            scores: Vec::new(alloc),
            open: Vec::new(alloc),
            listed: Vec::new(alloc),
        }
    }

    /// Makes room for so many variables.
    pub fn reserve(&mut self, len: usize) -> Result<(), Memory>
        ensures room { OnOk result (len ≤ length self.new.scores.items) }
        ensures kept { (v : ℕ) → score_of self.new.scores.items v ≡ score_of self.old.scores.items v }
    {
        grow_counts(&mut self.scores, len)
    }

    /// The score of a variable.
    pub fn score(&self, number: u64) -> u64
        ensures { result ≡ score_of self.now.scores.items number }
    {
        match self.scores.get(number as usize) {
            Some(score) => *score,
            None => 0,
        }
    }

    /// Lists the variable of this number, if it is unassigned.
    fn list_next(&mut self, assignment: &Assignment, number: u64) -> Result<(), Memory>
        requires { number < length assignment.now }
        ensures lists { OnOk result ((from : ℕ) → from ≤ number → AreListed self.old.scores.items assignment.now from
            number self.old.open.items self.old.listed.items → AreListed self.old.scores.items assignment.now from
            (number + 1) self.new.open.items self.new.listed.items) }
        ensures scores { self.new.scores ≡ self.old.scores }
    {
        if is_open(assignment, Var(number)) {
            let score = self.score(number);
            self.listed.push(score)?;
            self.open.push(number)?;
        }
        Ok(())
    }

    /// Lists all unassigned variables from a number on and below another.
    pub fn list(&mut self, assignment: &Assignment, from: u64, end: u64) -> Result<(), Memory>
        requires some { from ≤ end }
        requires end { end ≤ length assignment.now }
        ensures lists { OnOk result (AreListed self.old.scores.items assignment.now from end self.new.open.items
            self.new.listed.items) }
        ensures scores { self.new.scores ≡ self.old.scores }
    {
        self.open.clear();
        self.listed.clear();
        for number in from..end {
            self.list_next(assignment, number)?;
        }
        Ok(())
    }

    /// Whether nothing is listed.
    pub fn is_empty(&self) -> bool
        ensures { IsTrue result ↔ (length self.now.listed.items ≡ 0) }
    {
        self.listed.len() == 0
    }

    /// Raises the score of a variable by 1, up to the greatest number of 64 bits.
    fn raise_one(&mut self, number: usize)
        ensures raises { (lit : Lit) → lit.var.0 ≡ number → Raises (lit ∷ []) self.old.scores.items
            self.new.scores.items }
    {
        if number < self.scores.len() {
            self.scores[number] = self.scores[number].saturating_add(1);
        }
    }

    /// Raises the scores of the variables of a conflict's clause.
    pub fn raise(&mut self, lits: &[PackedLit])
        ensures { Raises lits.now self.old.scores.items self.new.scores.items }
    {
        for lit in lits {
            self.raise_one(lit.lit().var.0 as usize);
        }
    }
}
