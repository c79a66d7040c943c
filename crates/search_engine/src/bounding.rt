//! What bounds on terms force, in a search.
ghost use Rattle.std.specs.Prelude.{◌≡◌, ◌+◌, ◌∷◌, ◌<◌, ℕ, Some, None, false, List, length, All, IfOk, IsTrue, OnOk};
ghost use Rattle.lit_core.specs.declared.literals.Lit.{Lit};
ghost use Rattle.lit_core.specs.Literals.{value_in};
ghost use Rattle.lit_core.specs.Truth.{IsFalsified, IsUnitAt};
ghost use Rattle.clause_store.specs.StoreState.{IsQuiet};
ghost use Rattle.ground_core.specs.Problems.{AreLitsOf};
ghost use Rattle.term_bounds.specs.Implying.{IsImpliedAt};
ghost use Rattle.search_engine.specs.Searching.{AheadAt, AreExplained, Continues, HasRoom, IsExplained, IsSearch};
ghost use Rattle.search_engine.specs.Searching.{IsTurn, TurnEnds};

use crate::engine::Engine;
use crate::passing::hold_passing;
use crate::searching::Outcome;
use ground_core::Memory;
use lit_core::{Assignment, Lit};
use std::alloc::Global;
use term_bounds::{Implication, implied};

/// The clause of a literal and these others.
fn with_first(alloc: Global, lit: Lit, others: &[Lit]) -> Result<Vec<Lit>, Memory>
    ensures { IfOk result (λ c. c.items ≡ lit ∷ others.now) }
{
    let mut clause = Vec::new(alloc);
    clause.push(lit)?;
    clause.extend_from_slice(others)?;
    Ok(clause)
}

/// Whether the literal is true or has no value.
pub fn may_hold(values: &Assignment, lit: Lit) -> bool
    requires { lit.var.0 < length values.now }
    ensures { result ≡ false → value_in values.now lit ≡ Some false }
{
    values.value(lit) != Some(false)
}

/// Whether all of the literals are false.
fn are_false(values: &Assignment, lits: &[Lit]) -> bool
    requires { All (λ l. l.var.0 < length values.now) lits.now }
    ensures { IsTrue result → All (λ l. value_in values.now l ≡ Some false) lits.now }
{
    for lit in lits {
        if may_hold(values, *lit) {
            return false;
        }
    }
    true
}

impl Engine {
    /// Holds a clause that a constraint implies and of which this literal is left, and makes it true.
    pub fn force(&mut self, clause: &[Lit], lit: Lit) -> Result<(), Memory>
        requires search { IsSearch self.old }
        requires explained { IsExplained self.old.problem clause.now }
        requires unit { IsUnitAt self.old.store.trail.values clause.now lit }
        ensures search { IsSearch self.new }
        ensures same { Continues self.old self.new }
        ensures turn { (assume : List Lit) → IsTurn assume self.old → IsTurn assume self.new }
        ensures learnt { self.new.learnt ≡ self.old.learnt }
        ensures refuted { self.new.root_conflicts ≡ self.old.root_conflicts }
        ensures ahead { OnOk result ((goal : ℕ) → AheadAt self.old goal → AheadAt self.new (goal + 1)) }
    {
        let id = hold_passing(&mut self.store, &mut self.passing, clause)?;
        self.store.assign(lit, Some(id));
        Ok(())
    }

    /// Makes a literal true by the reasons. The constraint's number is stated in the log.
    fn force_by(&mut self, number: u64, reasons: &[Lit], lit: Lit) -> Result<(), Memory>
        requires search { IsSearch self.old }
        requires explained { IsExplained self.old.problem (lit ∷ reasons.now) }
        requires unset { value_in self.old.store.trail.values lit ≡ None }
        requires falsified { IsFalsified self.old.store.trail.values reasons.now }
        ensures search { IsSearch self.new }
        ensures same { Continues self.old self.new }
        ensures turn { (assume : List Lit) → IsTurn assume self.old → IsTurn assume self.new }
        ensures learnt { self.new.learnt ≡ self.old.learnt }
        ensures refuted { self.new.root_conflicts ≡ self.old.root_conflicts }
        ensures ahead { OnOk result ((goal : ℕ) → AheadAt self.old goal → AheadAt self.new (goal + 1)) }
    {
        let clause = with_first(self.alloc, lit, reasons)?;
        let lits = clause.as_slice();
        let id = self.store.len() as u64;
        self.log.implied(id, number, lits)?;
        self.force(lits, lit)
    }

    /// The same where the literal has no value, and the reasons are still false.
    fn force_if_left(&mut self, number: u64, reasons: &[Lit], lit: Lit) -> Result<(), Memory>
        requires search { IsSearch self.old }
        requires explained { IsExplained self.old.problem (lit ∷ reasons.now) }
        ensures search { IsSearch self.new }
        ensures same { Continues self.old self.new }
        ensures turn { (assume : List Lit) → IsTurn assume self.old → IsTurn assume self.new }
        ensures learnt { self.new.learnt ≡ self.old.learnt }
        ensures refuted { self.new.root_conflicts ≡ self.old.root_conflicts }
        ensures stays { OnOk result ((goal : ℕ) → AheadAt self.old goal → AheadAt self.new goal) }
    {
        if self.store.assignment().value(lit).is_some() {
            return Ok(());
        }
        if !are_false(self.store.assignment(), reasons) {
            return Ok(());
        }
        self.force_by(number, reasons, lit)
    }

    /// The same for each of the literals.
    fn force_each(&mut self, number: u64, reasons: &[Lit], lits: &[Lit]) -> Result<(), Memory>
        requires search { IsSearch self.old }
        requires explained { AreExplained self.old.problem reasons.now lits.now }
        ensures search { IsSearch self.new }
        ensures same { Continues self.old self.new }
        ensures turn { (assume : List Lit) → IsTurn assume self.old → IsTurn assume self.new }
        ensures learnt { self.new.learnt ≡ self.old.learnt }
        ensures refuted { self.new.root_conflicts ≡ self.old.root_conflicts }
        ensures stays { OnOk result ((goal : ℕ) → AheadAt self.old goal → AheadAt self.new goal) }
    {
        for lit in lits {
            self.force_if_left(number, reasons, *lit)?;
        }
        Ok(())
    }

    /// Makes the literals true that a bound forces; where there are none, assumes further.
    fn follow_bound(
        &mut self,
        number: u64,
        found: &Implication,
        assume: &[Lit],
        most: Option<u64>,
    ) -> Result<Outcome, Memory>
        requires search { IsSearch self.old }
        requires quiet { IsQuiet self.old.store }
        requires unrefuted { self.old.root_conflicts ≡ 0 }
        requires turn { IsTurn assume.now self.old }
        requires literals { AreLitsOf self.old.problem.vars assume.now }
        requires room { HasRoom most self.old }
        requires implied { IsImpliedAt self.old.problem.terms self.old.problem.bounds self.old.store.trail.values
            found.now.place found.now.reasons.items found.now.lits.items }
        ensures search { IsSearch self.new }
        ensures same { Continues self.old self.new }
        ensures turn { IsTurn assume.now self.new }
        ensures room { HasRoom most self.new }
        ensures answer { IfOk result (TurnEnds assume.now most self.old self.new) }
    {
        let reasons = found.reasons.as_slice();
        let lits = found.lits.as_slice();
        match lits.get(0) {
            None => self.advance(assume),
            Some(first) => {
                self.force_by(number, reasons, *first)?;
                self.force_each(number, reasons, lits)?;
                Ok(Outcome::Further)
            }
        }
    }

    /// Makes true what the bounds force; where they force nothing, assumes further.
    ///
    /// They are asked before each assumption and each decision, as the constraints on sums are.
    pub fn infer_bounds(&mut self, assume: &[Lit], most: Option<u64>) -> Result<Outcome, Memory>
        requires search { IsSearch self.old }
        requires quiet { IsQuiet self.old.store }
        requires unrefuted { self.old.root_conflicts ≡ 0 }
        requires turn { IsTurn assume.now self.old }
        requires literals { AreLitsOf self.old.problem.vars assume.now }
        requires room { HasRoom most self.old }
        ensures search { IsSearch self.new }
        ensures same { Continues self.old self.new }
        ensures turn { IsTurn assume.now self.new }
        ensures room { HasRoom most self.new }
        ensures answer { IfOk result (TurnEnds assume.now most self.old self.new) }
    {
        let terms = self.problem.terms();
        let bounds = self.problem.bounds();
        // Constraints are counted from 1: those on sums, and then the bounds.
        let sum_count = self.problem.sums().len() as u64;
        match implied(self.alloc, terms, bounds, self.store.assignment())? {
            None => self.advance(assume),
            Some(found) => {
                let number = sum_count + found.place as u64 + 1;
                self.follow_bound(number, &found, assume, most)
            }
        }
    }
}
