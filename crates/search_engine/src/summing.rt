//! Constraints on sums in a search.
ghost use Rattle.std.specs.Prelude.{◌≡◌, ◌⊎◌, ◌+◌, ◌<◌, ℕ, Some, None, false, List, [], length, All, Contains, IfErr};
ghost use Rattle.std.specs.Prelude.{IfNone, IfOk, IfSome, IsTrue, OnOk};
ghost use Rattle.lit_core.specs.declared.literals.Lit.{Lit};
ghost use Rattle.lit_core.specs.Literals.{value_in};
ghost use Rattle.lit_core.specs.Truth.{IsUnitAt};
ghost use Rattle.clause_store.specs.StoreState.{IsQuiet};
ghost use Rattle.ground_core.specs.Problems.{AreLitsOf};
ghost use Rattle.ground_core.specs.Solving.{Answers};
ghost use Rattle.sum_ledger.specs.Asking.{IsImplied};
ghost use Rattle.search_decisions.specs.Scores.{HaveValues};
ghost use Rattle.search_engine.specs.Searching.{AdvanceGives, AheadAt, AreQuietSums, AreTrue, Continues, HaltsAt};
ghost use Rattle.search_engine.specs.Searching.{HasRoom, HoldsWhereDecided, IsExplained, IsSearch, IsTurn, TurnEnds};

use crate::bounding::may_hold;
use crate::engine::Engine;
use crate::passing::hold_passing;
use crate::searching::{Outcome, values_of};
use ground_core::{Halt, Memory, Verdict};
use lit_core::{Assignment, ClauseList, Lit};
use sum_ledger::first_implied;

/// The first literal that has no value.
fn first_open(values: &Assignment, lits: &[Lit]) -> Option<Lit>
    requires { All (λ l. l.var.0 < length values.now) lits.now }
    ensures some { IfSome result (λ l. Contains lits.now l) }
    ensures open { IfSome result (λ l. value_in values.now l ≡ None) }
    ensures none { IfNone result (All (λ l. value_in values.now l ≡ None → ⊥) lits.now) }
{
    for lit in lits {
        match values.value(*lit) {
            None => return Some(*lit),
            Some(_) => {}
        }
    }
    None
}

/// Whether this is the literal, or one that is false.
fn is_or_false(values: &Assignment, other: Lit, lit: Lit) -> bool
    requires { other.var.0 < length values.now }
    ensures { IsTrue result → (other ≡ lit) ⊎ (value_in values.now other ≡ Some false) }
{
    if other == lit {
        return true;
    }
    !may_hold(values, other)
}

/// Whether the literals but this one are false.
fn are_others_false(values: &Assignment, lits: &[Lit], lit: Lit) -> bool
    requires { All (λ l. l.var.0 < length values.now) lits.now }
    ensures { IsTrue result → All (λ m. (m ≡ lit) ⊎ (value_in values.now m ≡ Some false)) lits.now }
{
    for other in lits {
        if !is_or_false(values, *other, lit) {
            return false;
        }
    }
    true
}

/// The one literal of the clause that is left, where the others are false.
fn left_of(values: &Assignment, clause: &[Lit]) -> Option<Lit>
    requires { All (λ l. l.var.0 < length values.now) clause.now }
    ensures { IfSome result (IsUnitAt values.now clause.now) }
{
    match first_open(values, clause) {
        Some(lit) => {
            if are_others_false(values, clause, lit) {
                return Some(lit);
            }
            None
        }
        None => None,
    }
}

impl Engine {
    /// Holds a clause that a constraint implies; where it is false learns from it, and else makes true the literal that
    /// is left.
    fn follow(&mut self, clause: &[Lit], most: Option<u64>) -> Result<Outcome, Memory>
        requires search { IsSearch self.old }
        requires implied { IsImplied self.old.problem.sums self.old.store.trail.values clause.now }
        requires unrefuted { self.old.root_conflicts ≡ 0 }
        requires ahead { AheadAt self.old 0 }
        requires room { HasRoom most self.old }
        ensures search { IsSearch self.new }
        ensures same { Continues self.old self.new }
        ensures turn { (assume : List Lit) → IsTurn assume self.old → IsTurn assume self.new }
        ensures room { HasRoom most self.new }
        ensures answer { IfOk result (λ outcome. (assume : List Lit) → TurnEnds assume most self.old self.new outcome) }
    {
        let id = hold_passing(&mut self.store, &mut self.passing, clause)?;
        match first_open(self.store.assignment(), clause) {
            None => self.settle_within(id, most),
            Some(lit) => {
                self.store.assign(lit, Some(id));
                Ok(Outcome::Further)
            }
        }
    }

    /// The same, with the constraint's number stated in the log.
    fn follow_by(
        &mut self,
        number: u64,
        clause: &[Lit],
        most: Option<u64>,
    ) -> Result<Outcome, Memory>
        requires search { IsSearch self.old }
        requires implied { IsImplied self.old.problem.sums self.old.store.trail.values clause.now }
        requires unrefuted { self.old.root_conflicts ≡ 0 }
        requires ahead { AheadAt self.old 0 }
        requires room { HasRoom most self.old }
        ensures search { IsSearch self.new }
        ensures same { Continues self.old self.new }
        ensures turn { (assume : List Lit) → IsTurn assume self.old → IsTurn assume self.new }
        ensures room { HasRoom most self.new }
        ensures answer { IfOk result (λ outcome. (assume : List Lit) → TurnEnds assume most self.old self.new
            outcome) }
    {
        let id = self.store.len() as u64;
        self.log.implied(id, number, clause)?;
        self.follow(clause, most)
    }

    /// Follows the first of the clauses.
    fn follow_first(
        &mut self,
        number: u64,
        clauses: &ClauseList,
        most: Option<u64>,
    ) -> Result<Outcome, Memory>
        requires search { IsSearch self.old }
        requires implied { All (IsImplied self.old.problem.sums self.old.store.trail.values) clauses.now }
        requires some { clauses.now ≡ [] → ⊥ }
        requires unrefuted { self.old.root_conflicts ≡ 0 }
        requires ahead { AheadAt self.old 0 }
        requires room { HasRoom most self.old }
        ensures search { IsSearch self.new }
        ensures same { Continues self.old self.new }
        ensures turn { (assume : List Lit) → IsTurn assume self.old → IsTurn assume self.new }
        ensures room { HasRoom most self.new }
        ensures answer { IfOk result (λ outcome. (assume : List Lit) → TurnEnds assume most self.old self.new outcome) }
    {
        let first = clauses.clause(self.alloc, 0)?;
        self.follow_by(number, first.as_slice(), most)
    }

    /// Makes true the literal that is left of the clause at this place, if the others are false now.
    fn force_left(&mut self, number: u64, clauses: &ClauseList, place: usize) -> Result<(), Memory>
        requires search { IsSearch self.old }
        requires explained { All (IsExplained self.old.problem) clauses.now }
        requires within { place < length clauses.now }
        ensures search { IsSearch self.new }
        ensures same { Continues self.old self.new }
        ensures turn { (assume : List Lit) → IsTurn assume self.old → IsTurn assume self.new }
        ensures learnt { self.new.learnt ≡ self.old.learnt }
        ensures refuted { self.new.root_conflicts ≡ self.old.root_conflicts }
        ensures stays { OnOk result ((goal : ℕ) → AheadAt self.old goal → AheadAt self.new goal) }
    {
        let clause = clauses.clause(self.alloc, place)?;
        let lits = clause.as_slice();
        match left_of(self.store.assignment(), lits) {
            None => Ok(()),
            Some(lit) => {
                let id = self.store.len() as u64;
                self.log.implied(id, number, lits)?;
                self.force(lits, lit)
            }
        }
    }

    /// The same for each clause but the first.
    fn force_others(&mut self, number: u64, clauses: &ClauseList) -> Result<(), Memory>
        requires search { IsSearch self.old }
        requires explained { All (IsExplained self.old.problem) clauses.now }
        ensures search { IsSearch self.new }
        ensures same { Continues self.old self.new }
        ensures turn { (assume : List Lit) → IsTurn assume self.old → IsTurn assume self.new }
        ensures learnt { self.new.learnt ≡ self.old.learnt }
        ensures refuted { self.new.root_conflicts ≡ self.old.root_conflicts }
        ensures stays { OnOk result ((goal : ℕ) → AheadAt self.old goal → AheadAt self.new goal) }
    {
        for place in 1..clauses.len() {
            self.force_left(number, clauses, place)?;
        }
        Ok(())
    }

    /// Holds the clauses that a constraint implies: follows the first, and makes true what is left of the others.
    fn follow_all(
        &mut self,
        number: u64,
        clauses: &ClauseList,
        most: Option<u64>,
    ) -> Result<Outcome, Memory>
        requires search { IsSearch self.old }
        requires implied { All (IsImplied self.old.problem.sums self.old.store.trail.values) clauses.now }
        requires some { clauses.now ≡ [] → ⊥ }
        requires unrefuted { self.old.root_conflicts ≡ 0 }
        requires ahead { AheadAt self.old 0 }
        requires room { HasRoom most self.old }
        ensures search { IsSearch self.new }
        ensures same { Continues self.old self.new }
        ensures turn { (assume : List Lit) → IsTurn assume self.old → IsTurn assume self.new }
        ensures room { HasRoom most self.new }
        ensures answer { IfOk result (λ outcome. (assume : List Lit) → TurnEnds assume most self.old self.new
            outcome) }
    {
        match self.follow_first(number, clauses, most)? {
            Outcome::Further => {
                self.force_others(number, clauses)?;
                Ok(Outcome::Further)
            }
            Outcome::Answered(verdict) => Ok(Outcome::Answered(verdict)),
            Outcome::Open => Ok(Outcome::Open),
            Outcome::Spent => Ok(Outcome::Spent),
        }
    }

    /// Holds all that one of the constraints on sums implies; where they imply nothing, asks the bounds.
    ///
    /// They are asked before each assumption and each decision: what follows then has a literal that became false at
    /// the level where it follows, and the store need not watch its clauses anew.
    pub fn infer(&mut self, assume: &[Lit], most: Option<u64>) -> Result<Outcome, Memory>
        requires search { IsSearch self.old }
        requires quiet { IsQuiet self.old.store }
        requires unrefuted { self.old.root_conflicts ≡ 0 }
        requires ahead { AheadAt self.old 0 }
        requires turn { IsTurn assume.now self.old }
        requires literals { AreLitsOf self.old.problem.vars assume.now }
        requires room { HasRoom most self.old }
        ensures search { IsSearch self.new }
        ensures same { Continues self.old self.new }
        ensures turn { IsTurn assume.now self.new }
        ensures room { HasRoom most self.new }
        ensures answer { IfOk result (TurnEnds assume.now most self.old self.new) }
    {
        // What is known of the problem comes with this.
        let sums = self.problem.sums();
        match self.ledger.ask(self.alloc, sums, &self.store)? {
            None => self.infer_bounds(assume, most),
            Some(found) => {
                // Constraints are counted from 1.
                let number = found.place as u64 + 1;
                self.follow_all(number, &found.clauses, most)
            }
        }
    }

    /// The values of all variables, as the answer.
    fn answer(&mut self, assume: &[Lit], end: u64) -> Result<Verdict, Memory>
        requires search { IsSearch self.old }
        requires quiet { IsQuiet self.old.store }
        requires turn { IsTurn assume.now self.old }
        requires literals { AreLitsOf self.old.problem.vars assume.now }
        requires trues { AreTrue self.old.store.trail.values assume.now }
        requires sums { AreQuietSums self.old }
        requires bounds { HoldsWhereDecided self.old }
        requires end { end ≡ self.old.problem.vars + 1 }
        requires total { HaveValues self.old.store.trail.values 1 end }
        ensures search { IsSearch self.new }
        ensures same { Continues self.old self.new }
        ensures turn { IsTurn assume.now self.new }
        ensures learnt { self.new.learnt ≡ self.old.learnt }
        ensures answer { IfOk result (Answers self.old.problem assume.now) }
    {
        let values = values_of(self.alloc, self.store.assignment(), end)?;
        self.decider.phases.note_answer(&values);
        Ok(Verdict::Sat(values))
    }

    /// Answers the values of all variables where they satisfy the constraints on sums, and else learns from one that
    /// they do not.
    pub fn finish(
        &mut self,
        assume: &[Lit],
        end: u64,
        most: Option<u64>,
    ) -> Result<Option<Verdict>, Halt>
        requires search { IsSearch self.old }
        requires quiet { IsQuiet self.old.store }
        requires unrefuted { self.old.root_conflicts ≡ 0 }
        requires ahead { AheadAt self.old 0 }
        requires turn { IsTurn assume.now self.old }
        requires literals { AreLitsOf self.old.problem.vars assume.now }
        requires trues { AreTrue self.old.store.trail.values assume.now }
        requires bounds { HoldsWhereDecided self.old }
        requires room { HasRoom most self.old }
        requires end { end ≡ self.old.problem.vars + 1 }
        requires total { HaveValues self.old.store.trail.values 1 end }
        ensures search { IsSearch self.new }
        ensures same { Continues self.old self.new }
        ensures turn { IsTurn assume.now self.new }
        ensures room { HasRoom most self.new }
        ensures answer { IfOk result (AdvanceGives assume.now self.old self.new) }
        ensures halt { IfErr result (HaltsAt most self.new) }
    {
        let sums = self.problem.sums();
        let Ok(found) = first_implied(self.alloc, sums, self.store.assignment()) else {
            return Err(Halt::Memory);
        };
        match found {
            Some(found) => {
                let number = found.place as u64 + 1;
                let id = self.store.len() as u64;
                let noted = self.log.implied(id, number, found.clause.as_slice());
                if noted.is_err() {
                    return Err(Halt::Memory);
                }
                self.settle_broken(found.clause.as_slice(), most)
            }
            None => match self.answer(assume, end) {
                Ok(verdict) => Ok(Some(verdict)),
                Err(_) => Err(Halt::Memory),
            },
        }
    }
}
