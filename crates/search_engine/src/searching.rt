//! The search for a valuation under assumptions.
ghost use Rattle.std.specs.Prelude.{◌≡◌, ◌≢◌, ℕ, ◌≤◌, ◌<◌, ◌+◌, ◌-◌, ◌^◌, Some, true, false, None, List, length, take};
ghost use Rattle.std.specs.Prelude.{All, Contains, slice_get, IfOk, IfErr, OnOk, IfSome, IsSome, IsTrue};
ghost use Rattle.lit_core.specs.declared.literals.Lit.{Lit};
ghost use Rattle.lit_core.specs.Literals.{value_in};
ghost use Rattle.lit_core.specs.Truth.{IsFalsified};
ghost use Rattle.clause_store.specs.StoreState.{IsConflict, IsQuiet, IsStore};
ghost use Rattle.ground_core.specs.Problems.{AreLitsOf};
ghost use Rattle.ground_core.specs.Solving.{Answers, counted};
ghost use Rattle.search_engine.specs.Resting.{IsBegun, IsResting, KeepsProblem};
ghost use Rattle.search_engine.specs.Searching.{AdvanceGives, AheadAt, AreTrue, Continues, GivesValues, HaltsAt};
ghost use Rattle.search_engine.specs.Searching.{HasRoom, HoldsWhereDecided, IsExplained, IsSearch, IsTurn};
ghost use Rattle.search_engine.specs.Searching.{LearnsNow, OutcomeGives};
ghost use Rattle.search_engine.specs.Searching.{StandsAt, TurnEnds};
ghost use Rattle.search_decisions.specs.Scores.{HaveValues};

use crate::cores::core_of;
use crate::engine::Engine;
use crate::noting::note_refuted;
use crate::passing::{give_back, hold_passing};
use chooser::Choose;
use clause_store::Store;
use conflict_analysis::final_core;
use ground_core::{Halt, Memory, Verdict};
use kb_logic::ListOf;
use lit_core::{Assignment, Lit, Values, Var};
use std::alloc::Global;
use term_bounds::broken;

/// The place of the first assumption from `from` on that is not true, or their number.
fn first_untrue(store: &Store, assume: &[Lit], from: usize) -> usize
    requires laws { IsStore store.now }
    requires in_range { All (λ l. l.var.0 < length store.now.trail.values) assume.now }
    ensures trues { AreTrue store.now.trail.values (take from assume.now) → AreTrue store.now.trail.values
        (take result assume.now) }
    ensures untrue { (l : Lit) → slice_get assume.now result ≡ Some l → value_in store.now.trail.values l ≢ Some true }
{
    for place in from..assume.len() {
        if store.assignment().value(assume[place]) != Some(true) {
            return place;
        }
    }
    assume.len()
}

/// The values of the variables below `end`, and false for 0.
pub fn values_of(alloc: Global, assignment: &Assignment, end: u64) -> Result<Values, Memory>
    requires some { 1 ≤ end }
    requires end { end ≤ length assignment.now }
    requires total { HaveValues assignment.now 1 end }
    ensures { IfOk result (λ values. GivesValues assignment.now end values) }
{
    let mut values = Vec::new(alloc);
    values.push(false)?;
    for number in 1..end {
        let lit = Lit {
            var: Var(number),
            positive: true,
        };
        values.push(assignment.value(lit) == Some(true))?;
    }
    Ok(Values::from_vec(values))
}

/// What a turn of a search came to.
#[derive(Drop)]
pub enum Outcome {
    /// The search is over.
    Answered(Verdict),
    /// The search has gone further.
    Further,
    /// What is assumed is true, and nothing follows: a variable is to be decided.
    Open,
    /// A clause was to be learnt, and as many are as may be.
    Spent,
}

/// Whether the list is as long as it may be.
fn is_full(len: usize, most: Option<u64>) -> bool
    ensures full { IsTrue result → IfSome most (λ m. m ≤ len) × IsSome most }
    ensures room { result ≡ false → IfSome most (λ m. len < m) }
{
    match most {
        Some(most) => most <= len as u64,
        None => false,
    }
}

impl Engine {
    /// Decides an assumption that is not true, or finds why it is false.
    fn assume_next(&mut self, assume: &[Lit], lit: Lit) -> Result<Outcome, Memory>
        requires search { IsSearch self.old }
        requires quiet { IsQuiet self.old.store }
        requires unrefuted { self.old.root_conflicts ≡ 0 }
        requires turn { IsTurn assume.now self.old }
        requires literals { AreLitsOf self.old.problem.vars assume.now }
        requires assumed { Contains assume.now lit }
        requires untrue { value_in self.old.store.trail.values lit ≢ Some true }
        ensures search { IsSearch self.new }
        ensures same { Continues self.old self.new }
        ensures turn { IsTurn assume.now self.new }
        ensures answer { IfOk result (OutcomeGives assume.now self.old self.new) }
        ensures learnt { self.new.learnt ≡ self.old.learnt }
    {
        if self.store.assignment().value(lit).is_none() {
            self.store.assign(lit, None);
            return Ok(Outcome::Further);
        }
        let refuted = final_core(self.alloc, &self.store, lit)?;
        let core = core_of(self.alloc, assume, lit, &refuted.lits)?;
        self.log.refute(core.as_slice(), &refuted.hints)?;
        Ok(Outcome::Answered(Verdict::Unsat(core)))
    }

    /// Decides a variable; where all have values, answers these, or learns from a constraint that does not hold.
    fn decide_next<C: Choose>(
        &mut self,
        rule: &C,
        assume: &[Lit],
        most: Option<u64>,
    ) -> Result<Option<Verdict>, Halt>
        requires search { IsSearch self.old }
        requires quiet { IsQuiet self.old.store }
        requires unrefuted { self.old.root_conflicts ≡ 0 }
        requires ahead { AheadAt self.old 0 }
        requires turn { IsTurn assume.now self.old }
        requires literals { AreLitsOf self.old.problem.vars assume.now }
        requires trues { AreTrue self.old.store.trail.values assume.now }
        requires bounds { HoldsWhereDecided self.old }
        requires room { HasRoom most self.old }
        ensures search { IsSearch self.new }
        ensures same { Continues self.old self.new }
        ensures turn { IsTurn assume.now self.new }
        ensures room { HasRoom most self.new }
        ensures answer { IfOk result (AdvanceGives assume.now self.old self.new) }
        ensures halt { IfErr result (HaltsAt most self.new) }
    {
        // So the sum below fits.
        let _count = self.store.assignment().len();
        let end = self.problem.vars() + 1;
        // Where no value was seen less, the sign goes another way in each search, and every 32 conflicts of one:
        // without restarts some searches stuck to the signs of a bad start, and with this they ended.
        let salt = self.searches.wrapping_add(self.conflicts / 32);
        match self
            .decider
            .next_decision(rule, &self.problem, &self.store, end, salt)
        {
            Ok(Some(lit)) => {
                self.store.assign(lit, None);
                Ok(None)
            }
            Ok(None) => self.finish(assume, end, most),
            Err(_) => Err(Halt::Memory),
        }
    }

    /// Decides what is assumed in its order, up to where all of it is true.
    pub fn advance(&mut self, assume: &[Lit]) -> Result<Outcome, Memory>
        requires search { IsSearch self.old }
        requires quiet { IsQuiet self.old.store }
        requires unrefuted { self.old.root_conflicts ≡ 0 }
        requires turn { IsTurn assume.now self.old }
        requires literals { AreLitsOf self.old.problem.vars assume.now }
        ensures search { IsSearch self.new }
        ensures same { Continues self.old self.new }
        ensures turn { IsTurn assume.now self.new }
        ensures answer { IfOk result (OutcomeGives assume.now self.old self.new) }
        ensures learnt { self.new.learnt ≡ self.old.learnt }
    {
        self.assumed = first_untrue(&self.store, assume, self.assumed);
        match assume.get(self.assumed) {
            Some(lit) => self.assume_next(assume, *lit),
            None => Ok(Outcome::Open),
        }
    }

    /// Learns from a conflict, where one more clause may be learnt.
    pub fn settle_within(&mut self, conflict: u64, most: Option<u64>) -> Result<Outcome, Memory>
        requires search { IsSearch self.old }
        requires conflict { IsConflict self.old.store conflict }
        requires unrefuted { self.old.root_conflicts ≡ 0 }
        requires stands { StandsAt self.old 0 }
        requires room { HasRoom most self.old }
        ensures search { IsSearch self.new }
        ensures same { Continues self.old self.new }
        ensures turn { (assume : List Lit) → IsTurn assume self.old → IsTurn assume self.new }
        ensures room { HasRoom most self.new }
        ensures answer { IfOk result (λ outcome. (assume : List Lit) → TurnEnds assume most self.old self.new outcome) }
    {
        if is_full(self.learnt.len(), most) {
            return Ok(Outcome::Spent);
        }
        if self.settle(conflict)? {
            Ok(Outcome::Further)
        } else {
            Ok(Outcome::Answered(Verdict::Unsat(ListOf::new(self.alloc))))
        }
    }

    /// Holds a clause that a constraint implies and that is false, and learns from it, where one more clause may be
    /// learnt.
    pub fn settle_broken(
        &mut self,
        clause: &[Lit],
        most: Option<u64>,
    ) -> Result<Option<Verdict>, Halt>
        requires search { IsSearch self.old }
        requires explained { IsExplained self.old.problem clause.now }
        requires falsified { IsFalsified self.old.store.trail.values clause.now }
        requires unrefuted { self.old.root_conflicts ≡ 0 }
        requires ahead { AheadAt self.old 0 }
        requires room { HasRoom most self.old }
        ensures search { IsSearch self.new }
        ensures same { Continues self.old self.new }
        ensures turn { (assume : List Lit) → IsTurn assume self.old → IsTurn assume self.new }
        ensures room { HasRoom most self.new }
        ensures answer { IfOk result (λ verdict. (assume : List Lit) → AdvanceGives assume self.old self.new verdict) }
        ensures halt { IfErr result (HaltsAt most self.new) }
    {
        if is_full(self.learnt.len(), most) {
            return Err(Halt::Spent);
        }
        let Ok(id) = hold_passing(&mut self.store, &mut self.passing, clause) else {
            return Err(Halt::Memory);
        };
        match self.settle(id) {
            Ok(true) => Ok(None),
            Ok(false) => Ok(Some(Verdict::Unsat(ListOf::new(self.alloc)))),
            Err(_) => Err(Halt::Memory),
        }
    }

    /// Learns from a bound that cannot hold any more, or decides a variable where there is none.
    fn proceed<C: Choose>(
        &mut self,
        rule: &C,
        assume: &[Lit],
        most: Option<u64>,
    ) -> Result<Option<Verdict>, Halt>
        requires search { IsSearch self.old }
        requires quiet { IsQuiet self.old.store }
        requires unrefuted { self.old.root_conflicts ≡ 0 }
        requires ahead { AheadAt self.old 0 }
        requires turn { IsTurn assume.now self.old }
        requires literals { AreLitsOf self.old.problem.vars assume.now }
        requires trues { AreTrue self.old.store.trail.values assume.now }
        requires room { HasRoom most self.old }
        ensures search { IsSearch self.new }
        ensures same { Continues self.old self.new }
        ensures turn { IsTurn assume.now self.new }
        ensures room { HasRoom most self.new }
        ensures answer { IfOk result (AdvanceGives assume.now self.old self.new) }
        ensures halt { IfErr result (HaltsAt most self.new) }
    {
        let terms = self.problem.terms();
        let bounds = self.problem.bounds();
        // Constraints are counted from 1: those on sums, and then the bounds.
        let sum_count = self.problem.sums().len() as u64;
        match broken(self.alloc, terms, bounds, self.store.assignment()) {
            Ok(None) => self.decide_next(rule, assume, most),
            Ok(Some(found)) => {
                let number = sum_count + found.place as u64 + 1;
                let id = self.store.len() as u64;
                if self.log.implied(id, number, &found.clause).is_err() {
                    return Err(Halt::Memory);
                }
                self.settle_broken(&found.clause, most)
            }
            Err(_) => Err(Halt::Memory),
        }
    }

    /// Propagates, and learns from a conflict, or asks the constraints on sums and assumes further.
    fn turn(&mut self, assume: &[Lit], most: Option<u64>) -> Result<Outcome, Memory>
        requires search { IsSearch self.old }
        requires unrefuted { self.old.root_conflicts ≡ 0 }
        requires ahead { AheadAt self.old 0 }
        requires turn { IsTurn assume.now self.old }
        requires literals { AreLitsOf self.old.problem.vars assume.now }
        requires room { HasRoom most self.old }
        ensures search { IsSearch self.new }
        ensures same { Continues self.old self.new }
        ensures turn { IsTurn assume.now self.new }
        ensures room { HasRoom most self.new }
        ensures answer { IfOk result (TurnEnds assume.now most self.old self.new) }
    {
        match self.store.propagate() {
            None => self.infer(assume, most),
            Some(conflict) => self.settle_within(conflict, most),
        }
    }

    /// Goes a turn further; where nothing else is to be done, looks at bounds and decides a variable.
    fn step<C: Choose>(
        &mut self,
        rule: &C,
        assume: &[Lit],
        most: Option<u64>,
    ) -> Result<Option<Verdict>, Halt>
        requires search { IsSearch self.old }
        requires unrefuted { self.old.root_conflicts ≡ 0 }
        requires ahead { AheadAt self.old 0 }
        requires turn { IsTurn assume.now self.old }
        requires literals { AreLitsOf self.old.problem.vars assume.now }
        requires room { HasRoom most self.old }
        ensures search { IsSearch self.new }
        ensures same { Continues self.old self.new }
        ensures turn { IsTurn assume.now self.new }
        ensures room { HasRoom most self.new }
        ensures answer { IfOk result (AdvanceGives assume.now self.old self.new) }
        ensures halt { IfErr result (HaltsAt most self.new) }
    {
        match self.turn(assume, most) {
            Ok(Outcome::Answered(verdict)) => Ok(Some(verdict)),
            Ok(Outcome::Further) => Ok(None),
            Ok(Outcome::Open) => self.proceed(rule, assume, most),
            Ok(Outcome::Spent) => Err(Halt::Spent),
            Err(_) => Err(Halt::Memory),
        }
    }

    /// Searches until there is a verdict, or as many clauses are learnt as may be.
    pub fn search<C: Choose>(
        &mut self,
        rule: &C,
        assume: &[Lit],
        most: Option<u64>,
    ) -> Result<Verdict, Halt>
        requires search { IsSearch self.old }
        requires unrefuted { self.old.root_conflicts ≡ 0 }
        requires ahead { AheadAt self.old 0 }
        requires turn { IsTurn assume.now self.old }
        requires literals { AreLitsOf self.old.problem.vars assume.now }
        requires room { HasRoom most self.old }
        ensures search { IsSearch self.new }
        ensures same { Continues self.old self.new }
        ensures room { HasRoom most self.new }
        ensures verdict { IfOk result (Answers self.old.problem assume.now) }
        ensures halt { IfErr result (HaltsAt most self.new) }
    {
        // There are no restarts: each conflict leaves less to be tried, which is what bounds their number, and
        // a restart would give that up.
        loop {
            match self.step(rule, assume, most)? {
                Some(verdict) => return Ok(verdict),
                None => {}
            }
        }
    }

    /// Counts a search, in which no conflict was met yet.
    pub fn count_search(&mut self)
        requires resting { IsResting self.old }
        ensures resting { IsResting self.new }
        ensures store { self.new.store ≡ self.old.store }
        ensures problem { self.new.problem ≡ self.old.problem }
        ensures learnt { self.new.learnt ≡ self.old.learnt }
        ensures moments { self.new.moments ≡ self.old.moments }
        ensures searches { self.new.searches ≡ counted (self.old.searches + 1) }
        ensures conflicts { self.new.conflicts ≡ 0 }
        ensures root_conflicts { self.new.root_conflicts ≡ 0 }
        ensures log { self.new.log ≡ self.old.log }
    {
        self.searches = self.searches.saturating_add(1);
        self.conflicts = 0;
        self.root_conflicts = 0;
    }

    /// Holds the clause by which the next retired selector is false.
    fn close_next(&mut self) -> Result<(), Memory>
        requires resting { IsResting self.old }
        requires next { self.old.closed < length self.old.problem.retired }
        ensures resting { IsResting self.new }
        ensures same { KeepsProblem self.old self.new }
        ensures closed { OnOk result (self.new.closed ≡ self.old.closed + 1) }
        ensures log { self.new.log ≡ self.old.log }
    {
        // So the sum below fits.
        let _count = self.problem.retired_count();
        let lit = self.problem.retired_at(self.closed);
        self.store.push_clause(&[lit.negated()])?;
        self.closed += 1;
        Ok(())
    }

    /// Holds for each retired selector the clause by which it is false.
    fn close_retired(&mut self) -> Result<(), Memory>
        requires resting { IsResting self.old }
        ensures resting { IsResting self.new }
        ensures same { KeepsProblem self.old self.new }
        ensures closed { OnOk result (self.new.closed ≡ length self.new.problem.retired) }
        ensures log { self.new.log ≡ self.old.log }
    {
        while self.closed < self.problem.retired_count() {
            self.close_next()?;
        }
        Ok(())
    }

    /// Propagates what follows without assumptions; answers whether no clause is false by it.
    fn begin(&mut self) -> Result<bool, Memory>
        requires resting { IsResting self.old }
        ensures resting { IsResting self.new }
        ensures same { KeepsProblem self.old self.new }
        ensures begun { IfOk result (IsBegun self.new) }
    {
        self.ledger.begin(self.problem.sums())?;
        self.close_retired()?;
        // What is known of retired selectors comes with this.
        let _vars = self.problem.vars();
        let conflict = self.store.propagate();
        self.base = self.store.trail().len();
        match conflict {
            None => Ok(true),
            Some(conflict) => {
                note_refuted(self.alloc, &mut self.log, &self.store, conflict)?;
                Ok(false)
            }
        }
    }

    /// Begins a search, and takes back at its end what does not follow.
    pub fn solve<C: Choose>(
        &mut self,
        rule: &C,
        assume: &[Lit],
        most: Option<u64>,
    ) -> Result<Verdict, Halt>
        requires resting { IsResting self.old }
        requires literals { AreLitsOf self.old.problem.vars assume.now }
        requires room { HasRoom most self.old }
        ensures resting { IsResting self.new }
        ensures problem { self.new.problem ≡ self.old.problem }
        ensures searches { self.new.searches ≡ counted (self.old.searches + 1) }
        ensures learnt { self.old.learnt ≡ take (length self.old.learnt) self.new.learnt }
        ensures now { LearnsNow self.old self.new }
        ensures counted { length self.new.learnt ≤ length self.old.learnt + self.new.conflicts }
        ensures fewer { self.new.conflicts < 2 ^ (self.old.problem.vars - length self.old.problem.retired) }
        ensures room { HasRoom most self.new }
        ensures verdict { IfOk result (Answers self.old.problem assume.now) }
        ensures halt { IfErr result (HaltsAt most self.new) }
    {
        self.searches = self.searches.saturating_add(1);
        self.known = self.learnt.len();
        self.conflicts = 0;
        self.root_conflicts = 0;
        self.assumed = 0;
        self.decider.begin();
        match self.begin() {
            Ok(true) => {
                self.passing.clear();
                let verdict = self.search(rule, assume, most);
                self.store.back_to(0);
                give_back(&mut self.store, &mut self.passing);
                verdict
            }
            Ok(false) => {
                self.root_conflicts = 1;
                Ok(Verdict::Unsat(ListOf::new(self.alloc)))
            }
            Err(_) => Err(Halt::Memory),
        }
    }
}
