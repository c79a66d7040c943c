//! How what is searched grows.
ghost use Rattle.std.specs.Prelude.{◌≡◌, ◌<◌, ◌≤◌, ◌+◌, [], length, Contains, IfOk, OnOk, OnErr};
ghost use Rattle.ground_core.specs.Problems.{AreLitsOf, IsProblem};
ghost use Rattle.ground_core.specs.Growth.{next_lit};
ghost use Rattle.ground_core.specs.Growing.{IsSelector, with_retired};
ghost use Rattle.ground_core.specs.Selectors.{AreSelectors};
ghost use Rattle.kept_problem.specs.Joining.{CanJoin, with_selected};
ghost use Rattle.search_engine.specs.Resting.{Bounds, Excludes, Grows, IsHalfDone, IsNew, IsResting, KeepsProblem};
ghost use Rattle.search_engine.specs.Resting.{Reserves, SameSearches, Stays};
ghost use Rattle.search_log.specs.Entries.{Grows as Says};

use crate::engine::Engine;
use crate::noting::{note_bound, note_exclusion};
use crate::pushing::{push_problem, remove_all, remove_from};
use clause_store::Store;
use ground_core::{Memory, Problem, exclusion};
use kb_logic::ExtInt;
use kept_problem::KeptProblem;
use lit_core::{ClauseList, Lit, Values, Var};
use search_decisions::Decider;
use search_log::SearchLog;
use std::alloc::Global;
use sum_ledger::Ledger;

impl Engine {
    /// No variables, and nothing said.
    pub fn new(alloc: Global) -> Result<Engine, Memory>
        ensures resting { IfOk result IsResting }
        ensures empty { IfOk result IsNew }
        ensures unsaid { IfOk result (λ e. e.log.entries ≡ []) }
    {
        let mut store = Store::new(alloc)?;
        store.reserve_vars(1)?;
        Ok(Engine {
            alloc,
            problem: KeptProblem::new(alloc),
            store,
            learnt: ClauseList::new(alloc),
            moments: Vec::new(alloc),
            ids: Vec::new(alloc),
            passing: Vec::new(alloc),
            decider: Decider::new(alloc),
            ledger: Ledger::new(alloc),
            log: SearchLog::new(alloc),
            searches: 0,
            known: 0,
            conflicts: 0,
            root_conflicts: 0,
            assumed: 0,
            closed: 0,
            base: 0,
        })
    }

    /// Holds the clauses of another problem, and keeps what it says.
    fn hold(&mut self, more: &Problem) -> Result<(), Memory>
        requires resting { IsResting self.old }
        requires cleared { self.old.store.trail.steps ≡ [] }
        requires can { CanJoin self.old.problem more.now }
        requires bounds { more.now.bounds ≡ [] }
        requires laws { IsProblem more.now }
        requires sized { more.now.vars < length self.old.store.trail.values }
        ensures resting { OnOk result (IsResting self.new) }
        ensures ok { OnOk result (Grows self.old more.now self.new) }
        ensures err { OnErr result (IsHalfDone self.old self.new) }
        ensures log { self.new.log ≡ self.old.log }
    {
        push_problem(self.alloc, &mut self.store, more)?;
        self.problem.join(self.alloc, more)
    }

    /// Watches the clauses that are not watched yet, and propagates what follows without assumptions, so that no
    /// search pays for it. A clause that is false by it is found again by the next search.
    fn watch(&mut self)
        requires { IsResting self.old }
        ensures resting { IsResting self.new }
        ensures same { KeepsProblem self.old self.new }
        ensures log { self.new.log ≡ self.old.log }
    {
        let _ = self.store.propagate();
    }

    /// Lists the short clauses that are held, for a caller that asks many questions: a search then takes some 0.4 of
    /// the time, and this call as long as some eight searches. Where memory runs out, less is listed.
    pub fn prepare(&mut self) -> Result<(), Memory>
        requires resting { IsResting self.old }
        ensures resting { IsResting self.new }
        ensures same { Stays self.old self.new }
        ensures log { self.new.log ≡ self.old.log }
    {
        self.store.clear();
        let packed = self.store.pack();
        let _ = self.store.propagate();
        packed
    }

    /// Says all that another problem says, too.
    pub fn add_problem(&mut self, more: &Problem) -> Result<(), Memory>
        requires resting { IsResting self.old }
        requires can { CanJoin self.old.problem more.now }
        requires bounds { more.now.bounds ≡ [] }
        ensures resting { IsResting self.new }
        ensures ok { OnOk result (Grows self.old more.now self.new) }
        ensures err { OnErr result (Stays self.old self.new) }
        ensures log { self.new.log ≡ self.old.log }
    {
        let Some(count) = more.vars().checked_add(1) else {
            return Err(Memory);
        };
        self.make_room(count)?;
        self.store.clear();
        let known = self.problem.clause_count();
        let first = self.store.len();
        match self.hold(more) {
            Ok(()) => {
                self.decider.phases.note_choices(&self.problem, known);
                self.watch();
                Ok(())
            }
            Err(error) => {
                remove_from(&mut self.store, first);
                Err(error)
            }
        }
    }

    /// Makes room for the variables below `count`.
    fn make_room(&mut self, count: u64) -> Result<(), Memory>
        requires resting { IsResting self.old }
        ensures resting { IsResting self.new }
        ensures reserves { Reserves self.old self.new }
        ensures ok { OnOk result (count ≤ length self.new.store.trail.values) }
        ensures log { self.new.log ≡ self.old.log }
    {
        self.decider.reserve(count as usize)?;
        self.store.reserve_vars(count)?;
        Ok(())
    }

    /// Holds a clause, the last of the problem, that is the first to have the greatest variable.
    fn hold_last(&mut self, clause: &[Lit]) -> Result<(), Memory>
        requires resting { IsResting self.old }
        requires sized { self.old.problem.vars + 1 < length self.old.store.trail.values }
        requires lits { AreLitsOf (self.old.problem.vars + 1) clause.now }
        ensures resting { IsResting self.new }
        ensures ok { OnOk result ((self.new.problem ≡ with_selected self.old.problem clause.now)
            × SameSearches self.old self.new) }
        ensures err { OnErr result (Stays self.old self.new) }
        ensures log { self.new.log ≡ self.old.log }
    {
        self.store.reserve_clause(clause.len())?;
        self.problem.add_selected(clause)?;
        match self.store.push_clause(clause) {
            Ok(_) => Ok(()),
            Err(_) => unreachable!(),
        }
    }

    /// Has the next search go by these values, where the last one met conflicts: one that met none finds models that are
    /// far from each other as fast.
    fn stay_near(&mut self, values: &Values)
        requires resting { IsResting self.old }
        ensures resting { IsResting self.new }
        ensures same { Stays self.old self.new }
        ensures log { self.new.log ≡ self.old.log }
    {
        if self.conflicts > 0 {
            self.decider.near.follow(values, self.problem.atom_count());
        } else {
            self.decider.near.leave();
        }
    }

    /// Adds a selector under which the ground atoms differ from these values somewhere.
    pub fn exclude(&mut self, values: &Values) -> Result<Lit, Memory>
        requires resting { IsResting self.old }
        requires atoms { length self.old.problem.atoms < length values.now }
        ensures resting { IsResting self.new }
        ensures ok { IfOk result (λ out. (out ≡ next_lit self.old.problem) × Excludes self.old values.now self.new) }
        ensures err { OnErr result (Stays self.old self.new) }
        ensures says { Says self.old.log.entries self.new.log.entries }
        ensures unsaid { OnErr result (self.new.log.entries ≡ self.old.log.entries) }
    {
        let mark = self.log.mark();
        let id = self.store.len() as u64;
        note_exclusion(self.alloc, &mut self.log, &self.problem, id, values)?;
        match self.hold_exclusion(values) {
            Ok(out) => {
                self.stay_near(values);
                Ok(out)
            }
            Err(error) => {
                self.log.back_to(mark);
                Err(error)
            }
        }
    }

    /// Holds the clause of a new selector under which the ground atoms differ from these values somewhere.
    fn hold_exclusion(&mut self, values: &Values) -> Result<Lit, Memory>
        requires resting { IsResting self.old }
        requires atoms { length self.old.problem.atoms < length values.now }
        ensures resting { IsResting self.new }
        ensures ok { IfOk result (λ out. (out ≡ next_lit self.old.problem) × Excludes self.old values.now self.new) }
        ensures err { OnErr result (Stays self.old self.new) }
        ensures log { self.new.log ≡ self.old.log }
    {
        let Some(var) = self.problem.vars().checked_add(1) else {
            return Err(Memory);
        };
        let Some(count) = var.checked_add(1) else {
            return Err(Memory);
        };
        self.make_room(count)?;
        let out = Lit {
            var: Var(var),
            positive: true,
        };
        let atoms = self.problem.atom_count() as usize;
        let clause = exclusion(self.alloc, out, values, atoms)?;
        self.hold_last(clause.as_slice())?;
        Ok(out)
    }

    /// Adds a selector under which the term is below the number.
    pub fn bound(&mut self, term: u32, below: ExtInt) -> Result<Lit, Memory>
        requires resting { IsResting self.old }
        requires term { term < length self.old.problem.terms }
        ensures resting { IsResting self.new }
        ensures ok { IfOk result (λ out. (out ≡ next_lit self.old.problem) × Bounds self.old term below self.new) }
        ensures err { OnErr result (Stays self.old self.new) }
        ensures says { Says self.old.log.entries self.new.log.entries }
        ensures unsaid { OnErr result (self.new.log.entries ≡ self.old.log.entries) }
    {
        let mark = self.log.mark();
        note_bound(&mut self.log, &self.problem, term, below)?;
        match self.hold_bound(term, below) {
            Ok(out) => Ok(out),
            Err(error) => {
                self.log.back_to(mark);
                Err(error)
            }
        }
    }

    /// Keeps a bound under a new selector. No clause is held for it: a search looks whether bounds hold.
    fn hold_bound(&mut self, term: u32, below: ExtInt) -> Result<Lit, Memory>
        requires resting { IsResting self.old }
        requires term { term < length self.old.problem.terms }
        ensures resting { IsResting self.new }
        ensures ok { IfOk result (λ out. (out ≡ next_lit self.old.problem) × Bounds self.old term below self.new) }
        ensures err { OnErr result (Stays self.old self.new) }
        ensures log { self.new.log ≡ self.old.log }
    {
        let Some(var) = self.problem.vars().checked_add(1) else {
            return Err(Memory);
        };
        let Some(count) = var.checked_add(1) else {
            return Err(Memory);
        };
        self.make_room(count)?;
        self.problem.add_bound(term, below)
    }

    /// Makes a selector false for good. The clause that says so is held when the next search begins.
    pub fn retire(&mut self, selector: Lit)
        requires resting { IsResting self.old }
        requires selector { IsSelector self.old.problem selector }
        ensures resting { IsResting self.new }
        ensures already { Contains self.old.problem.retired selector → self.new.problem ≡ self.old.problem }
        ensures retired { (Contains self.old.problem.retired selector → ⊥)
            → self.new.problem ≡ with_retired self.old.problem selector }
        ensures few { length self.new.problem.retired ≤ self.new.problem.vars }
        ensures selectors { AreSelectors self.new.problem.retired }
        ensures same { SameSearches self.old self.new }
        ensures held { self.new.store ≡ self.old.store }
        ensures log { self.new.log ≡ self.old.log }
    {
        self.problem.retire(selector);
        self.decider.near.leave();
        // What is known of retired selectors comes with this.
        let _vars = self.problem.vars();
    }

    /// Gives up what was learnt.
    pub fn forget(&mut self)
        requires resting { IsResting self.old }
        ensures resting { IsResting self.new }
        ensures problem { self.new.problem ≡ self.old.problem }
        ensures learnt { self.new.learnt ≡ [] }
        ensures moments { self.new.moments.items ≡ [] }
        ensures searches { self.new.searches ≡ self.old.searches }
        ensures conflicts { self.new.conflicts ≡ self.old.conflicts }
        ensures root_conflicts { self.new.root_conflicts ≡ self.old.root_conflicts }
        ensures entries { self.new.log.entries ≡ self.old.log.entries }
    {
        self.log.forget();
        // Where nothing was learnt the store may keep its watches.
        if self.ids.is_empty() {
            return;
        }
        self.store.clear();
        remove_all(&mut self.store, &self.ids);
        self.ids.clear();
        self.moments.clear();
        self.learnt.truncate(0);
    }
}
