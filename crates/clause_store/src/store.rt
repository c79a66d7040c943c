//! The store that callers use.
ghost use Rattle.std.specs.Prelude.{◌≡◌, ◌≢◌, ℕ, ◌<◌, ◌≤◌, ◌+◌, [], length, max, Option, Some, None, Bool, List, All};
ghost use Rattle.std.specs.Prelude.{Contains, IsOk, IsTrue, ◌↔◌, IfOk, OnOk, OnErr, IfNone, IfSome, slice_get};
ghost use Rattle.std.specs.Prelude.{slice_index_or};
ghost use Rattle.std.specs.Option.{ForSome};
ghost use Rattle.lit_core.specs.declared.literals.Lit.{Lit};
ghost use Rattle.lit_core.specs.Literals.{value_in, negated};
ghost use Rattle.clause_base.specs.declared.trail.Step.{Step};
ghost use Rattle.clause_base.specs.StoreState.{StoreState, IsStore, IsHeld, IsQuiet, IsConflict, IsEachOnceOf, Implies};
ghost use Rattle.clause_base.specs.StoreState.{Propagates, empty_store, with_trail, with_variables, with_spare};
ghost use Rattle.clause_base.specs.StoreState.{with_clause, without_clause};
ghost use Rattle.clause_base.specs.TrailLaws.{IsFixed, IsStepOf, CutsAt, cleared, level_after, lits_of, with_step};
ghost use Rattle.clause_store.specs.Releasing.{Releases};

use crate::watched::Watcher;
use clause_base::Step;
use lit_core::{Assignment, Lit, Memory, PackedLit, Var};
use std::alloc::Global;
use std::marker::Model;

/// A clause database and a trail, with unit propagation by watched literals.
///
/// A search pushes clauses, makes decisions by `assign`, propagates, and on a false clause goes back to a lower
/// level. Only `new`, the two `reserve` calls, `push_clause` and `pack` take memory: a clause of at most the length
/// that `reserve_clause` was given is pushed without. More than 2^31 variables or clauses, or 2^32 literals of all
/// clauses, are answered as out of memory.
#[derive(Debug, Drop)]
pub struct Store {
    watcher: Watcher,
}

impl Model for Store {
    ghost use Rattle.clause_base.specs.StoreState.{StoreState};

    ghost Value = { StoreState };

    ghost use Rattle.clause_store.specs.StoreFields.{state_of, IsKept};

    ghost view = { state_of };

    ghost invariant = { IsKept };
}

impl Store {
    /// The store of no variables and no clauses.
    pub fn new(alloc: Global) -> Result<Store, Memory>
        ensures value { IfOk result (λ s. s ≡ empty_store) }
        ensures laws { IfOk result IsStore }
    {
        Ok(Store {
            watcher: Watcher::new(alloc),
        })
    }

    /// Adds unassigned variables, so that there are at least `n`, numbered from 0.
    pub fn reserve_vars(&mut self, n: u64) -> Result<(), Memory>
        ensures ok { OnOk result (self.new ≡ with_variables n self.old) }
        ensures err { OnErr result (self.new ≡ self.old) }
        ensures laws { IsStore self.new }
    {
        self.watcher.reserve_vars(n)
    }

    /// Makes room for one clause of at most this length.
    pub fn reserve_clause(&mut self, len: usize) -> Result<(), Memory>
        ensures ok { OnOk result (self.new ≡ with_spare self.old (max self.old.spare (len + 1))) }
        ensures err { OnErr result (self.new ≡ self.old) }
        ensures laws { IsStore self.new }
    {
        self.watcher.reserve_clause(len)
    }

    /// Adds a clause and returns its number. It holds each of the literals once.
    ///
    /// The trail may be any; what the clause makes true or false is found by `propagate`.
    pub fn push_clause(&mut self, lits: &[Lit]) -> Result<u64, Memory>
        requires in_range { All (λ l. l.var.0 < length self.old.trail.values) lits.now }
        requires unopposed { All (λ l. IsFixed self.old.trail (negated l) → ⊥) lits.now }
        ensures ok { IfOk result (λ id. (id ≡ length self.old.clauses) × ((c : List Lit) × IsEachOnceOf lits.now c
            × (self.new ≡ with_clause self.old c))) }
        ensures err { OnErr result (self.new ≡ self.old) }
        ensures room { length lits.now < self.old.spare → IsOk result }
        ensures laws { IsStore self.new }
    {
        self.watcher.push_clause(lits)
    }

    /// How many clauses were ever pushed.
    pub fn len(&self) -> usize
        ensures { result ≡ length self.now.clauses }
    {
        self.watcher.held.len()
    }

    /// Whether no clause was ever pushed.
    pub fn is_empty(&self) -> bool
        ensures { IsTrue result ↔ (length self.now.clauses ≡ 0) }
    {
        self.watcher.held.len() == 0
    }

    /// The literals of a held clause, each once.
    pub fn lend(&self, id: u64) -> &[PackedLit]
        requires { (c : List Lit) × IsHeld self.now id c }
        ensures held { IsHeld self.now id result.now }
        ensures laws { IsStore self.now }
    {
        self.watcher.held.lend(id)
    }

    /// Each variable's value.
    pub fn assignment(&self) -> &Assignment
        ensures value { result.now ≡ self.now.trail.values }
        ensures laws { IsStore self.now }
    {
        self.watcher.trail.assignment()
    }

    /// The number of open decisions.
    pub fn level(&self) -> u64
        ensures value { result ≡ self.now.trail.level }
        ensures laws { IsStore self.now }
    {
        self.watcher.trail.level()
    }

    /// The true literals in order of assignment.
    pub fn trail(&self) -> &[Lit]
        ensures value { result.now ≡ lits_of self.now.trail.steps }
        ensures laws { IsStore self.now }
    {
        self.watcher.trail.lits()
    }

    /// The step at a place on the trail.
    pub fn step(&self, place: usize) -> Step
        requires { place < length self.now.trail.steps }
        ensures step { slice_get self.now.trail.steps place ≡ Some result }
        ensures laws { IsStore self.now }
    {
        self.watcher.trail.step(place)
    }

    /// The place on the trail of the step that gave the variable its value.
    pub fn place_of(&self, var: Var) -> usize
        requires in_range { var.0 < length self.now.trail.values }
        requires assigned { slice_index_or self.now.trail.values var.0 None ≢ None }
        ensures step { (t : Step) × (slice_get self.now.trail.steps result ≡ Some t) × (t.lit.var ≡ var) }
        ensures laws { IsStore self.now }
    {
        self.watcher.trail.place_of(var)
    }

    /// The step that gave the variable its value.
    pub fn step_of(&self, var: Var) -> Step
        requires in_range { var.0 < length self.now.trail.values }
        requires assigned { slice_index_or self.now.trail.values var.0 None ≢ None }
        ensures step { IsStepOf self.now.trail var result }
        ensures laws { IsStore self.now }
    {
        self.watcher.trail.step(self.watcher.trail.place_of(var))
    }

    /// The level at which the variable got its value.
    pub fn level_of(&self, var: Var) -> u64
        requires in_range { var.0 < length self.now.trail.values }
        requires assigned { slice_index_or self.now.trail.values var.0 None ≢ None }
        ensures step { (t : Step) × IsStepOf self.now.trail var t × (t.level ≡ result) }
        ensures laws { IsStore self.now }
    {
        self.watcher
            .trail
            .step(self.watcher.trail.place_of(var))
            .level
    }

    /// The clause that gave the variable its value, or None for a decision and for a fixed literal.
    pub fn reason(&self, var: Var) -> Option<u64>
        requires in_range { var.0 < length self.now.trail.values }
        requires assigned { slice_index_or self.now.trail.values var.0 None ≢ None }
        ensures step { (t : Step) × IsStepOf self.now.trail var t × (t.reason ≡ result) }
        ensures laws { IsStore self.now }
    {
        self.watcher
            .trail
            .step(self.watcher.trail.place_of(var))
            .reason
    }

    /// Makes a literal true: by a clause whose other literals are false, or as a decision, which opens the next
    /// level.
    pub fn assign(&mut self, lit: Lit, reason: Option<u64>)
        requires in_range { lit.var.0 < length self.old.trail.values }
        requires unassigned { value_in self.old.trail.values lit ≡ None }
        requires reason { ForSome reason (λ id. Implies self.old id lit) }
        ensures step { self.new ≡ with_trail self.old (with_step self.old.trail
            (record { lit = lit; level = level_after self.old.trail.level reason; reason = reason })) }
        ensures laws { IsStore self.new }
    {
        self.watcher.assign(lit, reason);
    }

    /// Unit propagation: makes true what follows from one clause at a time, and returns a clause that is false by
    /// it, if there is one.
    pub fn propagate(&mut self) -> Option<u64>
        ensures same { Propagates self.old self.new }
        ensures quiet { IfNone result (IsQuiet self.new) }
        ensures conflict { IfSome result (λ id. IsConflict self.new id) }
        ensures laws { IsStore self.new }
    {
        self.watcher.propagate()
    }

    /// Backtracks: takes back what was made true above the level.
    pub fn back_to(&mut self, level: u64)
        requires { level ≤ self.old.trail.level }
        ensures clauses { self.new.clauses ≡ self.old.clauses }
        ensures spare { self.new.spare ≡ self.old.spare }
        ensures trail { CutsAt level self.old.trail self.new.trail }
        ensures laws { IsStore self.new }
    {
        self.watcher.back_to(level);
    }

    /// Fixes a literal at level 0, with no decision, where no clause has its negation.
    pub fn fix(&mut self, lit: Lit)
        requires level { self.old.trail.level ≡ 0 }
        requires in_range { lit.var.0 < length self.old.trail.values }
        requires unassigned { value_in self.old.trail.values lit ≡ None }
        requires unopposed { (id : ℕ) (c : List Lit) → IsHeld self.old id c → Contains c (negated lit) → ⊥ }
        ensures step { self.new ≡ with_trail self.old (with_step self.old.trail
            (record { lit = lit; level = 0; reason = None })) }
        ensures laws { IsStore self.new }
    {
        self.watcher.fix(lit);
    }

    /// Makes every variable unassigned, fixed ones too.
    pub fn clear(&mut self)
        ensures cleared { self.new ≡ with_trail self.old (cleared self.old.trail) }
        ensures laws { IsStore self.new }
    {
        self.watcher.clear();
    }

    /// Lists the short clauses that are held, where nothing is assigned, so that propagation reads them in order.
    ///
    /// It is for clauses that stay, and for a caller that asks many questions: a listed clause is looked at without a
    /// cache miss of its own and moves nothing, but it is listed for good, and all others are watched anew by the next
    /// `propagate`. Clauses that are pushed later are watched. Where memory runs out, fewer are listed.
    pub fn pack(&mut self) -> Result<(), Memory>
        requires unassigned { self.old.trail.steps ≡ [] }
        ensures same { self.new ≡ self.old }
        ensures laws { IsStore self.new }
    {
        self.watcher.pack()
    }

    /// Removes a clause of which no literal is true, and answers whether it is gone: else it may be the reason for one.
    ///
    /// The trail may be any, and the other numbers stay. It is for clauses that serve once: what is made true by one is
    /// taken back before it is removed.
    pub fn release(&mut self, id: u64) -> bool
        requires id { id < length self.old.clauses }
        ensures released { Releases self.old id self.new result }
        ensures laws { IsStore self.new }
    {
        self.watcher.release(id)
    }

    /// Removes a clause where nothing is assigned. The other numbers stay.
    pub fn remove(&mut self, id: u64)
        requires id { id < length self.old.clauses }
        requires unassigned { self.old.trail.steps ≡ [] }
        ensures removed { self.new ≡ without_clause self.old id }
        ensures laws { IsStore self.new }
    {
        self.watcher.remove(id);
    }
}
