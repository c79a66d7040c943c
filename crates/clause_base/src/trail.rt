//! What is true, in order of assignment, with levels and reasons.
ghost use Rattle.std.specs.Prelude.{◌≡◌, ◌≢◌, ℕ, ◌+◌, ◌-◌, ◌<◌, ◌≤◌, ◌^◌, ◌↔◌, ◌++◌, ◌∷◌, [], length, max, true, false};
ghost use Rattle.std.specs.Prelude.{Some, None, Option, Bool, List, IsTrue, OnOk, OnErr, ◌⊎◌, slice_get, slice_set};
ghost use Rattle.std.specs.Prelude.{slice_index_or, vec_capacity};
ghost use Rattle.lit_core.specs.Literals.{value_in};
ghost use Rattle.clause_base.specs.declared.trail.Step.{Step};
ghost use Rattle.clause_base.specs.TrailLaws.{IsTrail, CutsAt, cleared, empty_trail, grown, level_after, lits_of};
ghost use Rattle.clause_base.specs.TrailLaws.{with_step};

use lit_core::{Assignment, Lit, Memory, Var};
use std::alloc::Global;
use std::marker::Model;

/// One literal that was made true.
#[derive(Clone, Copy, Debug, PartialEq, Eq)]
pub struct Step {
    pub lit: Lit,
    pub level: u64,
    /// The clause that made it true, or None for a decision and for a fixed literal.
    pub reason: Option<u64>,
}

/// What is true, in order of assignment.
#[derive(Debug, Drop)]
pub struct Trail {
    assignment: Assignment,
    steps: Vec<Step>,
    lits: Vec<Lit>,
    places: Vec<usize>,
    level: u64,
}

impl Model for Trail {
    ghost use Rattle.clause_base.specs.TrailState.{TrailState};

    ghost Value = { TrailState };

    ghost use Rattle.clause_base.specs.TrailFields.{state_of, IsKept};

    ghost view = { state_of };

    ghost invariant = { IsKept };
}

/// The level of a step: a decision opens the next one.
fn next_level(level: u64, reason: Option<u64>) -> u64
    requires { level + 1 < 2 ^ 64 }
    ensures { result ≡ level_after level reason }
{
    match reason {
        None => level + 1,
        Some(_) => level,
    }
}

/// Takes off the last step where it is above the level.
fn pop_above(
    assignment: &mut Assignment,
    steps: &mut Vec<Step>,
    lits: &mut Vec<Lit>,
    level: u64,
) -> bool
    requires lits { lits.old.items ≡ lits_of steps.old.items }
    requires in_range { (k : ℕ) (t : Step) → slice_get steps.old.items k ≡ Some t
        → t.lit.var.0 < length assignment.old }
    ensures popped { IsTrue result → (t : Step) × (steps.old.items ≡ steps.new.items ++ t ∷ []) × (level < t.level)
        × (assignment.new ≡ slice_set assignment.old t.lit.var.0 None) }
    ensures lits { lits.new.items ≡ lits_of steps.new.items }
    ensures done { IsTrue result ⊎ ((steps.new.items ≡ steps.old.items) × (assignment.new ≡ assignment.old)
        × ((k : ℕ) (t : Step) → slice_get steps.old.items k ≡ Some t → k + 1 ≡ length steps.old.items
        → t.level ≤ level)) }
    ensures room { (vec_capacity steps.old ≤ vec_capacity steps.new) × (vec_capacity lits.old ≤ vec_capacity lits.new) }
{
    let Some(step) = steps.last() else {
        return false;
    };
    let step = *step;
    if step.level <= level {
        return false;
    }
    let _ = steps.pop();
    let _ = lits.pop();
    assignment.unset(step.lit.var);
    true
}

/// Adds places, so that there are at least `len`.
fn grow_places(places: &mut Vec<usize>, len: usize) -> Result<(), Memory>
    ensures kept { (v k : ℕ) → slice_get places.old.items v ≡ Some k → slice_get places.new.items v ≡ Some k }
    ensures longer { length places.old.items ≤ length places.new.items }
    ensures enough { OnOk result (len ≤ length places.new.items) }
{
    if places.len() < len {
        places.resize(len, 0)?;
    }
    Ok(())
}

impl Trail {
    /// The trail of no variables.
    pub fn new(alloc: Global) -> Trail
        ensures { result ≡ empty_trail }
    {
        Trail {
            assignment: Assignment::new(alloc),
            steps: Vec::new(alloc),
            lits: Vec::new(alloc),
            places: Vec::new(alloc),
            level: 0,
        }
    }

    /// Adds unassigned variables, so that there are at least `len`.
    pub fn grow(&mut self, len: usize) -> Result<(), Memory>
        ensures ok { OnOk result (self.new ≡ grown len self.old) }
        ensures err { OnErr result (self.new ≡ self.old) }
        ensures steps { self.new.steps ≡ self.old.steps }
        ensures longer { length self.old.values ≤ length self.new.values }
        ensures bounded { length self.new.values ≤ max (length self.old.values) len }
        ensures level { self.new.level ≡ self.old.level }
        ensures laws { IsTrail self.new }
    {
        let more = len.saturating_sub(self.steps.len());
        self.steps.reserve(more)?;
        self.lits.reserve(more)?;
        grow_places(&mut self.places, len)?;
        self.assignment.grow(len)?;
        Ok(())
    }

    /// Each variable's value.
    pub fn assignment(&self) -> &Assignment
        ensures value { result.now ≡ self.now.values }
        ensures laws { IsTrail self.now }
    {
        &self.assignment
    }

    /// The number of open decisions.
    pub fn level(&self) -> u64
        ensures { result ≡ self.now.level }
    {
        self.level
    }

    /// The true literals in order of assignment.
    pub fn lits(&self) -> &[Lit]
        ensures { result.now ≡ lits_of self.now.steps }
    {
        self.lits.as_slice()
    }

    /// The step at a place on the trail.
    pub fn step(&self, place: usize) -> Step
        requires { place < length self.now.steps }
        ensures { slice_get self.now.steps place ≡ Some result }
    {
        self.steps[place]
    }

    /// The place on the trail of the step that gave the variable its value.
    pub fn place_of(&self, var: Var) -> usize
        requires in_range { var.0 < length self.now.values }
        requires assigned { slice_index_or self.now.values var.0 None ≢ None }
        ensures step { (t : Step) × (slice_get self.now.steps result ≡ Some t) × (t.lit.var ≡ var) }
    {
        self.places[var.0 as usize]
    }

    /// Adds a step.
    fn add(&mut self, step: Step)
        requires in_range { step.lit.var.0 < length self.old.values }
        requires unassigned { value_in self.old.values step.lit ≡ None }
        requires laws { IsTrail (with_step self.old step) }
        ensures { self.new ≡ with_step self.old step }
    {
        let place = self.steps.len();
        self.places[step.lit.var.0 as usize] = place;
        self.assignment.set(step.lit);
        self.lits.push_reserved(step.lit);
        self.steps.push_reserved(step);
        self.level = step.level;
    }

    /// Makes a literal true, under a new decision where it has no reason.
    pub fn assign(&mut self, lit: Lit, reason: Option<u64>)
        requires in_range { lit.var.0 < length self.old.values }
        requires unassigned { value_in self.old.values lit ≡ None }
        ensures step { self.new ≡ with_step self.old (record {
          lit = lit;
          level = level_after self.old.level reason;
          reason = reason;
        }) }
        ensures laws { IsTrail self.new }
    {
        let level = next_level(self.level, reason);
        self.add(Step { lit, level, reason });
    }

    /// Fixes a literal at level 0, with no decision.
    pub fn fix(&mut self, lit: Lit)
        requires in_range { lit.var.0 < length self.old.values }
        requires unassigned { value_in self.old.values lit ≡ None }
        requires level { self.old.level ≡ 0 }
        ensures step { self.new ≡ with_step self.old (record { lit = lit; level = 0; reason = None }) }
        ensures laws { IsTrail self.new }
    {
        let level = self.level;
        self.add(Step {
            lit,
            level,
            reason: None,
        });
    }

    /// Takes off the steps above the level.
    pub fn back_to(&mut self, level: u64)
        requires { level ≤ self.old.level }
        ensures cut { CutsAt level self.old self.new }
        ensures laws { IsTrail self.new }
    {
        while pop_above(&mut self.assignment, &mut self.steps, &mut self.lits, level) {}
        self.level = level;
    }

    /// Takes off all steps.
    pub fn clear(&mut self)
        ensures cleared { self.new ≡ cleared self.old }
        ensures laws { IsTrail self.new }
    {
        while let Some(step) = self.steps.pop() {
            self.assignment.unset(step.lit.var);
        }
        self.lits.clear();
        self.level = 0;
    }
}
