//! What the search decides next.
ghost use Rattle.std.specs.Prelude.{◌≡◌, ℕ, ◌≤◌, ◌<◌, ◌+◌, None, length, slice_index_or, IfOk, IfSome, OnOk};
ghost use Rattle.std.specs.Prelude.{MatchOption};
ghost use Rattle.lit_core.specs.Literals.{value_in};
ghost use Rattle.clause_store.specs.StoreState.{IsStore};
ghost use Rattle.search_decisions.specs.Scores.{AreListed, AreListedFirst, HaveValues, IsOpenBetween, Raises};

use crate::costs::Costs;
use crate::near::Near;
use crate::order::Order;
use crate::phases::Phases;
use crate::scores::Scores;
use crate::settled::Settled;
use chooser::Choose;
use clause_store::Store;
use ground_core::Memory;
use kept_problem::KeptProblem;
use lit_core::{Assignment, Lit, PackedLit, Var};
use std::alloc::Global;

/// Chooses decisions.
#[derive(Drop)]
pub struct Decider {
    /// What decides the sign.
    pub phases: Phases,
    /// What decides it where a function has another value.
    pub settled: Settled,
    /// What decides it where a term is to be small.
    pub costs: Costs,
    /// What decides it where models are listed.
    pub near: Near,
    /// What the rule chooses from.
    pub scores: Scores,
    /// The ground atoms by falling score.
    pub atoms: Order,
    /// The other variables by falling score.
    pub others: Order,
}

impl Decider {
    /// Nothing was seen, and no conflict was met.
    pub fn new(alloc: Global) -> Decider {
        Decider {
            phases: Phases::new(alloc),
            settled: Settled::new(),
            costs: Costs::new(alloc),
            near: Near::new(alloc),
            scores: Scores::new(alloc),
            atoms: Order::new(alloc),
            others: Order::new(alloc),
        }
    }

    /// Makes room for so many variables.
    pub fn reserve(&mut self, len: usize) -> Result<(), Memory> {
        self.phases.reserve(len)?;
        self.scores.reserve(len)
    }

    /// Lists the unassigned ground atoms, which are the first variables, or where there are none
    /// the other unassigned variables.
    fn list(&mut self, assignment: &Assignment, first: u64, end: u64) -> Result<(), Memory>
        requires some { 1 ≤ first }
        requires first { first ≤ end }
        requires end { end ≤ length assignment.now }
        ensures lists { OnOk result (AreListedFirst self.old.scores.scores.items assignment.now first end
            self.new.scores) }
        ensures phases { self.new.phases ≡ self.old.phases }
    {
        self.scores.list(assignment, 1, first)?;
        if self.scores.is_empty() {
            self.scores.list(assignment, first, end)?;
        }
        Ok(())
    }

    /// The variable that the rule chooses of all that may be decided.
    fn choose<C: Choose>(
        &mut self,
        rule: &C,
        assignment: &Assignment,
        first: u64,
        end: u64,
    ) -> Result<Option<u64>, Memory>
        requires some { 1 ≤ first }
        requires first { first ≤ end }
        requires end { end ≤ length assignment.now }
        ensures found { IfOk result (λ next. MatchOption next (HaveValues assignment.now 1 end)
            (IsOpenBetween assignment.now 1 end)) }
        ensures phases { self.new.phases ≡ self.old.phases }
    {
        self.list(assignment, first, end)?;
        if self.scores.is_empty() {
            return Ok(None);
        }
        let place = rule.choose(self.scores.listed.as_slice());
        Ok(Some(self.scores.open[place]))
    }

    /// The first unassigned variable by falling score, ground atoms before others.
    fn first_open(
        &mut self,
        assignment: &Assignment,
        first: u64,
        end: u64,
    ) -> Result<Option<u64>, Memory>
        ensures open { IfOk result (λ next. IfSome next (IsOpenBetween assignment.now 1 end)) }
        ensures phases { self.new.phases ≡ self.old.phases }
    {
        let scores = self.scores.scores.as_slice();
        self.atoms.extend(scores, 1, first)?;
        self.others.extend(scores, first, end)?;
        let found = match self.atoms.first_open(assignment) {
            Some(var) => Some(var),
            None => self.others.first_open(assignment),
        };
        match found {
            Some(var) if 1 <= var && var < end => Ok(Some(var)),
            _ => Ok(None),
        }
    }

    /// The variable that is decided next.
    ///
    /// A rule that takes the first of falling scores is not asked: variables stand in that order. Where none of them is
    /// unassigned, or the rule is another one, all that may be decided is listed.
    fn next_variable<C: Choose>(
        &mut self,
        rule: &C,
        assignment: &Assignment,
        first: u64,
        end: u64,
    ) -> Result<Option<u64>, Memory>
        requires some { 1 ≤ first }
        requires first { first ≤ end }
        requires end { end ≤ length assignment.now }
        ensures found { IfOk result (λ next. MatchOption next (HaveValues assignment.now 1 end)
            (IsOpenBetween assignment.now 1 end)) }
        ensures phases { self.new.phases ≡ self.old.phases }
    {
        if rule.takes_first_of_falling() {
            if let Some(var) = self.first_open(assignment, first, end)? {
                return Ok(Some(var));
            }
        }
        self.choose(rule, assignment, first, end)
    }

    /// A literal that is decided next, or None where all variables below `end` have values.
    ///
    /// The rule chooses the variable by its score. The salt breaks ties of the sign: with another one
    /// they are broken otherwise.
    pub fn next_decision<C: Choose>(
        &mut self,
        rule: &C,
        problem: &KeptProblem,
        store: &Store,
        end: u64,
        salt: u64,
    ) -> Result<Option<Lit>, Memory>
        requires laws { IsStore store.now }
        requires atoms { length problem.now.atoms < end }
        requires end { end ≤ length store.now.trail.values }
        ensures found { IfOk result (λ next. MatchOption next (HaveValues store.now.trail.values 1 end)
            (λ l. (1 ≤ l.var.0) × (l.var.0 < end) × (value_in store.now.trail.values l ≡ None))) }
    {
        let first = problem.atom_count() + 1;
        let Some(number) = self.next_variable(rule, store.assignment(), first, end)? else {
            return Ok(None);
        };
        let var = Var(number);
        let positive = self.sign(problem, store.assignment(), var, salt);
        Ok(Some(Lit { var, positive }))
    }

    /// The sign of a decision: the cheaper value, or else that of the model before, or else false where a function has
    /// another value, or else the value that was seen least.
    fn sign(
        &mut self,
        problem: &KeptProblem,
        assignment: &Assignment,
        var: Var,
        salt: u64,
    ) -> bool {
        self.costs.look(problem, assignment);
        let choice = match self.phases.choice_of(var) {
            Some(place) => Some(problem.clause(place)),
            None => None,
        };
        let led = match self.costs.sign(assignment, choice, var) {
            Some(positive) => Some(positive),
            None => self.near.sign(var),
        };
        match led {
            Some(positive) => positive,
            None => {
                !self.is_settled(problem, assignment, var)
                    && self.phases.sign(problem, assignment, var, salt)
            }
        }
    }

    /// Whether the variable is of a function with many values that is found to have one.
    fn is_settled(&mut self, problem: &KeptProblem, assignment: &Assignment, var: Var) -> bool {
        let Some(place) = self.phases.choice_of(var) else {
            return false;
        };
        let first = match self.phases.first {
            Some(first) if first.clause == place => Some(first.var),
            _ => None,
        };
        self.settled.has_value(problem, assignment, place, first)
    }

    /// Begins a search, in which nothing is decided.
    pub fn begin(&mut self) {
        self.phases.takes_back();
        self.atoms.begin();
        self.others.begin();
    }

    /// Notes that what became true above the level is to be taken back.
    pub fn takes_back(&mut self, store: &Store, level: u64)
        requires laws { IsStore store.now }
    {
        self.phases.takes_back();
        for place in (0..store.trail().len()).rev() {
            let step = store.step(place);
            if step.level <= level {
                return;
            }
            self.atoms.frees(step.lit.var.0);
            self.others.frees(step.lit.var.0);
        }
    }

    /// Raises the scores of the variables of a conflict's clause.
    pub fn raise(&mut self, lits: &[PackedLit])
        ensures { Raises lits.now self.old.scores.scores.items self.new.scores.scores.items }
    {
        for lit in lits {
            let var = lit.lit().var.0;
            let score = self.scores.score(var);
            self.atoms.raise(var, score);
            self.others.raise(var, score);
        }
        self.scores.raise(lits);
    }
}
