//! Learning from conflicts.
ghost use Rattle.std.specs.Prelude.{◌≡◌, ℕ, ◌+◌, ◌≤◌, Some, None, length, IfOk, OnOk, MatchOption};
ghost use Rattle.clause_store.specs.StoreState.{IsConflict, IsQuiet};
ghost use Rattle.search_engine.specs.Searching.{Continues, Extends, IsFirstAssigned, IsFirstOpen, IsLesson, IsLevelOf};
ghost use Rattle.search_engine.specs.Searching.{IsSearch};
ghost use Rattle.search_engine.specs.Searching.{KeepsAssumed, LessonGives, SameCounts, SettleGives, StandsAt};
ghost use Rattle.search_engine.specs.Searching.{TurnGives};

use crate::levels::conflict_level;
use crate::noting::note_refuted;
use crate::passing::give_back;
use clause_store::Store;
use conflict_analysis::{Analysis, analyse};
use ground_core::{Memory, Moment};
use kept_problem::KeptProblem;
use lit_core::{ClauseList, Lit};
use search_decisions::Decider;
use search_log::SearchLog;
use std::alloc::Global;
use sum_ledger::Ledger;

/// What became of a conflict.
#[derive(Clone, Copy, PartialEq, Eq)]
pub enum Turn {
    /// The problem is refuted.
    Refuted,
    /// This clause is false now.
    Conflict(u64),
    /// A literal follows in place of a decision.
    Follows,
}

/// A problem, the clauses that are held of it, and the state of a search.
#[derive(Drop)]
pub struct Engine {
    pub alloc: Global,
    pub problem: KeptProblem,
    pub store: Store,
    pub learnt: ClauseList,
    /// When each of them was learnt.
    pub moments: Vec<Moment>,
    /// The numbers of the learnt clauses in the store.
    pub ids: Vec<u64>,
    /// The numbers of the clauses of constraints that this search holds, each as long as a literal is true by it.
    pub passing: Vec<u64>,
    pub decider: Decider,
    /// Which constraints on sums are asked.
    pub ledger: Ledger,
    /// What is stated of the problem on the way, where that is asked for.
    pub log: SearchLog,
    /// How many searches were begun.
    pub searches: u64,
    /// How many clauses had been learnt when the search began.
    pub known: usize,
    /// How many conflicts the search met above level 0.
    pub conflicts: u64,
    /// How many it met at level 0.
    pub root_conflicts: u64,
    /// The assumptions before this place are true.
    pub assumed: usize,
    /// How many of the retired selectors are false by a held clause of their own.
    pub closed: usize,
    /// How many literals followed when the search began.
    pub base: usize,
}

impl Engine {
    /// States that the problem is refuted by a clause that is false at level 0, and goes back to there.
    fn refute(&mut self, conflict: u64) -> Result<(), Memory>
        requires search { IsSearch self.old }
        requires level { IsLevelOf self.old.store conflict 0 }
        ensures search { IsSearch self.new }
        ensures same { Continues self.old self.new }
        ensures decisions { KeepsAssumed self.old.store.trail.steps self.new.store.trail.steps }
        ensures learnt { self.new.learnt ≡ self.old.learnt }
        ensures counts { SameCounts self.old self.new }
    {
        self.store.back_to(0);
        note_refuted(self.alloc, &mut self.log, &self.store, conflict)
    }

    /// Learns from a false clause, and goes back to where the learnt clause is unit.
    ///
    /// The false clause may be false at a lower level already.
    fn learn_from(&mut self, conflict: u64) -> Result<Option<Analysis>, Memory>
        requires search { IsSearch self.old }
        requires conflict { IsConflict self.old.store conflict }
        requires unrefuted { self.old.root_conflicts ≡ 0 }
        requires stands { StandsAt self.old 0 }
        ensures search { IsSearch self.new }
        ensures same { Continues self.old self.new }
        ensures decisions { KeepsAssumed self.old.store.trail.steps self.new.store.trail.steps }
        ensures assumed { self.new.assumed ≡ 0 }
        ensures learnt { self.new.learnt ≡ self.old.learnt }
        ensures lesson { IfOk result (λ lesson. MatchOption lesson (LessonGives self.old self.new None)
            (λ a. LessonGives self.old self.new (Some a.clause.items))) }
    {
        let level = conflict_level(&self.store, conflict);
        self.assumed = 0;
        if level == 0 {
            self.refute(conflict)?;
            self.root_conflicts += 1;
            return Ok(None);
        }
        self.decider.raise(self.store.lend(conflict));
        self.decider.takes_back(&self.store, level);
        self.ledger.take_back(&self.store, level);
        self.store.back_to(level);
        let analysis = analyse(self.alloc, &self.store, conflict)?;
        self.conflicts = self.conflicts.saturating_add(1);
        self.decider.takes_back(&self.store, analysis.level);
        self.ledger.take_back(&self.store, analysis.level);
        self.store.back_to(analysis.level);
        give_back(&mut self.store, &mut self.passing);
        Ok(Some(analysis))
    }

    /// Holds a clause that is unit and follows in order from held ones, and makes its first literal true.
    fn learn(&mut self, clause: &[Lit], hints: &[u64]) -> Result<(), Memory>
        requires search { IsSearch self.old }
        requires quiet { IsQuiet self.old.store }
        requires lesson { IsLesson self.old clause.now }
        requires first { IsFirstOpen self.old.store.trail.values clause.now }
        ensures search { IsSearch self.new }
        ensures same { Continues self.old self.new }
        ensures counts { SameCounts self.old self.new }
        ensures steps { Extends self.old.store.trail.steps self.new.store.trail.steps }
        ensures one { length self.new.learnt ≤ length self.old.learnt + 1 }
        ensures first { OnOk result (IsFirstAssigned self.new.store.trail.values clause.now) }
    {
        self.store.reserve_clause(clause.len())?;
        self.ids.reserve(1)?;
        self.moments.reserve(1)?;
        self.log.learnt(self.store.len() as u64, clause, hints)?;
        self.learnt.push(clause)?;
        let _count = self.learnt.len();
        let id = match self.store.push_clause(clause) {
            Ok(id) => id,
            Err(_) => unreachable!(),
        };
        self.ids.push_reserved(id);
        self.moments.push_reserved(self.problem.moment());
        self.store.assign(clause[0], Some(id));
        Ok(())
    }

    /// Learns the clause, unless its first literal has got a value.
    fn learn_if_open(&mut self, clause: &[Lit], hints: &[u64]) -> Result<(), Memory>
        requires search { IsSearch self.old }
        requires quiet { IsQuiet self.old.store }
        requires lesson { IsLesson self.old clause.now }
        ensures search { IsSearch self.new }
        ensures same { Continues self.old self.new }
        ensures counts { SameCounts self.old self.new }
        ensures steps { Extends self.old.store.trail.steps self.new.store.trail.steps }
        ensures one { length self.new.learnt ≤ length self.old.learnt + 1 }
        ensures first { OnOk result (IsFirstAssigned self.new.store.trail.values clause.now) }
    {
        match self.store.assignment().value(clause[0]) {
            Some(_) => Ok(()),
            None => self.learn(clause, hints),
        }
    }

    /// Learns from a conflict, and makes true what follows after the backtrack.
    ///
    /// The learnt clause is fresh where its first literal is still unassigned once the others
    /// were propagated without it.
    fn handle_conflict(&mut self, conflict: u64) -> Result<Turn, Memory>
        requires search { IsSearch self.old }
        requires conflict { IsConflict self.old.store conflict }
        requires unrefuted { self.old.root_conflicts ≡ 0 }
        requires stands { StandsAt self.old 0 }
        ensures search { IsSearch self.new }
        ensures same { Continues self.old self.new }
        ensures decisions { KeepsAssumed self.old.store.trail.steps self.new.store.trail.steps }
        ensures assumed { self.new.assumed ≡ 0 }
        ensures one { length self.new.learnt ≤ length self.old.learnt + 1 }
        ensures turn { IfOk result (TurnGives self.old self.new) }
    {
        let Some(analysis) = self.learn_from(conflict)? else {
            return Ok(Turn::Refuted);
        };
        // Without the clause first: what is false then is learnt from in its turn, and only where nothing
        // is does the clause say something new.
        match self.store.propagate() {
            Some(next) => Ok(Turn::Conflict(next)),
            None => {
                self.learn_if_open(&analysis.clause, &analysis.hints)?;
                Ok(Turn::Follows)
            }
        }
    }

    /// Learns from a conflict and from those that it leads to; answers whether the search goes on.
    pub fn settle(&mut self, first: u64) -> Result<bool, Memory>
        requires search { IsSearch self.old }
        requires conflict { IsConflict self.old.store first }
        requires unrefuted { self.old.root_conflicts ≡ 0 }
        requires stands { StandsAt self.old 0 }
        ensures search { IsSearch self.new }
        ensures same { Continues self.old self.new }
        ensures decisions { KeepsAssumed self.old.store.trail.steps self.new.store.trail.steps }
        ensures assumed { self.new.assumed ≡ 0 }
        ensures one { length self.new.learnt ≤ length self.old.learnt + 1 }
        ensures settled { IfOk result (SettleGives self.old self.new) }
    {
        let mut conflict = first;
        // Each conflict takes back a level, so this ends.
        loop {
            match self.handle_conflict(conflict)? {
                Turn::Refuted => return Ok(false),
                Turn::Conflict(next) => conflict = next,
                Turn::Follows => return Ok(true),
            }
        }
    }
}
