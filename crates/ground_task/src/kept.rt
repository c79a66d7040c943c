//! What the solver of a task keeps from one search to the next.
ghost use Rattle.std.specs.Prelude.{◌≡◌, length, IfOk, MatchOption};
ghost use Rattle.kb_logic.specs.Bases.{Base};
ghost use Rattle.clause_learning.specs.SolverState.{Forgets};
ghost use Rattle.ground_core.specs.Solving.{HasCoreWithin};
ghost use Rattle.search_log.specs.Entries.{AreEntries};
ghost use Rattle.ground_task.specs.Tasks.{IsTaskOf};

use crate::task::Task;
use chooser::Choose;
use clause_learning::Solver;
use kb_logic::Memory;
use lit_core::{ClauseList, Lit};

impl<C: Choose + Drop> Task<Solver<C>> {
    /// The clauses that were learnt, in their order. Each follows from the problem and those before it.
    pub fn learnt(&self) -> &ClauseList
        ensures { result.now ≡ self.now.solver.kept.learnt }
    {
        self.solver.learnt()
    }

    /// How many searches were begun.
    pub fn searches(&self) -> u64
        ensures { result ≡ self.now.solver.kept.searches }
    {
        self.solver.searches()
    }

    /// How many bounds and exclusions were added.
    pub fn addition_count(&self) -> usize
        ensures { result ≡ length self.now.solver.kept.additions }
    {
        self.solver.addition_count()
    }

    /// Has the solver make ready for many searches, unless it made none yet: this takes as long as some eight of them
    /// and halves each, so that a task of one search goes without. Where memory runs out searches go on as before.
    pub fn make_ready(&mut self)
        ensures { self.new ≡ self.old }
    {
        if self.solver.searches() > 0 {
            let _ = self.solver.prepare();
        }
    }

    /// Gives up what was learnt, and what was found to have no model. It stays a task of the same knowledge bases.
    pub fn forget(&mut self)
        ensures forgotten { Forgets self.old.solver self.new.solver }
        ensures numbers { self.new.numbers ≡ self.old.numbers }
        ensures task { (base : Base) → IsTaskOf base self.old.numbers self.old.solver.kept.problem
            → IsTaskOf base self.new.numbers self.new.solver.kept.problem }
    {
        self.solver.forget();
    }

    /// From now on the solver tells what it derives, as entries of a log. To be called before the first search.
    pub fn keep_log(&mut self) -> Result<(), Memory>
        ensures { self.new ≡ self.old }
    {
        self.solver.keep_log()
    }

    /// The texts of the entries that the solver left since they were given up: those of its search, no marks and no
    /// claims.
    pub fn entries(&self) -> &[u8]
        ensures { AreEntries result.now }
    {
        self.solver.entries()
    }

    /// Gives these up.
    pub fn clear_entries(&mut self)
        ensures kept { self.new.solver.kept ≡ self.old.solver.kept }
        ensures numbers { self.new.numbers ≡ self.old.numbers }
    {
        self.solver.clear_entries();
    }

    /// The number that the log has for a clause by which the literals are not all true, where a core is among them.
    pub fn clause_of(&self, lits: &[Lit]) -> Result<Option<u64>, Memory>
        ensures { IfOk result (λ found. MatchOption found (HasCoreWithin self.now.solver.kept.cores lits.now → ⊥)
            (λ number. HasCoreWithin self.now.solver.kept.cores lits.now)) }
    {
        self.solver.clause_of(lits)
    }

    /// The selector of the bound that was added last.
    pub fn last_bound(&self) -> Option<Lit> {
        self.solver.last_bound()
    }
}
