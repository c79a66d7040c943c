//! The solver that callers keep.
ghost use Rattle.std.specs.Prelude.{◌≡◌, ◌≤◌, ◌<◌, ◌+◌, ◌^◌, ℕ, [], length, Contains, IfOk, IfErr, OnOk, OnErr};
ghost use Rattle.std.specs.Prelude.{MatchOption};
ghost use Rattle.ground_core.specs.Problems.{AreLitsOf};
ghost use Rattle.ground_core.specs.Solving.{Answers, AreUnretired, HaltedAt, HasCoreWithin, IsBudgetOf, IsKept};
ghost use Rattle.ground_core.specs.Solving.{IsKnown, KeepsCores, Spends, counted};
ghost use Rattle.ground_core.specs.Growth.{next_lit};
ghost use Rattle.ground_core.specs.Growing.{IsSelector, bounded, excluded, retired};
ghost use Rattle.ground_core.specs.Meaning.{HasTermsInRange};
ghost use Rattle.kb_logic.specs.declared.elements.ExtInt.TheVariants.{NegInf};
ghost use Rattle.search_engine.specs.Joining.{CanJoin};
ghost use Rattle.clause_learning.specs.GoingOn.{GoesOn};
ghost use Rattle.clause_learning.specs.SolverState.{AddsProblem, Forgets, IsSolver, SameCounts, empty_solver};
ghost use Rattle.clause_learning.specs.SolverState.{last_output, without_entries};
ghost use Rattle.search_log.specs.Entries.{AreEntries, Grows};

use crate::keeper::Keeper;
use chooser::Choose;
use ground_core::{Budget, Grow, Halt, LitList, Memory, Problem, Solve, Verdict};
use kb_logic::ExtInt;
use lit_core::{ClauseList, Lit, Values};
use std::alloc::Global;
use std::marker::Model;

/// A solver that keeps a problem, the clauses that it learnt of it, and the cores that it found.
///
/// It decides what is assumed, each at a level of its own, and then an unassigned ground atom, or where there is none,
/// one of the other variables: the one that its rule chooses of all of these, listed with their scores in the order of
/// their numbers. A rule that takes the first of falling scores is not asked: the first variable by falling score is
/// decided, and of equal scores the one that rose first. A conflict raises the score of each variable of its false
/// clause by 1.
///
/// From a conflict it learns the clause of the first unique implication point without those literals that the others
/// make false by one reason, if that clause still says something new once all else is propagated, and goes back to
/// where it is unit. There are no restarts. What follows without assumptions stays assigned between searches, and so
/// do the watches.
#[derive(Drop)]
pub struct Solver<C: Choose + Drop> {
    keeper: Keeper,
    rule: C,
}

impl<C: Choose + Drop> Model for Solver<C> {
    ghost use Rattle.clause_learning.specs.SolverState.{SolverState};

    ghost Value = { SolverState };

    ghost use Rattle.clause_learning.specs.SolverFields.{state_of};
    ghost use Rattle.clause_learning.specs.Keeping.{IsKeeper};

    ghost view = { λ s. state_of s.keeper };

    ghost invariant = { λ s. IsKeeper s.keeper };
}

impl<C: Choose + Drop> Solver<C> {
    /// The solver of no variables, for which nothing is said, and which decides by this rule.
    pub fn new(alloc: Global, rule: C) -> Result<Solver<C>, Memory>
        ensures value { IfOk result (λ s. s ≡ empty_solver) }
        ensures laws { IfOk result IsSolver }
    {
        Ok(Solver {
            keeper: Keeper::new(alloc)?,
            rule,
        })
    }

    /// Says all that another problem says, too, whose terms stay in range. It has no bounds: they are added under
    /// selectors.
    pub fn add_problem(&mut self, more: &Problem) -> Result<(), Memory>
        requires can { CanJoin self.old.kept.problem more.now }
        requires bounds { more.now.bounds ≡ [] }
        requires range { HasTermsInRange more.now }
        ensures ok { OnOk result (AddsProblem self.old more.now self.new) }
        ensures err { OnErr result (self.new ≡ self.old) }
        ensures laws { IsSolver self.new }
    {
        // What is added may name their outputs.
        self.keeper.live.clear();
        self.keeper.engine.add_problem(more)
    }

    /// The clauses that were learnt, in order.
    pub fn learnt(&self) -> &ClauseList
        ensures value { result.now ≡ self.now.kept.learnt }
        ensures laws { IsSolver self.now }
    {
        &self.keeper.engine.learnt
    }

    /// The cores that were kept, in order.
    pub fn cores(&self) -> &[LitList]
        ensures value { result.now ≡ self.now.kept.cores }
        ensures laws { IsSolver self.now }
    {
        &self.keeper.index.cores
    }

    /// How many searches were begun.
    pub fn searches(&self) -> u64
        ensures value { result ≡ self.now.kept.searches }
        ensures laws { IsSolver self.now }
    {
        self.keeper.engine.searches
    }

    /// How many bounds and exclusions were added.
    pub fn addition_count(&self) -> usize
        ensures value { result ≡ length self.now.kept.additions }
        ensures laws { IsSolver self.now }
    {
        self.keeper.additions.len()
    }

    /// How many conflicts the last search met above level 0.
    pub fn conflicts(&self) -> u64
        ensures value { result ≡ self.now.conflicts }
        ensures laws { IsSolver self.now }
    {
        self.keeper.engine.conflicts
    }

    /// How many conflicts the last search met at level 0.
    pub fn root_conflicts(&self) -> u64
        ensures value { result ≡ self.now.root_conflicts }
        ensures laws { IsSolver self.now }
    {
        self.keeper.engine.root_conflicts
    }

    /// Keeps a log from now on. It is of the problem as it is now: to be called once, right after `add_problem`.
    pub fn keep_log(&mut self) -> Result<(), Memory>
        ensures same { self.new ≡ self.old }
        ensures laws { IsSolver self.new }
    {
        let count = self.keeper.engine.store.len();
        self.keeper.engine.log.begin(count)
    }

    /// The bytes of the log's entries since they were last taken away.
    pub fn entries(&self) -> &[u8]
        ensures value { result.now ≡ self.now.entries }
        ensures texts { AreEntries self.now.entries }
    {
        self.keeper.engine.log.entries()
    }

    /// Takes the log's entries away.
    pub fn clear_entries(&mut self)
        ensures cleared { self.new ≡ without_entries self.old }
        ensures laws { IsSolver self.new }
    {
        self.keeper.engine.log.clear();
    }

    /// The number of the clause in the log that says why nothing makes the literals true, where the literals contain a
    /// kept core. It has negations of the core's literals and, where a bound was assumed, of wider bounds' selectors.
    /// The number is 0 where the core has a literal with its negation.
    pub fn clause_of(&self, lits: &[Lit]) -> Result<Option<u64>, Memory>
        ensures { IfOk result (λ found. MatchOption found (HasCoreWithin self.now.kept.cores lits.now → ⊥)
            (λ number. HasCoreWithin self.now.kept.cores lits.now)) }
    {
        self.keeper.index.number_within(self.keeper.alloc, lits)
    }

    /// The selector of the bound that was added last.
    pub fn last_bound(&self) -> Option<Lit>
        ensures { result ≡ last_output self.now.kept.problem.bounds }
    {
        match self.keeper.engine.problem.bounds().last() {
            Some(bound) => Some(bound.out),
            None => None,
        }
    }

    /// Lists the short clauses that are held, for a caller that asks many questions: a search then reads them in order,
    /// which takes less than half of the time on problems with many of them. This call takes as long as some eight
    /// searches. Where memory runs out searches go on as before.
    pub fn prepare(&mut self) -> Result<(), Memory>
        ensures same { self.new ≡ self.old }
        ensures laws { IsSolver self.new }
    {
        self.keeper.engine.prepare()
    }

    /// Gives up what was learnt, and the kept cores.
    pub fn forget(&mut self)
        ensures forgotten { Forgets self.old self.new }
        ensures laws { IsSolver self.new }
    {
        self.keeper.engine.forget();
        self.keeper.index.clear();
    }
}

impl<C: Choose + Drop> Solve for Solver<C> {
    ghost use Rattle.clause_learning.specs.GoingOn.{GoesOn, goes-itself, goes-twice};

    ghost state = { λ s. s.kept };

    ghost goes_on = { λ s t. GoesOn s.kept t.kept };

    fn known(&self) {
        let _searches = self.keeper.engine.searches;
    }

    fn solve(&mut self, assume: &[Lit], budget: &mut Budget) -> Result<Verdict, Halt>
        requires literals { AreLitsOf self.old.kept.problem.vars assume.now }
        requires unretired { AreUnretired self.old.kept.problem assume.now }
        requires budget { IsBudgetOf self.old.kept.learnt budget.old }
        ensures verdict { IfOk result (Answers self.old.kept.problem assume.now) }
        ensures halt { IfErr result (HaltedAt budget.new) }
        ensures problem { self.new.kept.problem ≡ self.old.kept.problem }
        ensures additions { self.new.kept.additions ≡ self.old.kept.additions }
        ensures free { self.new.kept.free ≡ self.old.kept.free }
        ensures searches { self.new.kept.searches ≡ counted (self.old.kept.searches + 1) }
        ensures spends { Spends self.old.kept self.new.kept budget.old budget.new }
        ensures cores { KeepsCores self.old.kept.cores result self.new.kept.cores }
        ensures decided { HasCoreWithin self.old.kept.cores assume.now
            → IsKnown self.old.kept.learnt self.new.kept.learnt budget.old budget.new result }
        ensures kept { IsKept self.new.kept }
        ensures later { GoesOn self.old.kept self.new.kept }
        ensures counted { length self.new.kept.learnt ≤ length self.old.kept.learnt + self.new.conflicts }
        ensures fewer { self.new.conflicts < 2 ^ self.old.kept.free }
        ensures once { self.new.root_conflicts ≤ 1 }
        ensures laws { IsSolver self.new }
    {
        self.keeper.solve(&self.rule, assume, budget)
    }

    ghost goes_on_itself = { λ s. goes-itself s.kept };

    ghost goes_on_twice = { λ r s t a b. goes-twice r.kept s.kept t.kept a b };
}

impl<C: Choose + Drop> Grow for Solver<C> {
    fn value(&self, term: u32, values: &Values) -> ExtInt {
        self.keeper.value(term, values)
    }

    fn bound(&mut self, term: u32, below: ExtInt) -> Result<Lit, Memory>
        requires term { term < length self.old.kept.problem.terms }
        requires below { below ≡ NegInf → ⊥ }
        ensures ok { IfOk result (λ out. (out ≡ next_lit self.old.kept.problem)
            × (self.new.kept ≡ bounded self.old.kept term below)) }
        ensures err { OnErr result (self.new ≡ self.old) }
        ensures kept { IsKept self.new.kept }
        ensures later { GoesOn self.old.kept self.new.kept }
        ensures counts { SameCounts self.old self.new }
        ensures entries { Grows self.old.entries self.new.entries }
        ensures laws { IsSolver self.new }
    {
        self.keeper.bound(term, below)
    }

    fn exclude(&mut self, values: &Values) -> Result<Lit, Memory>
        requires atoms { length self.old.kept.problem.atoms < length values.now }
        ensures ok { IfOk result (λ out. (out ≡ next_lit self.old.kept.problem)
            × (self.new.kept ≡ excluded self.old.kept values.now)) }
        ensures err { OnErr result (self.new ≡ self.old) }
        ensures kept { IsKept self.new.kept }
        ensures later { GoesOn self.old.kept self.new.kept }
        ensures counts { SameCounts self.old self.new }
        ensures entries { Grows self.old.entries self.new.entries }
        ensures laws { IsSolver self.new }
    {
        self.keeper.exclude(values)
    }

    fn retire(&mut self, selector: Lit)
        requires selector { IsSelector self.old.kept.problem selector }
        ensures already { Contains self.old.kept.problem.retired selector → self.new.kept ≡ self.old.kept }
        ensures retired { (Contains self.old.kept.problem.retired selector → ⊥)
            → self.new.kept ≡ retired self.old.kept selector }
        ensures kept { IsKept self.new.kept }
        ensures later { GoesOn self.old.kept self.new.kept }
        ensures counts { SameCounts self.old self.new }
        ensures entries { self.new.entries ≡ self.old.entries }
        ensures laws { IsSolver self.new }
    {
        self.keeper.retire(selector);
    }
}
