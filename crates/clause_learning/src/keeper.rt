//! A search engine with the cores that it found.
ghost use Rattle.std.specs.Prelude.{◌≡◌, ◌≤◌, ◌<◌, ◌+◌, ◌^◌, ℕ, [], length, Contains, IfOk, IfErr, OnErr};
ghost use Rattle.ground_core.specs.declared.solving.Halt.TheVariants as halt;
ghost use Rattle.ground_core.specs.Problems.{AreLitsOf};
ghost use Rattle.ground_core.specs.Solving.{Answers, HaltedAt, HasCoreWithin, IsBudgetOf, IsKnown, KeepsCores, Spends};
ghost use Rattle.ground_core.specs.Solving.{counted};
ghost use Rattle.ground_core.specs.Growth.{next_lit};
ghost use Rattle.ground_core.specs.Growing.{HasValue, IsSelector, bounded, excluded, retired};
ghost use Rattle.ground_core.specs.Meaning.{Satisfies};
ghost use Rattle.lit_core.specs.Literals.{valuation};
ghost use Rattle.clause_learning.specs.Keeping.{AnswersWidened, IsKeeper, IsMost, IsNewRefusal, IsNewKeeper, IsWidened};
ghost use Rattle.clause_learning.specs.Keeping.{SameCounts, SameKeeping};
ghost use Rattle.clause_learning.specs.Keeping.{kept_of};
ghost use Rattle.search_log.specs.Entries.{Grows};

use crate::core_index::CoreIndex;
use crate::live_bounds::{give_up, narrowed, outputs_of_wider};
use chooser::Choose;
use ground_core::{Addition, Budget, Halt, Memory, TermBound, Verdict};
use kb_logic::ExtInt;
use lit_core::{Lit, Values};
use search_engine::Engine;
use std::alloc::Global;
use term_bounds::value_of;

/// An engine, and the cores of its answers.
#[derive(Drop)]
pub struct Keeper {
    pub alloc: Global,
    pub engine: Engine,
    pub index: CoreIndex,
    /// What was added under selectors, in order.
    pub additions: Vec<Addition>,
    /// Bounds whose outputs stand nowhere else, and are not retired.
    pub live: Vec<TermBound>,
}

/// How long the learnt list may become, which has so many clauses now; None where no number of 64
/// bits limits it.
fn most_of(known: usize, budget: &Budget) -> Option<u64>
    requires { budget.now.spent ≤ known }
    ensures { IsMost known budget.now result }
{
    match budget.limit {
        Some(limit) => limit.checked_add(known as u64 - budget.spent),
        None => None,
    }
}

impl Keeper {
    /// No variables, and nothing said.
    pub fn new(alloc: Global) -> Result<Keeper, Memory>
        ensures keeper { IfOk result IsKeeper }
        ensures empty { IfOk result IsNewKeeper }
    {
        Ok(Keeper {
            alloc,
            engine: Engine::new(alloc)?,
            index: CoreIndex::new(alloc),
            additions: Vec::new(alloc),
            live: Vec::new(alloc),
        })
    }

    /// Searches within the budget.
    fn search<C: Choose>(
        &mut self,
        rule: &C,
        assume: &[Lit],
        budget: &mut Budget,
    ) -> Result<Verdict, Halt>
        requires keeper { IsKeeper self.old }
        requires literals { AreLitsOf self.old.engine.problem.vars assume.now }
        requires budget { IsBudgetOf self.old.engine.learnt budget.old }
        ensures keeper { IsKeeper self.new }
        ensures index { self.new.index ≡ self.old.index }
        ensures additions { self.new.additions ≡ self.old.additions }
        ensures live { self.new.live ≡ self.old.live }
        ensures verdict { IfOk result (Answers self.old.engine.problem assume.now) }
        ensures halt { IfErr result (HaltedAt budget.new) }
        ensures problem { self.new.engine.problem ≡ self.old.engine.problem }
        ensures searches { self.new.engine.searches ≡ counted (self.old.engine.searches + 1) }
        ensures spends { Spends (kept_of self.old) (kept_of self.new) budget.old budget.new }
        ensures counted { length self.new.engine.learnt ≤ length self.old.engine.learnt + self.new.engine.conflicts }
        ensures fewer { self.new.engine.conflicts < 2 ^ (kept_of self.old).free }
    {
        let before = self.engine.learnt.len();
        let verdict = self.engine.solve(rule, assume, most_of(before, budget));
        let after = self.engine.learnt.len();
        budget.spent += (after - before) as u64;
        verdict
    }

    /// What is assumed, and the outputs of bounds that follow from it.
    fn widened(&self, assume: &[Lit]) -> Result<Vec<Lit>, Memory>
        requires keeper { IsKeeper self.now }
        requires literals { AreLitsOf self.now.engine.problem.vars assume.now }
        ensures widened { IfOk result (λ list. IsWidened self.now assume.now list.items) }
        ensures literals { IfOk result (λ list. AreLitsOf self.now.engine.problem.vars list.items) }
    {
        let more = outputs_of_wider(self.alloc, self.live.as_slice(), assume)?;
        let mut list = Vec::from_slice(self.alloc, assume)?;
        list.extend_from_slice(more.as_slice())?;
        Ok(list)
    }

    /// The answer on what is assumed, from that on more.
    fn narrow(&self, assume: &[Lit], verdict: Verdict) -> Result<Verdict, Memory>
        requires keeper { IsKeeper self.now }
        requires answers { AnswersWidened self.now assume.now verdict }
        ensures { IfOk result (Answers self.now.engine.problem assume.now) }
    {
        match verdict {
            Verdict::Sat(values) => Ok(Verdict::Sat(values)),
            Verdict::Unsat(core) => Ok(Verdict::Unsat(narrowed(
                self.alloc,
                self.live.as_slice(),
                assume,
                core.as_slice(),
            )?)),
        }
    }

    /// Searches within the budget, where bounds that follow from what is assumed are assumed, too.
    fn search_widened<C: Choose>(
        &mut self,
        rule: &C,
        assume: &[Lit],
        budget: &mut Budget,
    ) -> Result<Verdict, Halt>
        requires keeper { IsKeeper self.old }
        requires literals { AreLitsOf self.old.engine.problem.vars assume.now }
        requires budget { IsBudgetOf self.old.engine.learnt budget.old }
        ensures keeper { IsKeeper self.new }
        ensures index { self.new.index ≡ self.old.index }
        ensures additions { self.new.additions ≡ self.old.additions }
        ensures verdict { IfOk result (Answers self.old.engine.problem assume.now) }
        ensures halt { IfErr result (HaltedAt budget.new) }
        ensures problem { self.new.engine.problem ≡ self.old.engine.problem }
        ensures searches { self.new.engine.searches ≡ counted (self.old.engine.searches + 1) }
        ensures spends { Spends (kept_of self.old) (kept_of self.new) budget.old budget.new }
        ensures counted { length self.new.engine.learnt ≤ length self.old.engine.learnt + self.new.engine.conflicts }
        ensures fewer { self.new.engine.conflicts < 2 ^ (kept_of self.old).free }
    {
        let Ok(list) = self.widened(assume) else {
            self.engine.count_search();
            return Err(Halt::Memory);
        };
        match self.search(rule, list.as_slice(), budget) {
            Ok(verdict) => {
                let Ok(answer) = self.narrow(assume, verdict) else {
                    return Err(Halt::Memory);
                };
                Ok(answer)
            }
            Err(halt) => Err(halt),
        }
    }

    /// Keeps the core of an answer.
    fn keep(&mut self, verdict: Verdict) -> Result<Verdict, Halt>
        requires keeper { IsKeeper self.old }
        requires new { IsNewRefusal self.old verdict }
        ensures keeper { IsKeeper self.new }
        ensures engine { self.new.engine ≡ self.old.engine }
        ensures additions { self.new.additions ≡ self.old.additions }
        ensures same { IfOk result (λ answer. answer ≡ verdict) }
        ensures halt { IfErr result (λ stop. stop ≡ halt.Memory) }
        ensures cores { KeepsCores self.old.index.cores.items result self.new.index.cores.items }
    {
        match verdict {
            Verdict::Sat(values) => Ok(Verdict::Sat(values)),
            Verdict::Unsat(core) => {
                let number = self.engine.log.refutation();
                match self.index.keep(self.alloc, core.as_slice(), number) {
                    Ok(()) => Ok(Verdict::Unsat(core)),
                    Err(_) => Err(Halt::Memory),
                }
            }
        }
    }

    /// Answers from a kept core where one is contained in the assumptions, and searches where none is.
    pub fn solve<C: Choose>(
        &mut self,
        rule: &C,
        assume: &[Lit],
        budget: &mut Budget,
    ) -> Result<Verdict, Halt>
        requires keeper { IsKeeper self.old }
        requires literals { AreLitsOf self.old.engine.problem.vars assume.now }
        requires budget { IsBudgetOf self.old.engine.learnt budget.old }
        ensures keeper { IsKeeper self.new }
        ensures verdict { IfOk result (Answers self.old.engine.problem assume.now) }
        ensures halt { IfErr result (HaltedAt budget.new) }
        ensures problem { self.new.engine.problem ≡ self.old.engine.problem }
        ensures additions { self.new.additions ≡ self.old.additions }
        ensures searches { self.new.engine.searches ≡ counted (self.old.engine.searches + 1) }
        ensures spends { Spends (kept_of self.old) (kept_of self.new) budget.old budget.new }
        ensures cores { KeepsCores self.old.index.cores.items result self.new.index.cores.items }
        ensures decided { HasCoreWithin self.old.index.cores.items assume.now
            → IsKnown self.old.engine.learnt self.new.engine.learnt budget.old budget.new result }
        ensures counted { length self.new.engine.learnt ≤ length self.old.engine.learnt + self.new.engine.conflicts }
        ensures fewer { self.new.engine.conflicts < 2 ^ (kept_of self.old).free }
    {
        match self.index.contained(self.alloc, assume) {
            Ok(None) => match self.search_widened(rule, assume, budget) {
                Ok(verdict) => self.keep(verdict),
                Err(halt) => Err(halt),
            },
            Ok(Some(core)) => {
                self.engine.count_search();
                Ok(Verdict::Unsat(core))
            }
            Err(_) => {
                self.engine.count_search();
                Err(Halt::Memory)
            }
        }
    }

    /// Adds a selector under which the ground atoms differ from these values somewhere.
    pub fn exclude(&mut self, values: &Values) -> Result<Lit, Memory>
        requires keeper { IsKeeper self.old }
        requires atoms { length self.old.engine.problem.atoms < length values.now }
        ensures keeper { IsKeeper self.new }
        ensures ok { IfOk result (λ out. (out ≡ next_lit self.old.engine.problem)
            × (kept_of self.new ≡ excluded (kept_of self.old) values.now)) }
        ensures err { OnErr result (SameKeeping self.old self.new) }
        ensures counts { SameCounts self.old self.new }
        ensures says { Grows self.old.engine.log.entries self.new.engine.log.entries }
    {
        let copy = values.copy(self.alloc)?;
        self.additions.reserve(1)?;
        let out = self.engine.exclude(values)?;
        self.additions.push_reserved(Addition::Exclusion(copy));
        Ok(out)
    }

    /// The term's value under values that satisfy the problem.
    pub fn value(&self, term: u32, values: &Values) -> ExtInt
        requires keeper { IsKeeper self.now }
        requires term { term < length self.now.engine.problem.terms }
        requires satisfied { Satisfies self.now.engine.problem (valuation values.now) }
        ensures { HasValue self.now.engine.problem term (valuation values.now) result }
    {
        let terms = self.engine.problem.terms();
        value_of(&terms[term as usize], values)
    }

    /// Adds a selector under which the term is below the number.
    pub fn bound(&mut self, term: u32, below: ExtInt) -> Result<Lit, Memory>
        requires keeper { IsKeeper self.old }
        requires term { term < length self.old.engine.problem.terms }
        ensures keeper { IsKeeper self.new }
        ensures ok { IfOk result (λ out. (out ≡ next_lit self.old.engine.problem)
            × (kept_of self.new ≡ bounded (kept_of self.old) term below)) }
        ensures err { OnErr result (SameKeeping self.old self.new) }
        ensures counts { SameCounts self.old self.new }
        ensures says { Grows self.old.engine.log.entries self.new.engine.log.entries }
    {
        self.additions.reserve(1)?;
        self.live.reserve(1)?;
        let out = self.engine.bound(term, below)?;
        self.additions.push_reserved(Addition::Bound(term, below));
        self.live.push_reserved(TermBound { out, term, below });
        Ok(out)
    }

    /// Makes a selector false for good.
    pub fn retire(&mut self, selector: Lit)
        requires keeper { IsKeeper self.old }
        requires selector { IsSelector self.old.engine.problem selector }
        ensures keeper { IsKeeper self.new }
        ensures already { Contains self.old.engine.problem.retired selector → kept_of self.new ≡ kept_of self.old }
        ensures retired { (Contains self.old.engine.problem.retired selector → ⊥)
            → kept_of self.new ≡ retired (kept_of self.old) selector }
        ensures counts { SameCounts self.old self.new }
        ensures log { self.new.engine.log ≡ self.old.engine.log }
    {
        self.engine.retire(selector);
        give_up(&mut self.live, selector);
    }
}
