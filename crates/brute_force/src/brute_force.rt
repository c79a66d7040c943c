//! A solver that tries all valuations: the meaning of `Solve` on small problems.
ghost use Rattle.std.specs.Prelude.{◌≡◌, ◌+◌, ◌<◌, [], length, IsTrue, IfOk, true, false};
ghost use Rattle.lit_core.specs.Literals.{valuation};
ghost use Rattle.ground_core.specs.Problems.{AreLitsOf};
ghost use Rattle.ground_core.specs.Meaning.{HasTermsInRange, Satisfies, MakesTrue};
ghost use Rattle.brute_force.specs.Trials.{KeepsBelow, NoneFrom};

use crate::cores::has_core_within;
use crate::evaluation::makes_true;
use crate::kept::Kept;
use ground_core::{Addition, Budget, Grow, Halt, LitList, Memory, Problem, Solve, Verdict};
use kb_logic::{ExtInt, ListOf};
use lit_core::{Lit, Values};
use std::alloc::Global;
use std::marker::Model;

/// Tries all valuations of a problem. It learns nothing, and takes time exponential in the number of variables.
#[derive(Drop)]
pub struct BruteForce {
    alloc: Global,
    kept: Kept,
    cores: ListOf<LitList>,
    searches: u64,
    additions: Vec<Addition>,
}

impl Model for BruteForce {
    ghost use Rattle.brute_force.specs.Trials.{TrialState};

    ghost Value = { TrialState };

    ghost use Rattle.brute_force.specs.TrialFields.{state_of, IsTrial};

    ghost view = { state_of };

    ghost invariant = { IsTrial };
}

impl BruteForce {
    /// A solver of this problem, whose terms stay in range.
    pub fn new(alloc: Global, problem: Problem) -> Result<BruteForce, Memory>
        requires bounds { problem.bounds ≡ [] }
        requires range { HasTermsInRange problem }
        requires retired { problem.retired ≡ [] }
        ensures { IfOk result (λ s. s ≡ record { problem = problem; cores = []; searches = 0; additions = [] }) }
    {
        Ok(BruteForce {
            alloc,
            kept: Kept::new(alloc, problem)?,
            cores: ListOf::new(alloc),
            searches: 0,
            additions: Vec::new(alloc),
        })
    }
}

/// Tries all values of the variables from `from` on, and leaves those that satisfy the problem and the literals.
fn try_from(problem: &Kept, assume: &[Lit], values: &mut [bool], from: usize) -> bool
    requires literals { AreLitsOf problem.now.vars assume.now }
    requires size { length values.old ≡ problem.now.vars + 1 }
    ensures found { IsTrue result → Satisfies problem.now (valuation values.new) × MakesTrue
        (valuation values.new) assume.now }
    ensures kept { KeepsBelow from values.old values.new }
    ensures none { result ≡ false → NoneFrom problem.now assume.now from values.old }
{
    if from >= values.len() {
        return problem.is_satisfied(values) && makes_true(values, assume);
    }
    values[from] = false;
    if try_from(problem, assume, values, from + 1) {
        return true;
    }
    values[from] = true;
    try_from(problem, assume, values, from + 1)
}

impl Solve for BruteForce {
    ghost use Rattle.brute_force.specs.Trials.{solve_state};

    ghost state = { solve_state };

    ghost goes_on = { λ _ _. Unit {0} };

    fn known(&self) {
        let _vars = self.kept.vars();
    }

    fn solve(&mut self, assume: &[Lit], _budget: &mut Budget) -> Result<Verdict, Halt> {
        self.searches = self.searches.saturating_add(1);
        let Ok(mut values) = all_false(self.alloc, self.kept.vars()) else {
            return Err(Halt::Memory);
        };
        if try_from(&self.kept, assume, values.as_mut_slice(), 1) {
            return Ok(Verdict::Sat(Values::from_vec(values)));
        }
        let Ok(core) = copied(self.alloc, assume) else {
            return Err(Halt::Memory);
        };
        if has_core_within(self.cores.as_slice(), assume) {
            return Ok(Verdict::Unsat(core));
        }
        let Ok(kept) = copied(self.alloc, assume) else {
            return Err(Halt::Memory);
        };
        match self.cores.push(kept) {
            Ok(()) => Ok(Verdict::Unsat(core)),
            Err(_) => Err(Halt::Memory),
        }
    }

    ghost goes_on_itself = { λ _. tt };

    ghost goes_on_twice = { λ _ _ _ _ _. tt };
}

impl Grow for BruteForce {
    fn value(&self, term: u32, values: &Values) -> ExtInt {
        self.kept.value(term, values)
    }

    fn bound(&mut self, term: u32, below: ExtInt) -> Result<Lit, Memory> {
        let _vars = self.kept.vars();
        self.additions.reserve(1)?;
        let out = self.kept.bound(term, below)?;
        self.additions.push_reserved(Addition::Bound(term, below));
        Ok(out)
    }

    fn exclude(&mut self, values: &Values) -> Result<Lit, Memory> {
        let _vars = self.kept.vars();
        let copy = values.copy(self.alloc)?;
        self.additions.reserve(1)?;
        let out = self.kept.exclude(self.alloc, values)?;
        self.additions.push_reserved(Addition::Exclusion(copy));
        Ok(out)
    }

    fn retire(&mut self, selector: Lit) {
        let _vars = self.kept.vars();
        self.kept.retire(selector);
    }
}

/// The most variables that are tried. Each takes a call in another, so more of them is out of memory.
const MOST_VARS: u64 = 1_000;

/// The value false for each variable up to `vars`, and for 0.
fn all_false(alloc: Global, vars: u64) -> Result<Vec<bool>, Memory>
    ensures { IfOk result (λ values. length values.items ≡ vars + 1) }
{
    if vars > MOST_VARS {
        return Err(Memory);
    }
    let mut values = Vec::new(alloc);
    values.resize(vars as usize + 1, false)?;
    Ok(values)
}

fn copied(alloc: Global, lits: &[Lit]) -> Result<LitList, Memory>
    ensures { IfOk result (λ list. list ≡ lits.now) }
{
    Ok(ListOf::from_vec(Vec::from_slice(alloc, lits)?))
}
