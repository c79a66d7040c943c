//! Lists of which nothing can be left out, by leaving out what can be.
ghost use Rattle.std.specs.Prelude.{◌≡◌, ◌<◌, ◌++◌, length, IfOk, IfErr};
ghost use Rattle.ground_core.specs.Problems.{AreLitsOf};
ghost use Rattle.ground_core.specs.Solving.{IsBudgetOf, AreUnretired, HaltedAt, IsKept, IsSublist};
ghost use Rattle.ground_core.specs.Calls.{Keeps, Counts, CountsUpTo, Stays};
ghost use Rattle.model_search.specs.Models.{IsRefuted};
ghost use Rattle.support_explainer.specs.Reasons.{FindsCore, IsToldAt, IsIrreducible};

use crate::lists::without_at;
use ground_core::{Budget, Halt, LitList, Solve, Verdict};
use kb_logic::ListOf;
use lit_core::Lit;
use model_search::{joined, model_of};
use std::alloc::Global;

/// Some of the literals that are true together in no valuation; None where all of them are in one.
pub fn core_of<S: Solve>(
    s: &mut S,
    lits: &[Lit],
    budget: &mut Budget,
) -> Result<Option<LitList>, Halt>
    requires literals { AreLitsOf (S.state s.old).problem.vars lits.now }
    requires unretired { AreUnretired (S.state s.old).problem lits.now }
    requires budget { IsBudgetOf (S.state s.old).learnt budget.old }
    ensures finds { IfOk result (FindsCore (S.state s.old).problem lits.now (S.state s.new).cores) }
    ensures halt { IfErr result (HaltedAt budget.new) }
    ensures stays { Stays (S.state s.old) (S.state s.new) }
    ensures keeps { Keeps (S.state s.old) (S.state s.new) budget.old budget.new }
    ensures counts { Counts (S.state s.old).free 1 (S.state s.old) (S.state s.new) budget.old budget.new }
    ensures kept { IsKept (S.state s.new) }
    ensures later { S.goes_on s.old s.new }
{
    match s.solve(lits, budget) {
        Ok(Verdict::Sat(_)) => Ok(None),
        Ok(Verdict::Unsat(core)) => Ok(Some(core)),
        Err(halt) => Err(halt),
    }
}

/// The items without one of them, if they are refuted without it too.
fn without_spare<S: Solve>(
    alloc: Global,
    s: &mut S,
    items: &[Lit],
    last: &[Lit],
    at: usize,
    budget: &mut Budget,
) -> Result<Option<LitList>, Halt>
    requires at { at < length items.now }
    requires literals { AreLitsOf (S.state s.old).problem.vars (items.now ++ last.now) }
    requires unretired { AreUnretired (S.state s.old).problem (items.now ++ last.now) }
    requires budget { IsBudgetOf (S.state s.old).learnt budget.old }
    requires kept { IsKept (S.state s.old) }
    ensures tells { IfOk result (IsToldAt (S.state s.old).problem items.now last.now at (S.state s.new).cores) }
    ensures halt { IfErr result (HaltedAt budget.new) }
    ensures stays { Stays (S.state s.old) (S.state s.new) }
    ensures keeps { Keeps (S.state s.old) (S.state s.new) budget.old budget.new }
    ensures counts { CountsUpTo (S.state s.old).free 1 (S.state s.old) (S.state s.new) budget.old budget.new }
    ensures kept { IsKept (S.state s.new) }
    ensures later { S.goes_on s.old s.new }
{
    let Ok(fewer) = without_at(alloc, items, at) else {
        return Err(Halt::Memory);
    };
    let Ok(list) = joined(alloc, fewer.as_slice(), last) else {
        return Err(Halt::Memory);
    };
    match model_of(s, list.as_slice(), budget) {
        Ok(None) => Ok(Some(ListOf::from_vec(fewer))),
        Ok(Some(_)) => Ok(None),
        Err(halt) => Err(halt),
    }
}

/// Leaves out one item after another that is not needed for what is refuted with `last`. An item
/// that is needed stays so while others are left out, so each is tried once.
pub fn irreducible<S: Solve>(
    alloc: Global,
    s: &mut S,
    first: LitList,
    last: &[Lit],
    budget: &mut Budget,
) -> Result<LitList, Halt>
    requires literals { AreLitsOf (S.state s.old).problem.vars (first ++ last.now) }
    requires unretired { AreUnretired (S.state s.old).problem (first ++ last.now) }
    requires refuted { IsRefuted (S.state s.old).problem (S.state s.old).cores (first ++ last.now) }
    requires budget { IsBudgetOf (S.state s.old).learnt budget.old }
    requires kept { IsKept (S.state s.old) }
    ensures among { IfOk result (λ list. IsSublist list first) }
    ensures irreducible { IfOk result (IsIrreducible (S.state s.old).problem (S.state s.new).cores last.now) }
    ensures halt { IfErr result (HaltedAt budget.new) }
    ensures stays { Stays (S.state s.old) (S.state s.new) }
    ensures keeps { Keeps (S.state s.old) (S.state s.new) budget.old budget.new }
    ensures counts { CountsUpTo (S.state s.old).free (length first) (S.state s.old)
        (S.state s.new) budget.old budget.new }
    ensures kept { IsKept (S.state s.new) }
    ensures later { S.goes_on s.old s.new }
{
    let mut items = first;
    let mut at = 0;
    while at < items.len() {
        match without_spare(alloc, s, items.as_slice(), last, at, budget) {
            Ok(Some(fewer)) => items = fewer,
            Ok(None) => at += 1,
            Err(halt) => return Err(halt),
        }
    }
    Ok(items)
}
