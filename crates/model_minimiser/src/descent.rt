//! The least value of a term, by bounds that fall.
ghost use Rattle.std.specs.Prelude.{◌≡◌, ◌+◌, ◌<◌, ◌++◌, ◌∷◌, [], ℕ, length, IsTrue, false, IfOk, IfErr};
ghost use Rattle.std.specs.Prelude.{OnErr};
ghost use Rattle.kb_logic.specs.declared.elements.ExtInt.TheVariants.{NegInf};
ghost use Rattle.ground_core.specs.Problems.{AreLitsOf};
ghost use Rattle.ground_core.specs.Growth.{next_lit};
ghost use Rattle.ground_core.specs.Growing.{bounded};
ghost use Rattle.ground_core.specs.Solving.{IsBudgetOf, AreUnretired, HaltedAt, HasCoreWithin, IsKept};
ghost use Rattle.ground_core.specs.Calls.{Keeps, Counts, CountsUpTo, Costs, Stays, IsAnsweredAtOnce};
ghost use Rattle.ground_core.specs.Calls.{GrowsByAdditions};
ghost use Rattle.model_minimiser.specs.Bounds.{AddsBounds, AddsAtMost, HoldsBounds};
ghost use Rattle.model_minimiser.specs.Minima.{IsFound, Finds, FindsBelow, IsLeast, FindsLeast, Spans};

use crate::minimum::{Found, Minimum, Objective, Step};
use ground_core::{Budget, Grow, Halt, Memory, Verdict};
use kb_logic::ExtInt;
use lit_core::Lit;
use model_search::{joined, retire_each};
use std::alloc::Global;

/// Searches for values that satisfy the problem and make the literals true, with the term's value.
fn search<S: Grow>(
    s: &mut S,
    assume: &[Lit],
    term: u32,
    budget: &mut Budget,
) -> Result<Option<Found>, Halt>
    requires term { term < length (S.state s.old).problem.terms }
    requires literals { AreLitsOf (S.state s.old).problem.vars assume.now }
    requires unretired { AreUnretired (S.state s.old).problem assume.now }
    requires budget { IsBudgetOf (S.state s.old).learnt budget.old }
    ensures finds { IfOk result (Finds (S.state s.old).problem assume.now term (S.state s.new).cores) }
    ensures halt { IfErr result (HaltedAt budget.new) }
    ensures stays { Stays (S.state s.old) (S.state s.new) }
    ensures keeps { Keeps (S.state s.old) (S.state s.new) budget.old budget.new }
    ensures counts { Counts (S.state s.old).free 1 (S.state s.old) (S.state s.new) budget.old budget.new }
    ensures decided { HasCoreWithin (S.state s.old).cores assume.now → IsAnsweredAtOnce (S.state s.old)
        (S.state s.new) result }
    ensures kept { IsKept (S.state s.new) }
    ensures later { S.goes_on s.old s.new }
{
    match s.solve(assume, budget) {
        Ok(Verdict::Sat(values)) => {
            let value = s.value(term, &values);
            Ok(Some(Found { values, value }))
        }
        Ok(Verdict::Unsat(_)) => Ok(None),
        Err(halt) => Err(halt),
    }
}

/// Searches for values that make one more literal true.
fn search_under<S: Grow>(
    alloc: Global,
    s: &mut S,
    objective: &Objective<'_>,
    selector: Lit,
    budget: &mut Budget,
) -> Result<Option<Found>, Halt>
    requires term { objective.now.term < length (S.state s.old).problem.terms }
    requires literals { AreLitsOf (S.state s.old).problem.vars (objective.now.assume.now ++ selector ∷ []) }
    requires unretired { AreUnretired (S.state s.old).problem (objective.now.assume.now ++ selector ∷ []) }
    requires budget { IsBudgetOf (S.state s.old).learnt budget.old }
    requires kept { IsKept (S.state s.old) }
    ensures finds { IfOk result (Finds (S.state s.old).problem (objective.now.assume.now ++ selector ∷ [])
        objective.now.term (S.state s.new).cores) }
    ensures halt { IfErr result (HaltedAt budget.new) }
    ensures stays { Stays (S.state s.old) (S.state s.new) }
    ensures keeps { Keeps (S.state s.old) (S.state s.new) budget.old budget.new }
    ensures counts { CountsUpTo (S.state s.old).free 1 (S.state s.old) (S.state s.new) budget.old budget.new }
    ensures kept { IsKept (S.state s.new) }
    ensures later { S.goes_on s.old s.new }
{
    match joined(alloc, objective.assume, &[selector]) {
        Ok(list) => search(s, list.as_slice(), objective.term, budget),
        Err(_) => Err(Halt::Memory),
    }
}

/// Bounds the term under one more selector, and keeps that. Room is made before, so that no selector is made that is
/// not kept.
fn bound<S: Grow>(
    s: &mut S,
    term: u32,
    below: ExtInt,
    selectors: &mut Vec<Lit>,
) -> Result<Lit, Memory>
    requires term { term < length (S.state s.old).problem.terms }
    requires below { below ≡ NegInf → ⊥ }
    requires kept { IsKept (S.state s.old) }
    ensures made { IfOk result (λ out. (out ≡ next_lit (S.state s.old).problem) × (S.state s.new
        ≡ bounded (S.state s.old) term below) × (selectors.new.items ≡ selectors.old.items ++ out ∷ [])) }
    ensures same { OnErr result ((S.state s.new ≡ S.state s.old) × (selectors.new.items ≡ selectors.old.items)) }
    ensures kept { IsKept (S.state s.new) }
    ensures later { S.goes_on s.old s.new }
{
    selectors.reserve(1)?;
    let selector = s.bound(term, below)?;
    selectors.push_reserved(selector);
    Ok(selector)
}

/// Searches for values under which the term is below the number. The bound stays in force.
fn lower<S: Grow>(
    alloc: Global,
    s: &mut S,
    objective: &Objective<'_>,
    below: ExtInt,
    selectors: &mut Vec<Lit>,
    budget: &mut Budget,
) -> Result<Step, Halt>
    requires term { objective.now.term < length (S.state s.old).problem.terms }
    requires literals { AreLitsOf (S.state s.old).problem.vars objective.now.assume.now }
    requires unretired { AreUnretired (S.state s.old).problem objective.now.assume.now }
    requires budget { IsBudgetOf (S.state s.old).learnt budget.old }
    requires kept { IsKept (S.state s.old) }
    requires below { below ≡ NegInf → ⊥ }
    ensures finds { IfOk result (FindsBelow (S.state s.old).problem objective.now.assume.now objective.now.term below
        (S.state s.new).cores (S.state s.new).problem.bounds) }
    ensures halt { IfErr result (HaltedAt budget.new) }
    ensures adds { AddsAtMost objective.now.term below (S.state s.old) (S.state s.new) selectors.old.items
        selectors.new.items }
    ensures keeps { Keeps (S.state s.old) (S.state s.new) budget.old budget.new }
    ensures counts { CountsUpTo ((S.state s.old).free + 1) 1 (S.state s.old) (S.state s.new) budget.old budget.new }
    ensures kept { IsKept (S.state s.new) }
    ensures later { S.goes_on s.old s.new }
{
    let Ok(selector) = bound(s, objective.term, below, selectors) else {
        return Err(Halt::Memory);
    };
    match search_under(alloc, s, objective, selector, budget) {
        Ok(Some(found)) => Ok(Step::Lower(found)),
        Ok(None) => Ok(Step::Nothing(selector)),
        Err(halt) => Err(halt),
    }
}

/// Whether nothing is below.
fn is_lowest(value: ExtInt) -> bool
    ensures lowest { IsTrue result → value ≡ NegInf }
    ensures other { result ≡ false → value ≡ NegInf → ⊥ }
{
    match value {
        ExtInt::NegInf => true,
        ExtInt::Num(_) => false,
        ExtInt::PosInf => false,
    }
}

/// Lowers the value until nothing is below. The bounds stay in force, each under one of the selectors.
fn lower_all<S: Grow>(
    alloc: Global,
    s: &mut S,
    objective: &Objective<'_>,
    first: Found,
    selectors: &mut Vec<Lit>,
    budget: &mut Budget,
) -> Result<Minimum, Halt>
    requires term { objective.now.term < length (S.state s.old).problem.terms }
    requires literals { AreLitsOf (S.state s.old).problem.vars objective.now.assume.now }
    requires unretired { AreUnretired (S.state s.old).problem objective.now.assume.now }
    requires budget { IsBudgetOf (S.state s.old).learnt budget.old }
    requires kept { IsKept (S.state s.old) }
    requires none { selectors.old.items ≡ [] }
    requires found { IsFound (S.state s.old).problem objective.now.assume.now objective.now.term first }
    ensures least { IfOk result (IsLeast (S.state s.old).problem objective.now.assume.now objective.now.term
        (S.state s.new).cores (S.state s.new).problem.bounds) }
    ensures halt { IfErr result (HaltedAt budget.new) }
    ensures bounds { HoldsBounds objective.now.assume.now objective.now.term (S.state s.old) (S.state s.new)
        selectors.new.items }
    ensures keeps { Keeps (S.state s.old) (S.state s.new) budget.old budget.new }
    ensures counts { (n : ℕ) → Spans (S.state s.old).problem objective.now.term n
        → CountsUpTo ((S.state s.old).free + (n + 2)) (n + 2) (S.state s.old) (S.state s.new) budget.old
        budget.new }
    ensures kept { IsKept (S.state s.new) }
    ensures later { S.goes_on s.old s.new }
{
    let mut best = first;
    while !is_lowest(best.value) {
        match lower(alloc, s, objective, best.value, selectors, budget) {
            Ok(Step::Lower(found)) => best = found,
            Ok(Step::Nothing(bound)) => {
                return Ok(Minimum {
                    values: best.values,
                    value: best.value,
                    bound: Some(bound),
                });
            }
            Err(halt) => return Err(halt),
        }
    }
    Ok(Minimum {
        values: best.values,
        value: best.value,
        bound: None,
    })
}

/// Lowers the value until nothing is below, and then retires the bounds' selectors, also where it halts.
fn descend<S: Grow>(
    alloc: Global,
    s: &mut S,
    objective: &Objective<'_>,
    first: Found,
    budget: &mut Budget,
) -> Result<Minimum, Halt>
    requires term { objective.now.term < length (S.state s.old).problem.terms }
    requires literals { AreLitsOf (S.state s.old).problem.vars objective.now.assume.now }
    requires unretired { AreUnretired (S.state s.old).problem objective.now.assume.now }
    requires budget { IsBudgetOf (S.state s.old).learnt budget.old }
    requires kept { IsKept (S.state s.old) }
    requires found { IsFound (S.state s.old).problem objective.now.assume.now objective.now.term first }
    ensures least { IfOk result (IsLeast (S.state s.old).problem objective.now.assume.now objective.now.term
        (S.state s.new).cores (S.state s.new).problem.bounds) }
    ensures halt { IfErr result (HaltedAt budget.new) }
    ensures adds { AddsBounds objective.now.assume.now objective.now.term (S.state s.old) (S.state s.new) }
    ensures keeps { Keeps (S.state s.old) (S.state s.new) budget.old budget.new }
    ensures counts { (n : ℕ) → Spans (S.state s.old).problem objective.now.term n
        → CountsUpTo ((S.state s.old).free + (n + 2)) (n + 2) (S.state s.old) (S.state s.new) budget.old
        budget.new }
    ensures kept { IsKept (S.state s.new) }
    ensures later { S.goes_on s.old s.new }
{
    let mut selectors = Vec::new(alloc);
    let told = lower_all(alloc, s, objective, first, &mut selectors, budget);
    retire_each(s, selectors.as_slice());
    told
}

/// The least value of a term where the problem and the literals hold, or None where they nowhere do.
/// Each search but the first stands under a bound at the value found before. The bounds' selectors are retired in the
/// end, so that what was learnt under one bound may serve under the next.
pub fn least<S: Grow>(
    alloc: Global,
    s: &mut S,
    assume: &[Lit],
    term: u32,
    budget: &mut Budget,
) -> Result<Option<Minimum>, Halt>
    requires term { term < length (S.state s.old).problem.terms }
    requires literals { AreLitsOf (S.state s.old).problem.vars assume.now }
    requires unretired { AreUnretired (S.state s.old).problem assume.now }
    requires budget { IsBudgetOf (S.state s.old).learnt budget.old }
    ensures least { IfOk result (FindsLeast (S.state s.old).problem assume.now term (S.state s.new).cores
        (S.state s.new).problem.bounds) }
    ensures halt { IfErr result (HaltedAt budget.new) }
    ensures adds { AddsBounds assume.now term (S.state s.old) (S.state s.new) }
    ensures grows { GrowsByAdditions (S.state s.old).problem (S.state s.new).problem }
    ensures keeps { Keeps (S.state s.old) (S.state s.new) budget.old budget.new }
    ensures costs { (n : ℕ) → Spans (S.state s.old).problem term n → Costs (n + 3) (S.state s.old)
        (S.state s.new) budget.old budget.new }
    ensures decided { HasCoreWithin (S.state s.old).cores assume.now → IsAnsweredAtOnce (S.state s.old)
        (S.state s.new) result }
    ensures kept { IsKept (S.state s.new) }
    ensures later { S.goes_on s.old s.new }
{
    let objective = Objective { assume, term };
    match search(s, assume, term, budget) {
        Ok(Some(first)) => match descend(alloc, s, &objective, first, budget) {
            Ok(minimum) => Ok(Some(minimum)),
            Err(halt) => Err(halt),
        },
        Ok(None) => Ok(None),
        Err(halt) => Err(halt),
    }
}
