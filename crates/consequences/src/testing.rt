//! The search for a valuation that makes a literal false.
ghost use Rattle.std.specs.Prelude.{◌≡◌, ◌++◌, ◌∷◌, [], IfOk, IfErr, OnOk, ◌⊎◌};
ghost use Rattle.lit_core.specs.Literals.{negated};
ghost use Rattle.ground_core.specs.Problems.{AreLitsOf};
ghost use Rattle.ground_core.specs.Solving.{IsBudgetOf, AreUnretired, HaltedAt, IsKept};
ghost use Rattle.ground_core.specs.Calls.{Keeps, CountsUpTo, Stays};
ghost use Rattle.consequences.specs.Forced.{Tests, IsWithout};

use crate::kept::{Kept, Tested};
use ground_core::{Budget, Halt, LitList, Memory, Solve, Verdict};
use lit_core::Lit;
use model_search::joined;
use std::alloc::Global;

/// Adds the literal, unless it is the other.
fn push_unless(list: &mut LitList, other: Lit, lit: Lit) -> Result<(), Memory>
    ensures { OnOk result (((other ≡ lit) × (list.new ≡ list.old))
        ⊎ ((other ≡ lit → ⊥) × (list.new ≡ list.old ++ other ∷ []))) }
{
    if other == lit {
        return Ok(());
    }
    list.push(other)?;
    Ok(())
}

/// The literals but this one, in order.
fn without(alloc: Global, lits: &[Lit], lit: Lit) -> Result<LitList, Memory>
    ensures { IfOk result (λ list. IsWithout lit lits.now list) }
{
    let mut list = LitList::new(alloc);
    for other in lits {
        push_unless(&mut list, *other, lit)?;
    }
    Ok(list)
}

/// Searches for values that make the literal false.
pub fn test<S: Solve>(
    alloc: Global,
    s: &mut S,
    assume: &[Lit],
    lit: Lit,
    budget: &mut Budget,
) -> Result<Tested, Halt>
    requires literals { AreLitsOf (S.state s.old).problem.vars (assume.now ++ negated lit ∷ []) }
    requires unretired { AreUnretired (S.state s.old).problem (assume.now ++ negated lit ∷ []) }
    requires budget { IsBudgetOf (S.state s.old).learnt budget.old }
    requires kept { IsKept (S.state s.old) }
    ensures tests { IfOk result (Tests (S.state s.old).problem assume.now lit (S.state s.new).cores) }
    ensures halt { IfErr result (HaltedAt budget.new) }
    ensures stays { Stays (S.state s.old) (S.state s.new) }
    ensures keeps { Keeps (S.state s.old) (S.state s.new) budget.old budget.new }
    ensures counts { CountsUpTo (S.state s.old).free 1 (S.state s.old) (S.state s.new) budget.old budget.new }
    ensures kept { IsKept (S.state s.new) }
    ensures later { S.goes_on s.old s.new }
{
    let Ok(list) = joined(alloc, assume, &[lit.negated()]) else {
        return Err(Halt::Memory);
    };
    match s.solve(list.as_slice(), budget) {
        Ok(Verdict::Sat(values)) => Ok(Tested::Free(values)),
        Ok(Verdict::Unsat(core)) => match without(alloc, core.as_slice(), lit.negated()) {
            Ok(support) => Ok(Tested::Forced(Kept { lit, support })),
            Err(_) => Err(Halt::Memory),
        },
        Err(halt) => Err(halt),
    }
}
