//! Irreducible reasons.
ghost use Rattle.std.specs.Prelude.{◌≡◌, ◌+◌, ◌++◌, ◌∷◌, [], length, IfOk, IfErr};
ghost use Rattle.lit_core.specs.Literals.{negated};
ghost use Rattle.ground_core.specs.Problems.{AreLitsOf};
ghost use Rattle.ground_core.specs.Solving.{IsBudgetOf, AreUnretired, HaltedAt, HasCoreWithin, IsKept};
ghost use Rattle.ground_core.specs.Calls.{Keeps, CountsUpTo, Costs, Stays};
ghost use Rattle.model_search.specs.Models.{IsRefuted};
ghost use Rattle.support_explainer.specs.Reasons.{FindsConflict, FindsSupport, IsInconsistentAtOnce};

use crate::deletion::{core_of, irreducible};
use crate::reason::Support;
use ground_core::{Budget, Halt, LitList, Solve};
use kb_logic::ListOf;
use lit_core::Lit;
use model_search::{joined, model_of};
use std::alloc::Global;

/// Some of what is assumed that no valuation of the problem makes true together, where none of it
/// can be left out; None where a valuation makes all of it true.
pub fn conflict<S: Solve>(
    alloc: Global,
    s: &mut S,
    assume: &[Lit],
    budget: &mut Budget,
) -> Result<Option<LitList>, Halt>
    requires literals { AreLitsOf (S.state s.old).problem.vars assume.now }
    requires unretired { AreUnretired (S.state s.old).problem assume.now }
    requires budget { IsBudgetOf (S.state s.old).learnt budget.old }
    ensures finds { IfOk result (FindsConflict (S.state s.old).problem assume.now (S.state s.new).cores) }
    ensures halt { IfErr result (HaltedAt budget.new) }
    ensures stays { Stays (S.state s.old) (S.state s.new) }
    ensures keeps { Keeps (S.state s.old) (S.state s.new) budget.old budget.new }
    ensures costs { Costs (length assume.now + 2) (S.state s.old) (S.state s.new) budget.old budget.new }
    ensures kept { IsKept (S.state s.new) }
    ensures later { S.goes_on s.old s.new }
{
    match core_of(s, assume, budget) {
        Ok(Some(core)) => match irreducible(alloc, s, core, &[], budget) {
            Ok(items) => Ok(Some(items)),
            Err(halt) => Err(halt),
        },
        Ok(None) => Ok(None),
        Err(halt) => Err(halt),
    }
}

/// Why a literal is true whose negation is refuted together with what is assumed.
fn supported<S: Solve>(
    alloc: Global,
    s: &mut S,
    assume: &[Lit],
    target: Lit,
    budget: &mut Budget,
) -> Result<Support, Halt>
    requires assumed { AreLitsOf (S.state s.old).problem.vars assume.now }
    requires unretired { AreUnretired (S.state s.old).problem assume.now }
    requires literals { AreLitsOf (S.state s.old).problem.vars (assume.now ++ negated target ∷ []) }
    requires all_unretired { AreUnretired (S.state s.old).problem (assume.now ++ negated target ∷ []) }
    requires refuted { IsRefuted (S.state s.old).problem (S.state s.old).cores (assume.now ++ negated target ∷ []) }
    requires budget { IsBudgetOf (S.state s.old).learnt budget.old }
    requires kept { IsKept (S.state s.old) }
    ensures finds { IfOk result (FindsSupport (S.state s.old).problem assume.now target (S.state s.new).cores) }
    ensures halt { IfErr result (HaltedAt budget.new) }
    ensures stays { Stays (S.state s.old) (S.state s.new) }
    ensures keeps { Keeps (S.state s.old) (S.state s.new) budget.old budget.new }
    ensures counts { CountsUpTo (S.state s.old).free (length assume.now + 1) (S.state s.old)
        (S.state s.new) budget.old budget.new }
    ensures decided { HasCoreWithin (S.state s.old).cores assume.now → IsInconsistentAtOnce (S.state s.old)
        (S.state s.new) result }
    ensures kept { IsKept (S.state s.new) }
    ensures later { S.goes_on s.old s.new }
{
    match model_of(s, assume, budget) {
        Ok(None) => Ok(Support::Inconsistent),
        Ok(Some(_)) => {
            let Ok(items) = Vec::from_slice(alloc, assume) else {
                return Err(Halt::Memory);
            };
            let items = ListOf::from_vec(items);
            match irreducible(alloc, s, items, &[target.negated()], budget) {
                Ok(items) => Ok(Support::By(items)),
                Err(halt) => Err(halt),
            }
        }
        Err(halt) => Err(halt),
    }
}

/// Why a literal is true wherever the problem and what is assumed hold, if it is.
pub fn support<S: Solve>(
    alloc: Global,
    s: &mut S,
    assume: &[Lit],
    target: Lit,
    budget: &mut Budget,
) -> Result<Support, Halt>
    requires assumed { AreLitsOf (S.state s.old).problem.vars assume.now }
    requires unretired { AreUnretired (S.state s.old).problem assume.now }
    requires literals { AreLitsOf (S.state s.old).problem.vars (assume.now ++ negated target ∷ []) }
    requires all_unretired { AreUnretired (S.state s.old).problem (assume.now ++ negated target ∷ []) }
    requires budget { IsBudgetOf (S.state s.old).learnt budget.old }
    ensures finds { IfOk result (FindsSupport (S.state s.old).problem assume.now target (S.state s.new).cores) }
    ensures halt { IfErr result (HaltedAt budget.new) }
    ensures stays { Stays (S.state s.old) (S.state s.new) }
    ensures keeps { Keeps (S.state s.old) (S.state s.new) budget.old budget.new }
    ensures costs { Costs (length assume.now + 2) (S.state s.old) (S.state s.new) budget.old budget.new }
    ensures decided { HasCoreWithin (S.state s.old).cores assume.now → IsInconsistentAtOnce (S.state s.old)
        (S.state s.new) result }
    ensures kept { IsKept (S.state s.new) }
    ensures later { S.goes_on s.old s.new }
{
    s.known();
    let Ok(list) = joined(alloc, assume, &[target.negated()]) else {
        return Err(Halt::Memory);
    };
    match model_of(s, list.as_slice(), budget) {
        Ok(Some(values)) => Ok(Support::Free(values)),
        Ok(None) => supported(alloc, s, assume, target, budget),
        Err(halt) => Err(halt),
    }
}
