//! One model, or a core.
ghost use Rattle.std.specs.Prelude.{IfOk, IfErr};
ghost use Rattle.ground_core.specs.Problems.{AreLitsOf};
ghost use Rattle.ground_core.specs.Solving.{IsBudgetOf, AreUnretired, HaltedAt, HasCoreWithin, IsKnown, IsKept};
ghost use Rattle.ground_core.specs.Calls.{Keeps, Costs, Stays};
ghost use Rattle.model_expansion.specs.Expansions.{Expands};

use ground_core::{Budget, Halt, Solve, Verdict};
use lit_core::Lit;

/// Values that satisfy the problem and make what is assumed true, or some of it that is refuted, by
/// one search.
pub fn expand<S: Solve>(s: &mut S, assume: &[Lit], budget: &mut Budget) -> Result<Verdict, Halt>
    requires literals { AreLitsOf (S.state s.old).problem.vars assume.now }
    requires unretired { AreUnretired (S.state s.old).problem assume.now }
    requires budget { IsBudgetOf (S.state s.old).learnt budget.old }
    ensures expands { IfOk result (Expands (S.state s.old).problem assume.now (S.state s.new).cores) }
    ensures halt { IfErr result (HaltedAt budget.new) }
    ensures stays { Stays (S.state s.old) (S.state s.new) }
    ensures keeps { Keeps (S.state s.old) (S.state s.new) budget.old budget.new }
    ensures costs { Costs 1 (S.state s.old) (S.state s.new) budget.old budget.new }
    ensures decided { HasCoreWithin (S.state s.old).cores assume.now → IsKnown (S.state s.old).learnt
        (S.state s.new).learnt budget.old budget.new result }
    ensures kept { IsKept (S.state s.new) }
    ensures later { S.goes_on s.old s.new }
{
    match s.solve(assume, budget) {
        Ok(Verdict::Sat(values)) => Ok(Verdict::Sat(values)),
        Ok(Verdict::Unsat(core)) => Ok(Verdict::Unsat(core)),
        Err(halt) => Err(halt),
    }
}
