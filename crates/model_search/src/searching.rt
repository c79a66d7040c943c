//! A search for values.
ghost use Rattle.std.specs.Prelude.{IfOk, IfErr};
ghost use Rattle.ground_core.specs.Problems.{AreLitsOf};
ghost use Rattle.ground_core.specs.Solving.{IsBudgetOf, AreUnretired, HaltedAt, HasCoreWithin, IsKept};
ghost use Rattle.ground_core.specs.Calls.{Keeps, Counts, Stays, IsAnsweredAtOnce};
ghost use Rattle.model_search.specs.Models.{FindsModel};

use ground_core::{Budget, Halt, Solve, Verdict};
use lit_core::{Lit, Values};

/// Values that satisfy the problem and make the literals true; None where no valuation does.
pub fn model_of<S: Solve>(
    s: &mut S,
    lits: &[Lit],
    budget: &mut Budget,
) -> Result<Option<Values>, Halt>
    requires literals { AreLitsOf (S.state s.old).problem.vars lits.now }
    requires unretired { AreUnretired (S.state s.old).problem lits.now }
    requires budget { IsBudgetOf (S.state s.old).learnt budget.old }
    ensures finds { IfOk result (FindsModel (S.state s.old).problem lits.now (S.state s.new).cores) }
    ensures halt { IfErr result (HaltedAt budget.new) }
    ensures stays { Stays (S.state s.old) (S.state s.new) }
    ensures keeps { Keeps (S.state s.old) (S.state s.new) budget.old budget.new }
    ensures counts { Counts (S.state s.old).free 1 (S.state s.old) (S.state s.new) budget.old budget.new }
    ensures decided { HasCoreWithin (S.state s.old).cores lits.now → IsAnsweredAtOnce (S.state s.old)
        (S.state s.new) result }
    ensures kept { IsKept (S.state s.new) }
    ensures later { S.goes_on s.old s.new }
{
    match s.solve(lits, budget) {
        Ok(Verdict::Sat(values)) => Ok(Some(values)),
        Ok(Verdict::Unsat(_)) => Ok(None),
        Err(halt) => Err(halt),
    }
}
