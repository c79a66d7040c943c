//! Literals that are true wherever the problem and what is assumed hold.
ghost use Rattle.std.specs.Prelude.{◌≤◌, ◌≡◌, ℕ, ◌<◌, ◌+◌, ◌++◌, ◌∷◌, [], List, length, All, IfOk, IfErr, OnOk};
ghost use Rattle.lit_core.specs.Literals.{negated};
ghost use Rattle.ground_core.specs.Problems.{AreLitsOf};
ghost use Rattle.ground_core.specs.Solving.{IsBudgetOf, AreUnretired, HaltedAt, HasCoreWithin, IsKept, IsLive};
ghost use Rattle.ground_core.specs.Calls.{Keeps, CountsUpTo, Costs, Stays, IsAnsweredAtOnce};
ghost use Rattle.model_search.specs.Models.{IsLeft};
ghost use Rattle.consequences.specs.Forced.{Decides, AreForced, FindsForced, IsSeen, Searches};
ghost use Rattle.consequences.specs.Indexed.{AreHashed};

use crate::asking::Question;
use crate::findings::Findings;
use crate::kept::{KeptList, Tested};
use crate::testing::test;
use ground_core::{Budget, Halt, Solve};
use lit_core::{Lit, Values};
use model_search::model_of;
use std::alloc::Global;

// A literal that is assumed needs no search: each would be one that assumes all of them.
/// Adds the literal as forced, by itself where it is assumed, or values that make it false.
fn decide<S: Solve>(
    alloc: Global,
    s: &mut S,
    assume: &[Lit],
    lit: Lit,
    findings: &mut Findings,
    budget: &mut Budget,
) -> Result<(), Halt>
    requires literals { AreLitsOf (S.state s.old).problem.vars (assume.now ++ negated lit ∷ []) }
    requires unretired { AreUnretired (S.state s.old).problem (assume.now ++ negated lit ∷ []) }
    requires budget { IsBudgetOf (S.state s.old).learnt budget.old }
    requires kept { IsKept (S.state s.old) }
    requires hashed { AreHashed findings.old assume.now }
    ensures decides { OnOk result (Decides (S.state s.old).problem assume.now lit (S.state s.new).cores
        findings.old.kept findings.new.kept findings.old.found findings.new.found) }
    ensures hashed { OnOk result (AreHashed findings.new assume.now) }
    ensures halt { IfErr result (HaltedAt budget.new) }
    ensures stays { Stays (S.state s.old) (S.state s.new) }
    ensures keeps { Keeps (S.state s.old) (S.state s.new) budget.old budget.new }
    ensures counts { CountsUpTo (S.state s.old).free 1 (S.state s.old) (S.state s.new) budget.old budget.new }
    ensures kept { IsKept (S.state s.new) }
    ensures later { S.goes_on s.old s.new }
{
    if findings.is_assumed(lit) {
        return findings.keep_itself(alloc, lit);
    }
    match test(alloc, s, assume, lit, budget) {
        Ok(Tested::Forced(forced)) => match findings.keep(forced) {
            Ok(()) => Ok(()),
            Err(_) => Err(Halt::Memory),
        },
        Ok(Tested::Free(values)) => match findings.found.push(values) {
            Ok(()) => Ok(()),
            Err(_) => Err(Halt::Memory),
        },
        Err(halt) => Err(halt),
    }
}

/// Decides each literal, beginning from one valuation. A literal that is assumed is forced by itself, and each search
/// either shows its literal forced or finds a valuation that makes it false. The first valuation makes its negation
/// false in all cases, so that no variable is searched twice.
fn decide_each<S: Solve>(
    alloc: Global,
    s: &mut S,
    question: &Question<'_>,
    first: Values,
    budget: &mut Budget,
) -> Result<KeptList, Halt>
    requires literals { AreLitsOf (S.state s.old).problem.vars question.now.assume.now }
    requires unretired { AreUnretired (S.state s.old).problem question.now.assume.now }
    requires asked { AreLitsOf (S.state s.old).problem.vars question.now.ask.now }
    requires asked_unretired { IsLive (S.state s.old).problem.retired question.now.ask.now }
    requires atoms { question.now.atoms ≤ length (S.state s.old).problem.atoms }
    requires seen { All (IsSeen (S.state s.old).problem question.now.assume.now) question.now.seen.now }
    requires first { IsLeft (S.state s.old).problem question.now.assume.now first }
    requires budget { IsBudgetOf (S.state s.old).learnt budget.old }
    requires kept { IsKept (S.state s.old) }
    ensures forces { IfOk result (AreForced (S.state s.old).problem question.now.assume.now question.now.ask.now
        (S.state s.new).cores) }
    ensures halt { IfErr result (HaltedAt budget.new) }
    ensures stays { Stays (S.state s.old) (S.state s.new) }
    ensures keeps { Keeps (S.state s.old) (S.state s.new) budget.old budget.new }
    ensures counts { (vs : List ℕ) → Searches vs question.now.atoms question.now.seen.now question.now.ask.now
        → CountsUpTo (S.state s.old).free (length vs) (S.state s.old) (S.state s.new) budget.old budget.new }
    ensures kept { IsKept (S.state s.new) }
    ensures later { S.goes_on s.old s.new }
{
    let Ok(mut findings) = Findings::begin(alloc, first, question.assume) else {
        return Err(Halt::Memory);
    };
    for lit in question.ask {
        if findings.leave_open(question, *lit) {
            match decide(alloc, s, question.assume, *lit, &mut findings, budget) {
                Ok(()) => {}
                Err(halt) => return Err(halt),
            }
        }
    }
    Ok(findings.kept)
}

/// The asked literals that are true wherever the problem and what is assumed hold, each with some of what was assumed
/// that forces it; None where they nowhere hold. No search is made for a literal that is assumed, nor for one of the
/// first `atoms` variables that values in `seen` make false.
pub fn forced<S: Solve>(
    alloc: Global,
    s: &mut S,
    question: &Question<'_>,
    budget: &mut Budget,
) -> Result<Option<KeptList>, Halt>
    requires literals { AreLitsOf (S.state s.old).problem.vars question.now.assume.now }
    requires unretired { AreUnretired (S.state s.old).problem question.now.assume.now }
    requires asked { AreLitsOf (S.state s.old).problem.vars question.now.ask.now }
    requires asked_unretired { IsLive (S.state s.old).problem.retired question.now.ask.now }
    requires atoms { question.now.atoms ≤ length (S.state s.old).problem.atoms }
    requires seen { All (IsSeen (S.state s.old).problem question.now.assume.now) question.now.seen.now }
    requires budget { IsBudgetOf (S.state s.old).learnt budget.old }
    ensures finds { IfOk result (FindsForced (S.state s.old).problem question.now.assume.now question.now.ask.now
        (S.state s.new).cores) }
    ensures halt { IfErr result (HaltedAt budget.new) }
    ensures stays { Stays (S.state s.old) (S.state s.new) }
    ensures keeps { Keeps (S.state s.old) (S.state s.new) budget.old budget.new }
    ensures costs { (vs : List ℕ) → Searches vs question.now.atoms question.now.seen.now question.now.ask.now
        → Costs (length vs + 1) (S.state s.old) (S.state s.new) budget.old budget.new }
    ensures decided { HasCoreWithin (S.state s.old).cores question.now.assume.now → IsAnsweredAtOnce
        (S.state s.old) (S.state s.new) result }
    ensures kept { IsKept (S.state s.new) }
    ensures later { S.goes_on s.old s.new }
{
    match model_of(s, question.assume, budget) {
        Ok(Some(first)) => match decide_each(alloc, s, question, first, budget) {
            Ok(kept) => Ok(Some(kept)),
            Err(halt) => Err(halt),
        },
        Ok(None) => Ok(None),
        Err(halt) => Err(halt),
    }
}
