//! The searches for literals that are true in all valuations left.
ghost use Rattle.std.specs.Prelude.{◌≡◌, ◌≤◌, ◌<◌, ◌+◌, ◌++◌, ◌⊎◌, ℕ, All, length, IfOk, IfErr, OnErr, OnOk};
ghost use Rattle.consequences.specs.Forced.{Forces, IsSeen};
ghost use Rattle.ground_core.specs.Problems.{AreLitsOf};
ghost use Rattle.ground_core.specs.Solving.{IsBudgetOf, HaltedAt};
ghost use Rattle.ground_core.specs.Calls.{CallEnds, Stays};
ghost use Rattle.kept_supports.specs.Supports.{kept_of, undecided};
ghost use Rattle.forced_literals.specs.Searches.{AddsForced, Finds, ListsKept, both_signs};

use crate::unknown::Unknown;
use consequences::{KeptList, Question};
use ground_core::{Budget, Halt, LitList, Memory, Solve};
use kept_supports::KeptSupports;
use lit_core::Lit;
use std::alloc::Global;

/// Each literal and its negation.
fn signed(alloc: Global, lits: &[Lit]) -> Result<Vec<Lit>, Memory>
    ensures { IfOk result (λ both. both.items ≡ both_signs lits.now) }
{
    let mut both = Vec::new(alloc);
    for lit in lits {
        both.push(*lit)?;
        both.push(lit.negated())?;
    }
    Ok(both)
}

/// The variable of the last literal. Where they are in the order of their variables, none has a greater one.
fn last_var(lits: &[Lit]) -> u64
    ensures { (n : ℕ) → AreLitsOf n lits.now → result ≤ n }
{
    match lits.last() {
        Some(lit) => lit.var.0,
        None => 0,
    }
}

/// Keeps what was found, and lists which of the literals and of their negations are kept.
fn kept_with(
    alloc: Global,
    supports: &mut KeptSupports,
    found: KeptList,
    lits: &[Lit],
) -> Result<LitList, Memory>
    ensures lists { IfOk result (λ some. some ≡ kept_of supports.new (both_signs lits.now)) }
    ensures kept { OnOk result (supports.new ≡ supports.old ++ found) }
    ensures some { OnErr result ((supports.new ≡ supports.old) ⊎ (supports.new ≡ supports.old ++ found)) }
{
    let both = signed(alloc, lits)?;
    supports.keep(found)?;
    supports.kept_of(alloc, both.as_slice())
}

/// Those of the literals of ground atoms and of their negations that are true wherever the problem and what is
/// assumed hold, in their order; None where they nowhere hold. What is kept already, and what was seen there, spares
/// searches; what is found is kept.
pub(crate) fn forced_lits<S: Solve>(
    alloc: Global,
    s: &mut S,
    assume: &[Lit],
    unknown: &Unknown<'_>,
    supports: &mut KeptSupports,
    budget: &mut Budget,
) -> Result<Option<LitList>, Halt>
    requires literals { AreLitsOf (length (S.state s.old).problem.atoms) assume.now }
    requires atoms { AreLitsOf (length (S.state s.old).problem.atoms) unknown.now.lits.now }
    requires seen { All (IsSeen (S.state s.old).problem assume.now) unknown.now.seen.now }
    requires known { All (λ k. Forces (S.state s.old).problem assume.now k.lit) supports.old }
    requires retired { All (λ l. length (S.state s.old).problem.atoms < l.var.0) (S.state s.old).problem.retired }
    requires budget { IsBudgetOf (S.state s.old).learnt budget.old }
    ensures finds { IfOk result (Finds (S.state s.old).problem assume.now (both_signs unknown.now.lits.now)
        (S.state s.new).cores) }
    ensures lists { IfOk result (ListsKept supports.new unknown.now.lits.now) }
    ensures adds { AddsForced (S.state s.old).problem assume.now
        (both_signs (undecided supports.old unknown.now.lits.now)) (S.state s.new).cores supports.old supports.new }
    ensures halt { IfErr result (HaltedAt budget.new) }
    ensures stays { Stays (S.state s.old) (S.state s.new) }
    ensures ends { CallEnds (length (undecided supports.old unknown.now.lits.now) + 1) (S.state s.old) (S.state s.new)
        budget.old budget.new }
    ensures later { S.goes_on s.old s.new }
{
    s.known();
    let Ok(open) = supports.undecided(alloc, unknown.lits) else {
        return Err(Halt::Memory);
    };
    let Ok(both) = signed(alloc, open.as_slice()) else {
        return Err(Halt::Memory);
    };
    let question = Question {
        assume,
        ask: both.as_slice(),
        seen: unknown.seen,
        atoms: last_var(unknown.lits),
    };
    match consequences::forced(alloc, s, &question, budget) {
        Ok(Some(found)) => match kept_with(alloc, supports, found, unknown.lits) {
            Ok(lits) => Ok(Some(lits)),
            Err(_) => Err(Halt::Memory),
        },
        Ok(None) => Ok(None),
        Err(halt) => Err(halt),
    }
}
