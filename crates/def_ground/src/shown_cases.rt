//! The clauses of cases: that each is true, or that each is not.
ghost use Rattle.std.specs.Prelude.{◌≡◌, ◌++◌, not, map, OnOk, IfOk};
ghost use Rattle.std.specs.List.{AllByRecursion};
ghost use Rattle.lit_core.specs.Literals.{negated};
ghost use Rattle.ground_core.specs.Problems.{AreLitsOf};
ghost use Rattle.def_ground.specs.Cases.{side_of, with_clauses, only_of, shown_lits, shown_clauses, clauses_saying};
ghost use Rattle.def_ground.specs.CaseViews.{case_view};
ghost use Rattle.def_ground.specs.Meanings.{IsCaseOf, SideWithin};

use crate::cases::{Case, only_literal};
use ground_core::{LitList, Memory, Problem};
use lit_core::{Clause, Lit};
use std::alloc::Global;

/// The clause of the literals, the negated guards and the side's literals.
fn guarded_clause(
    alloc: Global,
    lits: &[Lit],
    guards: &[Lit],
    side: &[Lit],
) -> Result<Clause, Memory>
    ensures { IfOk result (λ c. c ≡ lits.now ++ map negated guards.now ++ side.now) }
{
    let mut clause = Clause::from_slice(alloc, lits)?;
    for guard in guards {
        clause.push(guard.negated())?;
    }
    for part in side {
        clause.push(*part)?;
    }
    Ok(clause)
}

/// The one literal of a side of one literal.
fn only_of_side(side: &Option<LitList>) -> Option<Lit>
    ensures { result ≡ only_of side.now }
{
    match side {
        None => None,
        Some(lits) => only_literal(lits.as_slice()),
    }
}

// `f(x) ~= g(y)` is, for each value of f(x), that g(y) does not have it: one literal in place of all other values.
/// The clause of a case: that one of the side's literals is true, or where the other side is one literal that this one
/// is false.
fn shown_clause(
    alloc: Global,
    lits: &[Lit],
    guards: &[Lit],
    side: &[Lit],
    other: &Option<LitList>,
) -> Result<Clause, Memory>
    ensures { IfOk result (λ c. c ≡ lits.now ++ map negated guards.now ++ shown_lits side.now other.now) }
{
    match only_of_side(other) {
        Some(lit) => guarded_clause(alloc, lits, guards, &[lit.negated()]),
        None => guarded_clause(alloc, lits, guards, side),
    }
}

/// Says that under the guards the side is true, or one of the literals is.
fn push_shown(
    alloc: Global,
    lits: &[Lit],
    guards: &[Lit],
    side: &Option<LitList>,
    other: &Option<LitList>,
    problem: &mut Problem,
) -> Result<(), Memory>
    requires lits { AreLitsOf problem.old.vars lits.now }
    requires guards { AreLitsOf problem.old.vars guards.now }
    requires side { SideWithin problem.old.vars side.now }
    requires other { SideWithin problem.old.vars other.now }
    ensures { OnOk result (problem.new ≡ with_clauses problem.old
        (shown_clauses lits.now guards.now side.now other.now)) }
{
    match side {
        None => Ok(()),
        Some(parts) => {
            let clause = shown_clause(alloc, lits, guards, parts.as_slice(), other)?;
            problem.add_clause(clause)
        }
    }
}

/// Says that the case is true, or where the sign is false that it is not, or that one of the literals is true.
fn push_case(
    alloc: Global,
    sign: bool,
    lits: &[Lit],
    case: &Case<'_>,
    problem: &mut Problem,
) -> Result<(), Memory>
    requires lits { AreLitsOf problem.old.vars lits.now }
    requires case { IsCaseOf problem.old.vars (case_view case.now) }
    ensures { OnOk result (problem.new ≡ with_clauses problem.old
        (shown_clauses lits.now case.now.guards.now (side_of sign (case_view case.now))
        (side_of (not sign) (case_view case.now)))) }
{
    if sign {
        push_shown(alloc, lits, case.guards, &case.yes, &case.no, problem)
    } else {
        push_shown(alloc, lits, case.guards, &case.no, &case.yes, problem)
    }
}

/// Says it of each of the cases.
pub(crate) fn push_each_case(
    alloc: Global,
    sign: bool,
    lits: &[Lit],
    cases: &[Case<'_>],
    problem: &mut Problem,
) -> Result<(), Memory>
    requires lits { AreLitsOf problem.old.vars lits.now }
    requires cases { AllByRecursion (IsCaseOf problem.old.vars) (map case_view cases.now) }
    ensures { OnOk result (problem.new ≡ with_clauses problem.old
        (clauses_saying sign lits.now (map case_view cases.now))) }
{
    for case in cases {
        push_case(alloc, sign, lits, case, problem)?;
    }
    Ok(())
}
