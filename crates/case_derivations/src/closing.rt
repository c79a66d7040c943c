//! How a case ends: a clause is false in it.
ghost use Rattle.std.specs.Prelude.{◌≡◌, ◌++◌, [], ◌∷◌, IfOk, OnOk, MatchOption, IsTrue, ◌↔◌, Contains};
ghost use Rattle.lit_core.specs.Literals.{negated};
ghost use Rattle.lit_core.specs.Refutation.{IsOpenUnder};
ghost use Rattle.ground_core.specs.Problems.{AreLitsOf};
ghost use Rattle.derivation_log.specs.Steps.{HasNoOpposites};
ghost use Rattle.log_checker.specs.Cases.{IsFalseAt};
ghost use Rattle.case_derivations.specs.Adding.{Adds};
ghost use Rattle.case_derivations.specs.OpenCases.{IsShut, IsBacked};
ghost use Rattle.case_derivations.specs.Closing.{HasLit, Closes};

use crate::adding::add_resolvent;
use crate::open_cases::Case;
use ground_core::Memory;
use lit_core::{Lit, PackedLit};
use log_checker::Checker;
use std::alloc::Global;

/// Whether the two are one literal.
fn same(a: Lit, b: Lit) -> bool
    ensures { IsTrue result ↔ (a ≡ b) }
{
    a.var.0 == b.var.0 && a.positive == b.positive
}

/// Whether the literal is in the clause.
fn has(clause: &[PackedLit], lit: Lit) -> bool
    ensures { IsTrue result ↔ Contains clause.now lit }
{
    for packed in clause {
        if same(packed.lit(), lit) {
            return true;
        }
    }
    false
}

/// Whether the literal is in the clause of this number.
fn has_at(checker: &Checker, number: u64, lit: Lit) -> bool
    ensures { HasLit checker.now.state.clauses number lit result }
{
    match checker.clause(number) {
        Some(clause) => has(clause, lit),
        None => false,
    }
}

/// Ends a case in which this clause is false: a clause that is false without the case's literal, or None where the
/// other case is to come.
pub fn close(
    alloc: Global,
    checker: &mut Checker,
    text: &mut Vec<u8>,
    inforce: &[Lit],
    case: Case,
    number: u64,
) -> Result<Option<u64>, Memory>
    requires literals { AreLitsOf checker.old.state.vars inforce.now }
    requires fine { HasNoOpposites inforce.now }
    requires case { IsOpenUnder inforce.now case.lit }
    requires backed { IsBacked checker.old.state.clauses inforce.now case }
    requires falsity { IsFalseAt checker.old.state.clauses (inforce.now ++ case.lit ∷ []) number }
    ensures adds { OnOk result (Adds checker.old checker.new text.old.items text.new.items) }
    ensures closes { IfOk result (Closes checker.new.state.clauses inforce.now case.lit number) }
    ensures problem { checker.new.problem ≡ checker.old.problem }
{
    if !has_at(checker, number, case.lit.negated()) {
        return Ok(Some(number));
    }
    if case.other == 0 {
        return Ok(None);
    }
    let next = add_resolvent(alloc, checker, text, inforce, case, number)?;
    Ok(Some(next))
}
