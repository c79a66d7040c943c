//! The walk through all cases.
ghost use Rattle.std.specs.Prelude.{◌≡◌, IfOk, OnOk, MatchOption};
ghost use Rattle.ground_core.specs.Problems.{AreLitsOf};
ghost use Rattle.derivation_log.specs.Steps.{HasNoOpposites};
ghost use Rattle.log_checker.specs.Cases.{IsFalseAt};
ghost use Rattle.case_derivations.specs.Adding.{Adds};
ghost use Rattle.case_derivations.specs.Looking.{IsAdmitted};
ghost use Rattle.case_derivations.specs.OpenCases.{in_force, Stands};
ghost use Rattle.case_derivations.specs.Turning.{TurnsOut};

use crate::closing::close;
use crate::looking::{Seen, look};
use crate::open_cases::{Case, OpenCases};
use ground_core::Memory;
use lit_core::Lit;
use log_checker::Checker;
use std::alloc::Global;

/// Goes back from a clause that is false in the innermost case to one whose other case is to come, and begins that; or
/// to the given literals, under which the clause of the number is false then.
fn go_back(
    alloc: Global,
    checker: &mut Checker,
    text: &mut Vec<u8>,
    lits: &[Lit],
    cases: &mut OpenCases,
    number: u64,
) -> Result<Option<u64>, Memory>
    requires stands { Stands checker.old.state.vars checker.old.state.clauses lits.now cases.old }
    requires falsity { IsFalseAt checker.old.state.clauses (in_force lits.now cases.old) number }
    ensures adds { OnOk result (Adds checker.old checker.new text.old.items text.new.items) }
    ensures stands { IfOk result (λ o. MatchOption o (Stands checker.new.state.vars checker.new.state.clauses lits.now
        cases.new) (IsFalseAt checker.new.state.clauses lits.now)) }
    ensures problem { checker.new.problem ≡ checker.old.problem }
{
    let mut number = number;
    while let Some(case) = cases.pop() {
        let inforce = cases.in_force(alloc, lits)?;
        match close(alloc, checker, text, &inforce, case, number)? {
            Some(next) => number = next,
            None => {
                cases.push(Case {
                    lit: case.lit.negated(),
                    other: number,
                })?;
                return Ok(None);
            }
        }
    }
    Ok(Some(number))
}

/// What comes of a turn: a case to go on with, a clause that is false under the given literals, or a valuation that
/// admits them.
#[derive(Clone, Copy)]
pub enum Turn {
    On,
    Refuted(u64),
    Admitted,
}

/// Begins one more case, or goes back where a clause is false.
fn take_turn(
    alloc: Global,
    checker: &mut Checker,
    text: &mut Vec<u8>,
    lits: &[Lit],
    cases: &mut OpenCases,
) -> Result<Turn, Memory>
    requires { Stands checker.old.state.vars checker.old.state.clauses lits.now cases.old }
    ensures adds { OnOk result (Adds checker.old checker.new text.old.items text.new.items) }
    ensures turns { IfOk result (TurnsOut checker.new lits.now cases.new) }
    ensures problem { checker.new.problem ≡ checker.old.problem }
{
    let inforce = cases.in_force(alloc, lits)?;
    match look(alloc, checker, text, &inforce)? {
        Seen::FalseClause(number) => {
            match go_back(alloc, checker, text, lits, cases, number)? {
                Some(found) => Ok(Turn::Refuted(found)),
                None => Ok(Turn::On),
            }
        }
        Seen::OpenLiteral(lit) => {
            cases.push(Case { lit, other: 0 })?;
            Ok(Turn::On)
        }
        Seen::NothingFalse => Ok(Turn::Admitted),
    }
}

/// Goes through all cases: the number of a clause that is false under the literals, or None where a valuation admits
/// them. More turns than a number of 64 bits can count, which no machine makes, count as out of memory.
pub fn walk(
    alloc: Global,
    checker: &mut Checker,
    text: &mut Vec<u8>,
    lits: &[Lit],
) -> Result<Option<u64>, Memory>
    requires literals { AreLitsOf checker.old.state.vars lits.now }
    requires fine { HasNoOpposites lits.now }
    ensures adds { OnOk result (Adds checker.old checker.new text.old.items text.new.items) }
    ensures bears { IfOk result (λ o. MatchOption o (IsAdmitted checker.new lits.now)
        (IsFalseAt checker.new.state.clauses lits.now)) }
    ensures problem { checker.new.problem ≡ checker.old.problem }
{
    // A list in place of recursion: it is as deep as there are variables, for which the machine's stack is too short.
    let mut cases = OpenCases::new(alloc);
    for _turn in 0..u64::MAX {
        match take_turn(alloc, checker, text, lits, &mut cases)? {
            Turn::On => {}
            Turn::Refuted(number) => return Ok(Some(number)),
            Turn::Admitted => return Ok(None),
        }
    }
    Err(Memory)
}
