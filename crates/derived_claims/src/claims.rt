//! The statement of a right reply.
ghost use Rattle.std.specs.Prelude.{◌≡◌, IfOk, OnOk};
ghost use Rattle.consult_base.specs.Opened.{base_of};
ghost use Rattle.def_ground.specs.Groundings.{IsGroundTheory};
ghost use Rattle.derivation_log.specs.Texts.{IsBelow};
ghost use Rattle.ground_task.specs.Choices.{AreOver};
ghost use Rattle.ground_task.specs.Tasks.{atom_base};
ghost use Rattle.log_checker.specs.Growing.{GoesOn};
ghost use Rattle.narrowed_bases.specs.Narrowings.{IsProblemOf};
ghost use Rattle.claimed_replies.specs.Claims.{AreLeastClaims, ClaimsOf, IsTheClaim, SaysInconsistent, SaysLeast};
ghost use Rattle.log_checker.specs.Cases.{IsRefuted};
ghost use Rattle.derived_claims.specs.Following.{AreOfAtoms, Follows, IsLeastUnder};
ghost use Rattle.derived_claims.specs.Statements.{HasClaims, IsRightUnder, States};

use crate::entries::{derive_with, has_lower, is_kept, next_var, put, term_number};
use crate::forcings::of_forced;
use crate::literals::{list_of, lits_of, selected};
use atom_numbers::AtomNumbers;
use case_derivations::derive;
use consult_base::KnowledgeBase;
use consult_text::{Command, Reply};
use derivation_log::Entry;
use kb_logic::{ExtInt, Literal, Memory};
use lit_core::Lit;
use log_checker::Checker;
use std::alloc::Global;

/// The statement that nothing makes the literals true.
fn of_inconsistent(alloc: Global, checker: &mut Checker, lits: &[Lit]) -> Result<Vec<u8>, Memory>
    requires atoms { AreOfAtoms checker.old lits.now }
    requires refuted { IsRefuted checker.old lits.now }
    ensures { IfOk result (λ bytes. States checker.old checker.new (IsTheClaim (SaysInconsistent lits.now))
        bytes.items) }
{
    let mut text = Vec::new(alloc);
    let clause = derive(alloc, checker, &mut text, lits)?;
    let entry = Entry::Inconsistent(list_of(alloc, lits)?, clause);
    put(checker, &mut text, entry)?;
    Ok(text)
}

/// The statement that nothing that makes the literals true gives the term a lower value, where there are such.
fn of_least(
    alloc: Global,
    checker: &mut Checker,
    lits: &mut Vec<Lit>,
    term: u32,
    value: ExtInt,
) -> Result<Vec<u8>, Memory>
    requires atoms { AreOfAtoms checker.old lits.old.items }
    requires lower { IsBelow value }
    requires least { IsLeastUnder checker.old lits.old.items term value }
    ensures { IfOk result (λ bytes. States checker.old checker.new (IsTheClaim (SaysLeast lits.old.items term value))
        bytes.items) }
{
    let number = term_number(term)?;
    let mut text = Vec::new(alloc);
    let selector = next_var(checker)?;
    put(checker, &mut text, Entry::Bound(selector, number, value))?;
    let clause = derive_with(alloc, checker, &mut text, lits, selected(selector))?;
    let entry = Entry::Least(number, value, list_of(alloc, lits.as_slice())?, clause);
    put(checker, &mut text, entry)?;
    Ok(text)
}

/// The statement that this is the least value of the term where the literals are true; of `-inf` nothing is claimed.
fn of_minimum(
    alloc: Global,
    checker: &mut Checker,
    lits: &mut Vec<Lit>,
    term: u32,
    value: ExtInt,
) -> Result<Vec<u8>, Memory>
    requires atoms { AreOfAtoms checker.old lits.old.items }
    requires least { IsLeastUnder checker.old lits.old.items term value }
    ensures { IfOk result (λ bytes. States checker.old checker.new (AreLeastClaims lits.old.items term value)
        bytes.items) }
{
    if !has_lower(value) {
        return Ok(Vec::new(alloc));
    }
    of_least(alloc, checker, lits, term, value)
}

/// The statement of the reply to the command, of choices with these literals.
fn statement_with(
    alloc: Global,
    numbers: &AtomNumbers,
    checker: &mut Checker,
    lits: &mut Vec<Lit>,
    command: &Command,
    reply: &Reply,
) -> Result<Vec<u8>, Memory>
    requires atoms { AreOfAtoms checker.old lits.old.items }
    requires follows { Follows numbers.now checker.old lits.old.items command.now reply.now }
    ensures { IfOk result (λ bytes. States checker.old checker.new
        (ClaimsOf numbers.now lits.old.items command.now reply.now) bytes.items) }
{
    match reply {
        Reply::Inconsistent => of_inconsistent(alloc, checker, lits.as_slice()),
        Reply::Forced(literals) => of_forced(alloc, numbers, checker, lits, literals.as_slice()),
        Reply::Minimum(value, _) => match command {
            Command::Minimize(term) => of_minimum(alloc, checker, lits, *term, *value),
            _ => Ok(Vec::new(alloc)),
        },
        _ => Ok(Vec::new(alloc)),
    }
}

/// The variables of the ground atoms.
fn numbers_of(alloc: Global, kb: &KnowledgeBase) -> Result<AtomNumbers, Memory>
    ensures numbers { IfOk result (λ numbers. numbers ≡ atom_base (base_of kb.now)) }
    ensures theory { IsGroundTheory (base_of kb.now) }
{
    AtomNumbers::of(alloc, kb.vocabulary(), kb.data().domains())
}

/// The entries by which the claims of a right reply follow, derived by cases, and then the claims, as texts: they are
/// steps behind what the checker knew.
pub fn derived_claims(
    alloc: Global,
    kb: &KnowledgeBase,
    checker: &mut Checker,
    choices: &[Literal],
    command: &Command,
    reply: &Reply,
) -> Result<Vec<u8>, Memory>
    requires over { AreOver (atom_base (base_of kb.now)) choices.now }
    requires right { IsRightUnder (base_of kb.now) choices.now command.now reply.now }
    requires problem { IsProblemOf (base_of kb.now) checker.old.problem }
    ensures claims { IfOk result (λ bytes. HasClaims (base_of kb.now) choices.now command.now reply.now bytes.items) }
    ensures goes_on { IfOk result (λ bytes. GoesOn checker.old bytes.items checker.new) }
    ensures line { OnOk result (checker.new.state.line ≡ checker.old.state.line) }
{
    is_kept(checker);
    let numbers = numbers_of(alloc, kb)?;
    let mut lits = lits_of(alloc, &numbers, choices)?;
    statement_with(alloc, &numbers, checker, &mut lits, command, reply)
}
