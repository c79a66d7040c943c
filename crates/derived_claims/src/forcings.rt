//! Literals that follow from the choices.
ghost use Rattle.std.specs.Prelude.{◌≡◌, ◌++◌, All, IfOk, OnOk, map};
ghost use Rattle.kb_logic.specs.Structures.{EachWith};
ghost use Rattle.claimed_replies.specs.Claims.{SaysForced};
ghost use Rattle.derived_claims.specs.Following.{AreOfAtoms, IsForcedOver, IsForcing, IsOfLiteral, forced_claim};
ghost use Rattle.derived_claims.specs.Statements.{Claimed, Derived, States};

use crate::entries::{derive_with, put};
use crate::forcing::Forcing;
use crate::literals::{list_of, lit_of};
use atom_numbers::AtomNumbers;
use derivation_log::Entry;
use kb_logic::{Literal, Memory};
use lit_core::Lit;
use log_checker::Checker;
use std::alloc::Global;

/// Derives a clause by which each of the literals follows from the choices' literals.
fn forcings(
    alloc: Global,
    numbers: &AtomNumbers,
    checker: &mut Checker,
    text: &mut Vec<u8>,
    lits: &mut Vec<Lit>,
    literals: &[Literal],
) -> Result<Vec<Forcing>, Memory>
    requires atoms { AreOfAtoms checker.old lits.old.items }
    requires forced { All (IsForcedOver numbers.now checker.old lits.old.items) literals.now }
    ensures kept { OnOk result (lits.new.items ≡ lits.old.items) }
    ensures derives { OnOk result (Derived checker.old checker.new text.old.items text.new.items) }
    ensures each { IfOk result (λ found. EachWith (IsOfLiteral numbers.now) literals.now found.items) }
    ensures cites { IfOk result (λ found. All (IsForcing checker.new lits.old.items) found.items) }
{
    let mut found = Vec::new(alloc);
    for literal in literals {
        let lit = lit_of(numbers, literal);
        let clause = derive_with(alloc, checker, text, lits, lit.negated())?;
        found.push(Forcing { lit, clause })?;
    }
    Ok(found)
}

/// Claims that each of them follows from the choices' literals.
fn claim_each(
    alloc: Global,
    checker: &mut Checker,
    text: &mut Vec<u8>,
    lits: &[Lit],
    found: &[Forcing],
) -> Result<(), Memory>
    requires atoms { AreOfAtoms checker.old lits.now }
    requires cites { All (IsForcing checker.old lits.now) found.now }
    ensures { OnOk result (Claimed checker.old checker.new (map (forced_claim lits.now) found.now) text.old.items
        text.new.items) }
{
    for forcing in found {
        let lits = list_of(alloc, lits)?;
        put(
            checker,
            text,
            Entry::Forced(forcing.lit, lits, forcing.clause),
        )?;
    }
    Ok(())
}

// The entries of a search come before the claims of a statement, so that all is derived before anything is claimed.
// Clauses keep their numbers.
/// The statement that all these literals follow from the choices' literals.
pub fn of_forced(
    alloc: Global,
    numbers: &AtomNumbers,
    checker: &mut Checker,
    lits: &mut Vec<Lit>,
    literals: &[Literal],
) -> Result<Vec<u8>, Memory>
    requires atoms { AreOfAtoms checker.old lits.old.items }
    requires forced { All (IsForcedOver numbers.now checker.old lits.old.items) literals.now }
    ensures { IfOk result (λ bytes. States checker.old checker.new
        (EachWith (SaysForced numbers.now lits.old.items) literals.now) bytes.items) }
{
    let mut text = Vec::new(alloc);
    let found = forcings(alloc, numbers, checker, &mut text, lits, literals)?;
    claim_each(alloc, checker, &mut text, lits.as_slice(), found.as_slice())?;
    Ok(text)
}
