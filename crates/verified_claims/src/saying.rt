//! Claims in the words of a knowledge base.
ghost use Rattle.std.specs.Prelude.{◌≡◌, All, IfOk, OnOk, length};
ghost use Rattle.kb_logic.specs.KnownAtoms.{atoms_over};
ghost use Rattle.kb_logic.specs.Structures.{EachWith};
ghost use Rattle.consult_base.specs.Opened.{base_of};
ghost use Rattle.ground_core.specs.Problems.{AreLitsOf};
ghost use Rattle.atom_numbers.specs.Numbers.{HasNumber};
ghost use Rattle.verified_claims.specs.SaidClaims.{SaysBy, atom_base};
ghost use Rattle.verified_claims.specs.RightClaims.{IsOver, HasLineOf, HasLinesOf, IsTextOf, atom_count};

use crate::lines::push_claim;
use crate::said::SaidClaim;
use atom_numbers::AtomNumbers;
use consult_base::KnowledgeBase;
use kb_logic::{LiteralList, Memory};
use lit_core::Lit;
use literal_printer::pieces::push_bytes;
use log_checker::Claim;
use std::alloc::Global;

/// The literals of the ground atoms that have these variables.
fn choices_of(alloc: Global, numbers: &AtomNumbers, lits: &[Lit]) -> Result<LiteralList, Memory>
    requires { AreLitsOf (length (atoms_over numbers.now.vocabulary.symbols numbers.now.domains)) lits.now }
    ensures { IfOk result (λ choices. EachWith (HasNumber numbers.now) choices lits.now) }
{
    let mut choices = LiteralList::new(alloc);
    for lit in lits {
        choices.push(numbers.literal_of(alloc, *lit)?)?;
    }
    Ok(choices)
}

/// What the claim says.
fn said(alloc: Global, numbers: &AtomNumbers, claim: &Claim) -> Result<SaidClaim, Memory>
    requires { IsOver (length (atoms_over numbers.now.vocabulary.symbols numbers.now.domains)) claim.now }
    ensures { IfOk result (SaysBy numbers.now claim.now) }
{
    match claim {
        Claim::Inconsistent(line, lits) => {
            let choices = choices_of(alloc, numbers, lits.as_slice())?;
            Ok(SaidClaim::Inconsistent(*line, choices))
        }
        Claim::Forced(line, lit, lits) => {
            let choices = choices_of(alloc, numbers, lits.as_slice())?;
            let literal = numbers.literal_of(alloc, *lit)?;
            Ok(SaidClaim::Forced(*line, literal, choices))
        }
        Claim::Least(line, term, value, lits) => {
            let choices = choices_of(alloc, numbers, lits.as_slice())?;
            Ok(SaidClaim::Least(*line, *term - 1, *value, choices))
        }
    }
}

/// Appends the line of what the claim says.
fn push_said(
    alloc: Global,
    out: &mut Vec<u8>,
    kb: &KnowledgeBase,
    numbers: &AtomNumbers,
    claim: &Claim,
) -> Result<(), Memory>
    requires numbers { numbers.now ≡ atom_base (base_of kb.now) }
    requires over { IsOver (atom_count (base_of kb.now)) claim.now }
    ensures { OnOk result (HasLineOf (base_of kb.now) claim.now out.old.items out.new.items) }
{
    let said = said(alloc, numbers, claim)?;
    push_claim(out, kb, &said)
}

/// Appends the lines of what the claims say.
fn push_all(
    alloc: Global,
    out: &mut Vec<u8>,
    kb: &KnowledgeBase,
    numbers: &AtomNumbers,
    claims: &[Claim],
) -> Result<(), Memory>
    requires numbers { numbers.now ≡ atom_base (base_of kb.now) }
    requires over { All (IsOver (atom_count (base_of kb.now))) claims.now }
    ensures { OnOk result (HasLinesOf (base_of kb.now) claims.now out.old.items out.new.items) }
{
    for claim in claims {
        push_said(alloc, out, kb, numbers, claim)?;
    }
    Ok(())
}

/// The variables of the ground atoms.
fn numbers_of(alloc: Global, kb: &KnowledgeBase) -> Result<AtomNumbers, Memory>
    ensures { IfOk result (λ numbers. numbers ≡ atom_base (base_of kb.now)) }
{
    AtomNumbers::of(alloc, kb.vocabulary(), kb.data().domains())
}

// The numbers have one way out: wherever they are given up, all their lists are.
/// Appends the lines of what the claims say.
fn push_claims(
    alloc: Global,
    out: &mut Vec<u8>,
    kb: &KnowledgeBase,
    claims: &[Claim],
) -> Result<(), Memory>
    requires { All (IsOver (atom_count (base_of kb.now))) claims.now }
    ensures { OnOk result (HasLinesOf (base_of kb.now) claims.now out.old.items out.new.items) }
{
    let numbers = numbers_of(alloc, kb)?;
    push_all(alloc, out, kb, &numbers, claims)
}

/// The lines of what the claims say, and `accepted`.
pub(crate) fn verdict_text(
    alloc: Global,
    kb: &KnowledgeBase,
    claims: &[Claim],
) -> Result<Vec<u8>, Memory>
    requires { All (IsOver (atom_count (base_of kb.now))) claims.now }
    ensures { IfOk result (λ text. IsTextOf (base_of kb.now) claims.now text.items) }
{
    let mut out = Vec::new(alloc);
    push_claims(alloc, &mut out, kb, claims)?;
    push_bytes(&mut out, b"accepted\n")?;
    Ok(out)
}
