//! Literals of variables.
ghost use Rattle.std.specs.Prelude.{◌≡◌, All, IfOk};
ghost use Rattle.kb_logic.specs.Models.{IsAtomOver, atom_of};
ghost use Rattle.kb_logic.specs.Structures.{EachWith};
ghost use Rattle.derivation_log.specs.Steps.{literal};
ghost use Rattle.derivation_log.specs.Texts.{IsLiteral};
ghost use Rattle.atom_numbers.specs.Numbers.{HasNumber};
ghost use Rattle.ground_task.specs.Choices.{AreOver};

use atom_numbers::AtomNumbers;
use ground_core::LitList;
use kb_logic::{ListOf, Literal, Memory};
use lit_core::{Lit, Var};
use std::alloc::Global;

/// The literals as a list of its own.
pub fn list_of(alloc: Global, lits: &[Lit]) -> Result<LitList, Memory>
    ensures { IfOk result (λ list. list ≡ lits.now) }
{
    Ok(ListOf::from_vec(lits.to_vec(alloc)?))
}

/// The literal of the variable that the literal's atom has.
pub fn lit_of(numbers: &AtomNumbers, literal: &Literal) -> Lit
    requires { IsAtomOver numbers.now.vocabulary.symbols numbers.now.domains (atom_of literal.now) }
    ensures number { HasNumber numbers.now literal.now result }
    ensures written { IsLiteral result }
{
    numbers.lit_of(literal)
}

/// The literals of the choices' variables.
pub fn lits_of(
    alloc: Global,
    numbers: &AtomNumbers,
    choices: &[Literal],
) -> Result<Vec<Lit>, Memory>
    requires { AreOver numbers.now choices.now }
    ensures each { IfOk result (λ lits. EachWith (HasNumber numbers.now) choices.now lits.items) }
    ensures written { IfOk result (λ lits. All IsLiteral lits.items) }
{
    let mut lits = Vec::with_capacity(alloc, choices.len())?;
    for choice in choices {
        lits.push(lit_of(numbers, choice))?;
    }
    Ok(lits)
}

/// The literal that makes the variable true.
pub fn selected(var: Var) -> Lit
    ensures { result ≡ literal var.0 }
{
    Lit {
        var,
        positive: true,
    }
}
