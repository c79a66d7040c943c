//! Choices as literals of variables, and back.
ghost use Rattle.std.specs.Prelude.{◌≡◌, length, slice_get, Some, IsTrue, IfOk, ◌↔◌};
ghost use Rattle.kb_logic.specs.Structures.{EachWith};
ghost use Rattle.ground_core.specs.Solving.{IsSublist};
ghost use Rattle.term_values.specs.GroundBases.{GroundBase};
ghost use Rattle.atom_numbers.specs.Numbers.{HasNumber};
ghost use Rattle.ground_task.specs.Choices.{AreOver, AreChosen};

use atom_numbers::AtomNumbers;
use kb_logic::{Literal, LiteralList, Memory};
use lit_core::Lit;
use std::alloc::Global;

/// The literals of the choices' variables.
pub(crate) fn lits_of(
    alloc: Global,
    numbers: &AtomNumbers,
    choices: &[Literal],
) -> Result<Vec<Lit>, Memory>
    requires { AreOver numbers.now choices.now }
    ensures { IfOk result (λ lits. EachWith (HasNumber numbers.now) choices.now lits.items) }
{
    let mut lits = Vec::with_capacity(alloc, choices.len())?;
    for choice in choices {
        lits.push(numbers.lit_of(choice))?;
    }
    Ok(lits)
}

/// Whether the literal is the one that stands here.
fn stands_at(lits: &[Lit], at: usize, lit: Lit) -> bool
    ensures { IsTrue result ↔ slice_get lits.now at ≡ Some lit }
{
    match lits.get(at) {
        Some(found) => *found == lit,
        None => false,
    }
}

// A core has its literals in the order of what was assumed, so that one walk along both finds all.
/// The choices whose literals the core has, in their order.
pub(crate) fn chosen_among(
    alloc: Global,
    choices: &[Literal],
    lits: &[Lit],
    core: &[Lit],
) -> Result<LiteralList, Memory>
    requires same { length choices.now ≡ length lits.now }
    requires among { IsSublist core.now lits.now }
    ensures { IfOk result (λ some. (b : GroundBase) → EachWith (HasNumber b) choices.now lits.now
        → AreChosen b choices.now core.now some) }
{
    let mut some = LiteralList::new(alloc);
    let mut at = 0;
    for k in 0..choices.len() {
        if !stands_at(core, at, lits[k]) {
            continue;
        }
        some.push(choices[k].copy(alloc)?)?;
        at += 1;
    }
    Ok(some)
}
