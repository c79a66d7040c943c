//! Atoms that are made known.
ghost use Rattle.std.specs.Prelude.{◌≡◌};
ghost use Rattle.partial_structures.specs.KnownAtoms.{IsAtomOver, atom_of, value_at};
ghost use Rattle.certain_truth.specs.Certainty.{truth_if};
ghost use Rattle.partial_structures.specs.declared.truths.Truth.TheVariants.{Unknown};
ghost use Rattle.quantifier_bounds.specs.Steps.{IsConstant, Narrows};

use crate::fault::BoundFault;
use kb_logic::Literal;
use partial_structures::{Partial, Truth};

/// The atom must have this value, whether the literal affirms or denies it.
pub(crate) fn settle(known: &mut Partial, atom: &Literal, v: bool) -> Result<bool, BoundFault>
    requires { IsAtomOver known.old.symbols known.old.domains (atom_of atom.now) }
    ensures { Narrows known.old known.new result (λ q. value_at q (atom_of atom.now) ≡ truth_if v) }
{
    known.consistency();
    match known.value(atom) {
        Truth::Unknown => make(known, atom, v),
        Truth::Yes => constant(v),
        Truth::No => constant(!v),
    }
}

/// Nothing follows from what holds; else it is a contradiction.
pub(crate) fn constant(holds: bool) -> Result<bool, BoundFault>
    ensures { IsConstant holds result }
{
    if holds {
        Ok(false)
    } else {
        Err(BoundFault::Contradiction)
    }
}

/// Makes an unknown atom known.
fn make(known: &mut Partial, atom: &Literal, v: bool) -> Result<bool, BoundFault>
    requires over { IsAtomOver known.old.symbols known.old.domains (atom_of atom.now) }
    requires unknown { value_at known.old (atom_of atom.now) ≡ Unknown }
    ensures { Narrows known.old known.new result (λ q. value_at q (atom_of atom.now) ≡ truth_if v) }
{
    known.consistency();
    if v {
        match known.set_true(atom) {
            Ok(()) => Ok(true),
            Err(_) => Err(BoundFault::Memory),
        }
    } else {
        match known.set_false(atom) {
            Ok(()) => Ok(true),
            Err(_) => Err(BoundFault::Memory),
        }
    }
}
