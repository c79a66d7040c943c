//! Laws of the stages of names, types and data.
ghost use Rattle.reading_laws.specs.Vocabularies.{DerivedIsWellFormed};
ghost use Rattle.reading_laws.specs.WellTyped.{AcceptedIsTypedOver, DerivedIsWellTyped};

use crate::{blocks_have_places, theories_have_places};

/// The vocabulary of what the stages of names and types accept is well formed: numbers of types and symbols are within
/// their limits, each type that is named is there, and no name is declared twice.
pub fn derived_is_well_formed()
    ensures { DerivedIsWellFormed }
{}

/// What the stages of names and types accept is well typed: each sentence, each rule of a definition, and each term
/// block's term, a number.
pub fn derived_is_well_typed()
    ensures { DerivedIsWellTyped }
{}

/// What the stage of data accepts as well is well typed over the data's domains: each sentence and each rule of the
/// chosen theory, and each term block's term, so that functions are applied within their types.
pub fn accepted_is_typed_over()
    ensures { AcceptedIsTypedOver }
{
    theories_have_places();
    blocks_have_places();
}
