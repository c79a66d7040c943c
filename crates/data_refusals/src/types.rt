//! What is noted of types.
ghost use Rattle.std.specs.Prelude.{◌≡◌, ℕ, List, fold, Some, slice_get};
ghost use Rattle.kb_logic.specs.declared.vocabularies.TypeDecl.{TypeDecl as AType};
ghost use Rattle.stage_definitions.specs.DataEntries as said;
ghost use Rattle.stage_definitions.specs.DataDomains as domain;
ghost use Rattle.stage_definitions.specs.DataStage as stage;
ghost use Rattle.data_domains.specs.Sets.{IsSetOf};
ghost use Rattle.data_domains.specs.Traits.{AreTraitsOf};
ghost use Rattle.data_domains.specs.TypeSets.{AreTypesOf};

use data_domains::types::TypeData;
use kb_logic::TypeDecl;
use kb_text::K;
use stage_definitions::{Earliest, type_above};

/// The most elements that a type may have.
pub const ELEMENT_LIMIT: u64 = 65_536;

/// Notes a type that has no list and wants one, or too many elements that occur.
fn note_type(earliest: &mut Earliest, decl: &TypeDecl, known: &TypeData<'_>, place: usize)
    ensures { (all : List AType) (es : List said.Said) (t : ℕ) → AreTraitsOf all es t decl.now known.now.traits
        → IsSetOf (domain.cells_by all es t decl.now) known.now.elements → earliest.new.first
        ≡ stage.data_noted all es earliest.old.first (stage.declared t decl.now place) }
{
    let is_missing = type_above(decl.parent).is_some() && !known.traits.listed;
    earliest.note_if(is_missing, K::TypeNotGiven, place);
    let is_large = known.traits.occurs && ELEMENT_LIMIT < known.elements.count();
    earliest.note_if(is_large, K::TooLarge, place);
}

/// Notes each type, whose name stands at its place.
pub fn note_types(
    earliest: &mut Earliest,
    decls: &[TypeDecl],
    types: &[TypeData<'_>],
    places: &[usize],
)
    ensures { (es : List said.Said) → AreTypesOf decls.now es types.now → earliest.new.first
        ≡ fold (stage.data_noted decls.now es) earliest.old.first (stage.uses_of_types decls.now places.now) }
{
    for t in 0..decls.len() {
        if t >= places.len() {
            return;
        }
        if t >= types.len() {
            return;
        }
        note_type(earliest, &decls[t], &types[t], places[t]);
    }
}
