//! What is asked of the type with a number.
ghost use Rattle.std.specs.Prelude.{◌≡◌, List, slice_get};
ghost use Rattle.std.specs.Option.{option_copied};
ghost use Rattle.kb_logic.specs.declared.vocabularies.TypeDecl.{TypeDecl as AType};
ghost use Rattle.stage_definitions.specs.Elements as set;
ghost use Rattle.stage_definitions.specs.DataEntries as said;
ghost use Rattle.stage_definitions.specs.DataDomains as domain;
ghost use Rattle.stage_definitions.specs.SizesStage.{capped};
ghost use Rattle.structure_entries.specs.EntryViews.{cell_view, elem_view};
ghost use Rattle.data_domains.specs.Lookups.{AreTraitsAt};
ghost use Rattle.data_domains.specs.TypeSets.{AreTypesOf};

use crate::intervals::Interval;
use crate::traits::Traits;
use crate::types::TypeData;
use structure_entries::elements::{Cell, Element};

/// The traits of a number that no type has.
const BLANK: Traits = Traits {
    constructed: false,
    listed: false,
    occurs: false,
    number: false,
    natural: false,
    above: None,
};

fn data_at<'a, 'b>(types: &'b [TypeData<'a>], ty: usize) -> Option<&'b TypeData<'a>>
    ensures { option_copied result ≡ slice_get types.now ty }
{
    types.get(ty)
}

/// The traits of the type with this number.
pub fn traits_at(types: &[TypeData<'_>], ty: usize) -> Traits
    ensures { (all : List AType) (es : List said.Said) → AreTypesOf all es types.now → AreTraitsAt all es ty result }
{
    match data_at(types, ty) {
        Some(data) => data.traits,
        None => BLANK,
    }
}

/// How many elements the type has, at most the greatest of 64 bits.
pub fn count_of(types: &[TypeData<'_>], ty: usize) -> u64
    ensures { (all : List AType) (es : List said.Said) → AreTypesOf all es types.now
        → result ≡ capped (set.count_of (domain.cells_of all es ty)) }
{
    match data_at(types, ty) {
        Some(data) => data.elements.count(),
        None => 0,
    }
}

/// Whether the type has the element.
pub fn has_element<'a>(types: &[TypeData<'a>], ty: usize, x: Element<'a>) -> bool
    ensures { (all : List AType) (es : List said.Said) → AreTypesOf all es types.now
        → result ≡ set.is_among (domain.cells_of all es ty) (elem_view x.entry) }
{
    match data_at(types, ty) {
        Some(data) => data.elements.contains(x),
        None => false,
    }
}

/// Whether the type has each element of the cell.
pub fn covers<'a>(types: &[TypeData<'a>], ty: usize, cell: Cell<'a>) -> bool
    ensures { (all : List AType) (es : List said.Said) → AreTypesOf all es types.now
        → result ≡ set.is_covered (domain.cells_of all es ty) (cell_view cell.entry) }
{
    match data_at(types, ty) {
        Some(data) => data.elements.covers(cell),
        None => match cell {
            Cell::One(_) => false,
            Cell::Span(low, high) => Interval { low, high }.is_empty(),
        },
    }
}
