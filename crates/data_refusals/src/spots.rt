//! What is noted of elements and ranges where they are written.
ghost use Rattle.std.specs.Prelude.{◌≡◌, ◌&&◌, ℕ, List, fold, map, negsuc, option_map, pos, OnOk};
ghost use Rattle.structure_entries.specs.WholeViews.{whole_view};
ghost use Rattle.kb_logic.specs.declared.vocabularies.TypeDecl.{TypeDecl as AType};
ghost use Rattle.stage_definitions.specs.Elements as set;
ghost use Rattle.stage_definitions.specs.DataEntries as said;
ghost use Rattle.stage_definitions.specs.DataDomains as domain;
ghost use Rattle.stage_definitions.specs.DataStage as stage;
ghost use Rattle.structure_entries.specs.EntryViews.{cell_view, row_view, spot_view};
ghost use Rattle.structure_entries.specs.SaidViews.{said_view};
ghost use Rattle.data_domains.specs.Lookups.{AreTraitsAt};
ghost use Rattle.data_domains.specs.TypeSets.{AreTypesOf};
ghost use Rattle.data_refusals.specs.Words.{has_words_alone};

use crate::words::{are_open, has_words_alone};
use data_domains::intervals::Interval;
use data_domains::lookups::{covers, traits_at};
use data_domains::traits::Traits;
use data_domains::types::TypeData;
use kb_logic::Memory;
use kb_text::K;
use stage_definitions::Earliest;
use std::alloc::Global;
use structure_entries::elements::{Cell, Element};
use structure_entries::rows::Row;
use structure_entries::spots::{Spot, set_spots};
use structure_entries::wholes::Whole;
use structure_entries::written::Entry;

/// From the least to the greatest integer of a domain.
const LEAST: i128 = -1_000_000;

const GREATEST: i128 = 1_000_000;

fn is_numeric(cell: Cell<'_>) -> bool
    ensures { result ≡ set.is_numeric (cell_view cell.entry) }
{
    match cell {
        Cell::One(x) => match x {
            Element::Word(_) => false,
            Element::Number(_) => true,
        },
        Cell::Span(_, _) => true,
    }
}

/// Whether the cell has no integer below 0.
fn is_not_negative(cell: Cell<'_>) -> bool
    ensures { result ≡ set.is_not_negative (cell_view cell.entry) }
{
    match cell {
        Cell::One(x) => match x {
            Element::Word(_) => true,
            Element::Number(n) => !(n.value() < 0),
        },
        Cell::Span(low, high) => Interval { low, high }.is_empty() || !(low.value() < 0),
    }
}

fn is_small(n: Whole) -> bool
    ensures { result ≡ set.is_between (negsuc 999999) (pos 1000000) (whole_view n) }
{
    let n = n.value();
    !(n < LEAST) && !(GREATEST < n)
}

/// Whether the cell's integers may stand in a domain.
pub fn is_in_range(cell: Cell<'_>) -> bool
    ensures { result ≡ domain.is_in_range (cell_view cell.entry) }
{
    match cell {
        Cell::One(x) => match x {
            Element::Word(_) => true,
            Element::Number(n) => is_small(n),
        },
        Cell::Span(low, high) => {
            Interval { low, high }.is_empty() || (is_small(low) && is_small(high))
        }
    }
}

/// Whether the cell is of the kind of the type with these traits.
fn is_of_kind(traits: Traits, cell: Cell<'_>) -> bool
    ensures { (all : List AType) (es : List said.Said) (t : ℕ) → AreTraitsAt all es t traits
        → result ≡ domain.is_of_kind all t (cell_view cell.entry) }
{
    (!traits.number || is_numeric(cell)) && (!traits.natural || is_not_negative(cell))
}

fn is_in_type_above<'a>(types: &[TypeData<'a>], above: Option<usize>, cell: Cell<'a>) -> bool
    ensures { (all : List AType) (es : List said.Said) → AreTypesOf all es types.now
        → result ≡ stage.is_in_type_above all es above (cell_view cell.entry) }
{
    match above {
        None => true,
        Some(above) => covers(types, above, cell),
    }
}

fn gives(traits: Traits, spot: &Spot<'_>) -> bool
    ensures { (all : List AType) (es : List said.Said) → AreTraitsAt all es spot.now.ty traits
        → result ≡ stage.gives all es (spot_view spot.now) }
{
    spot.in_list || traits.occurs
}

/// Whether what gives a type elements is of another kind or not in the type above, or all else not in the type.
fn is_outside<'a>(types: &[TypeData<'a>], traits: Traits, spot: &Spot<'a>, cell: Cell<'a>) -> bool
    ensures { (all : List AType) (es : List said.Said) → AreTypesOf all es types.now
        → AreTraitsAt all es spot.now.ty traits → result ≡ stage.is_outside all es (spot_view spot.now)
        (cell_view cell.entry) }
{
    if gives(traits, spot) {
        !is_of_kind(traits, cell) || (spot.in_list && !is_in_type_above(types, traits.above, cell))
    } else {
        !covers(types, spot.ty, cell)
    }
}

fn is_idle(traits: Traits, spot: &Spot<'_>) -> bool
    ensures { (all : List AType) (es : List said.Said) → AreTraitsAt all es spot.now.ty traits
        → result ≡ stage.is_idle all (spot_view spot.now) }
{
    spot.in_list && traits.constructed
}

/// Whether an element is not in its type; the cell is what stands here.
fn is_no_element<'a>(
    types: &[TypeData<'a>],
    traits: Traits,
    spot: &Spot<'a>,
    cell: Option<Cell<'a>>,
) -> bool
    requires { option_map cell_view cell ≡ (spot_view spot.now).cell }
    ensures { (all : List AType) (es : List said.Said) → AreTypesOf all es types.now
        → AreTraitsAt all es spot.now.ty traits → result ≡ stage.is_no_element all es
        (stage.spot (spot_view spot.now)) }
{
    if is_idle(traits, spot) {
        return false;
    }
    match cell {
        None => false,
        Some(cell) => is_outside(types, traits, spot, cell),
    }
}

/// Whether an integer of a domain is out of range; the cell is what stands here.
fn is_out_of_range(traits: Traits, spot: &Spot<'_>, cell: Option<Cell<'_>>) -> bool
    requires { option_map cell_view cell ≡ (spot_view spot.now).cell }
    ensures { (all : List AType) (es : List said.Said) → AreTraitsAt all es spot.now.ty traits
        → result ≡ stage.is_out_of_range all es (stage.spot (spot_view spot.now)) }
{
    if is_idle(traits, spot) || !gives(traits, spot) {
        return false;
    }
    match cell {
        None => false,
        Some(cell) => !is_in_range(cell),
    }
}

/// Notes what is refused of an element or a range.
fn note_spot<'a>(earliest: &mut Earliest, types: &[TypeData<'a>], spot: &Spot<'a>)
    ensures { (all : List AType) (es : List said.Said) → AreTypesOf all es types.now → earliest.new.first
        ≡ stage.data_noted all es earliest.old.first (stage.spot (spot_view spot.now)) }
{
    let traits = traits_at(types, spot.ty);
    let place = spot.place();
    let cell = spot.cell();
    earliest.note_if(
        is_no_element(types, traits, spot, cell),
        K::NotAnElement,
        place,
    );
    earliest.note_if(cell.is_none(), K::Unsupported, place);
    earliest.note_if(is_out_of_range(traits, spot, cell), K::OutOfRange, place);
}

/// Notes what is refused of elements and ranges.
fn note_spots<'a>(earliest: &mut Earliest, types: &[TypeData<'a>], spots: &[Spot<'a>])
    ensures { (all : List AType) (es : List said.Said) → AreTypesOf all es types.now → earliest.new.first
        ≡ fold (stage.data_noted all es) earliest.old.first (map stage.spot (map spot_view spots.now)) }
{
    for i in 0..spots.len() {
        note_spot(earliest, types, &spots[i]);
    }
}

/// Whether a row is of words alone where these are taken, so that nothing is refused of what stands in it.
fn is_fine(takes_words: bool, row: &Row<'_>) -> bool
    ensures { result ≡ (takes_words && has_words_alone (row_view row.now)) }
{
    takes_words && has_words_alone(row)
}

/// Notes what is refused of what stands in an entry.
pub fn note_written<'a>(
    alloc: Global,
    earliest: &mut Earliest,
    types: &[TypeData<'a>],
    entry: &Entry<'a>,
) -> Result<(), Memory>
    ensures { OnOk result ((all : List AType) (es : List said.Said) → AreTypesOf all es types.now → earliest.new.first
        ≡ fold (stage.data_noted all es) earliest.old.first (map stage.spot (said.spots_of (said_view entry.now)))) }
{
    let takes_words = are_open(types, entry.subject);
    let mut spots = Vec::new(alloc);
    for row in &entry.rows {
        if is_fine(takes_words, row) {
            continue;
        }
        set_spots(entry.subject, row, &mut spots)?;
        note_spots(earliest, types, &spots);
    }
    Ok(())
}
