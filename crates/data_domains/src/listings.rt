//! The elements of cells one by one.
ghost use Rattle.std.specs.Prelude.{◌≡◌, ◌+ℤ◌, ◌-ℤ◌, ◌≤ℤ◌, ◌<ℤ◌, pos, negsuc, fold, length, map, IfOk, OnOk};
ghost use Rattle.std.specs.List.{AllByRecursion};
ghost use Rattle.kb_logic.specs.declared.elements.Elem.TheVariants as elem;
ghost use Rattle.stage_definitions.specs.Elements as set;
ghost use Rattle.stage_definitions.specs.DataDomains.{is_in_range};
ghost use Rattle.std.specs.Prelude.{IsTrue};
ghost use Rattle.structure_entries.specs.WholeViews.{whole_view};
ghost use Rattle.structure_entries.specs.EntryViews.{cell_view};
ghost use Rattle.data_domains.specs.Listings.{HasPlaces, IsListing};

use crate::hulls::hull_of;
use crate::listing::Listing;
use kb_logic::{ElemList, Memory};
use std::alloc::Global;
use structure_entries::elements::{Cell, Element};
use structure_entries::wholes::Whole;

/// The place of an integer.
fn place_of(listing: &Listing<'_>, n: Whole) -> usize
    requires low { listing.now.base ≤ℤ whole_view n }
    requires high { whole_view n ≤ℤ pos 1000000 }
    requires base { negsuc 999999 ≤ℤ listing.now.base }
    ensures { (listing.now.base +ℤ pos result) ≡ whole_view n }
{
    (n.value() - i128::from(listing.base)) as usize
}

/// The integers of a range that is not empty.
fn add_span(listing: &mut Listing<'_>, low: Whole, high: Whole) -> Result<(), Memory>
    requires listing { IsListing listing.old }
    requires range { (listing.old.base +ℤ pos (length listing.old.ahead.items)) ≤ℤ pos 1000001 }
    requires base { negsuc 999999 ≤ℤ listing.old.base }
    requires order { whole_view low ≤ℤ whole_view high }
    requires first { listing.old.base ≤ℤ whole_view low }
    requires last { whole_view high <ℤ (listing.old.base +ℤ pos (length listing.old.ahead.items)) }
    ensures listing { OnOk result (IsListing listing.new) }
    ensures elems { OnOk result (listing.new.elems ≡ fold set.with_element listing.old.elems
        (set.members (set.span (whole_view low) (whole_view high)))) }
    ensures base { OnOk result (listing.new.base ≡ listing.old.base) }
    ensures count { OnOk result (length listing.new.ahead.items ≡ length listing.old.ahead.items) }
{
    let from = place_of(listing, low);
    let last = place_of(listing, high);
    listing.add_integers(from, last + 1)
}

/// The elements of a cell whose integers have places.
fn add_cell<'a>(alloc: Global, listing: &mut Listing<'a>, cell: Cell<'a>) -> Result<(), Memory>
    requires listing { IsListing listing.old }
    requires range { (listing.old.base +ℤ pos (length listing.old.ahead.items)) ≤ℤ pos 1000001 }
    requires base { negsuc 999999 ≤ℤ listing.old.base }
    requires places { HasPlaces listing.old.base (length listing.old.ahead.items) (cell_view cell) }
    ensures listing { OnOk result (IsListing listing.new) }
    ensures elems { OnOk result (listing.new.elems ≡ fold set.with_element listing.old.elems
        (set.members (cell_view cell.entry))) }
    ensures base { OnOk result (listing.new.base ≡ listing.old.base) }
    ensures count { OnOk result (length listing.new.ahead.items ≡ length listing.old.ahead.items) }
{
    match cell {
        Cell::One(x) => match x {
            Element::Word(word) => listing.add_word(alloc, word),
            Element::Number(n) => add_span(listing, n, n),
        },
        Cell::Span(low, high) => {
            if high.is_below(low) {
                Ok(())
            } else {
                add_span(listing, low, high)
            }
        }
    }
}

/// The elements of some cells, each once, in the order in which they first occur.
pub fn listed(alloc: Global, cells: &[Cell<'_>]) -> Result<ElemList, Memory>
    requires { AllByRecursion (λ c. IsTrue (is_in_range (cell_view c))) cells.now }
    ensures { IfOk result (λ xs. xs ≡ set.listed (map cell_view cells.now)) }
{
    let mut listing = Listing::new(alloc, hull_of(cells))?;
    for cell in cells {
        add_cell(alloc, &mut listing, *cell)?;
    }
    Ok(listing.elems)
}
