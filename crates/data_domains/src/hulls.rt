//! The interval in which the integers of some cells lie.
ghost use Rattle.std.specs.Prelude.{◌≡◌, fold, map};
ghost use Rattle.stage_definitions.specs.Elements as set;
ghost use Rattle.structure_entries.specs.WholeViews.{whole_view};
ghost use Rattle.structure_entries.specs.EntryViews.{cell_view};
ghost use Rattle.data_domains.specs.Listings.{hull_of, reach};
ghost use Rattle.data_domains.specs.Sets.{interval_view};

use crate::intervals::Interval;
use structure_entries::elements::{Cell, Element};
use structure_entries::wholes::Whole;

/// Before the first integer of a domain there is none; the ends are exchanged.
const NOTHING: Interval = Interval {
    low: Whole {
        negative: false,
        digits: 1_000_000,
    },
    high: Whole {
        negative: true,
        digits: 1_000_000,
    },
};

fn reach(hull: Interval, more: Interval) -> Interval
    ensures { interval_view result ≡ reach (interval_view hull) (interval_view more) }
{
    if more.is_empty() {
        hull
    } else {
        hull.joined(more)
    }
}

/// From the least to the greatest integer of the hull and of the cell.
fn with_cell(hull: Interval, cell: Cell<'_>) -> Interval
    ensures { interval_view result ≡ fold reach (interval_view hull) (set.intervals_in (cell_view cell.entry)) }
{
    match cell {
        Cell::One(x) => match x {
            Element::Word(_) => hull,
            Element::Number(n) => reach(hull, Interval { low: n, high: n }),
        },
        Cell::Span(low, high) => reach(hull, Interval { low, high }),
    }
}

/// From the least to the greatest integer of some cells.
pub fn hull_of(cells: &[Cell<'_>]) -> Interval
    ensures { interval_view result ≡ hull_of (map cell_view cells.now) }
{
    let mut hull = NOTHING;
    for cell in cells {
        hull = with_cell(hull, *cell);
    }
    hull
}
