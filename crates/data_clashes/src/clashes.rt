//! Whether two rows clash.
ghost use Rattle.std.specs.Prelude.{◌≡◌, map, option_map};
ghost use Rattle.stage_definitions.specs.Elements as set;
ghost use Rattle.stage_definitions.specs.DataFacts as stated;
ghost use Rattle.structure_entries.specs.EntryViews.{cell_view, elem_view, fact_view};

use data_domains::intervals::Interval;
use structure_entries::elements::{Cell, Element, is_in, same_element};
use structure_entries::facts::Fact;

/// Whether some element is in both cells.
fn do_share(a: Cell<'_>, b: Cell<'_>) -> bool
    ensures { result ≡ set.do_share (cell_view a.entry) (cell_view b.entry) }
{
    match a {
        Cell::One(x) => is_in(x, b),
        Cell::Span(low, high) => match b {
            Cell::One(y) => is_in(y, a),
            Cell::Span(first, last) => Interval { low, high }.meets(Interval {
                low: first,
                high: last,
            }),
        },
    }
}

/// Whether some tuple is in both rows of cells.
fn all_share(a: &[Cell<'_>], b: &[Cell<'_>]) -> bool
    ensures { result ≡ stated.all_share (map cell_view a.now) (map cell_view b.now) }
{
    for i in 0..a.len() {
        if i >= b.len() {
            return false;
        }
        if !do_share(a[i], b[i]) {
            return false;
        }
    }
    b.len() <= a.len()
}

/// Whether both are no value, or the same one.
pub fn same_value_of(a: Option<Element<'_>>, b: Option<Element<'_>>) -> bool
    ensures { result ≡ stated.same_value_of (option_map elem_view a.entry) (option_map elem_view b.entry) }
{
    match a {
        None => b.is_none(),
        Some(x) => match b {
            None => false,
            Some(y) => same_element(x, y),
        },
    }
}

/// At shared arguments, the same atom both ways or two values.
pub fn are_opposed(a: bool, b: bool, same: bool) -> bool
    ensures { result ≡ stated.are_opposed a b same }
{
    if a {
        if b { !same } else { same }
    } else if b {
        same
    } else {
        false
    }
}

/// Whether both cannot be so.
pub fn do_clash(f: &Fact<'_>, g: &Fact<'_>) -> bool
    ensures { result ≡ stated.do_clash (fact_view f.now) (fact_view g.now) }
{
    f.symbol == g.symbol
        && all_share(&f.args, &g.args)
        && are_opposed(f.holds, g.holds, same_value_of(f.value, g.value))
}

/// Whether a fact clashes with one of these.
pub fn clashes_with(before: &[Fact<'_>], fact: &Fact<'_>) -> bool
    ensures { result ≡ stated.clashes_with (map fact_view before.now) (fact_view fact.now) }
{
    for other in before {
        if do_clash(other, fact) {
            return true;
        }
    }
    false
}
