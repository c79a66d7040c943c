//! The same integers in intervals that rise, with a gap before each next one.
//!
//! Such intervals are searched by halving, and a range of integers that are all among them lies in one of them.
ghost use Rattle.std.specs.Prelude.{◌≡◌, ℤ, map, option_map, slice_get, IfOk, false};
ghost use Rattle.std.specs.List.{list_any};
ghost use Rattle.structure_entries.specs.WholeViews.{whole_view};
ghost use Rattle.data_domains.specs.Runs.{is_hollow, is_inside, first_reaching, AreApart, AreRisingFrom};
ghost use Rattle.data_domains.specs.Sets.{interval_view};

use crate::intervals::Interval;
use kb_logic::Memory;
use std::alloc::Global;
use structure_entries::wholes::Whole;

/// Intervals that rise, each joined to the one before it where no integer stands between them.
fn joined_runs(alloc: Global, rising: &[Interval]) -> Result<Vec<Interval>, Memory>
    requires { (start : ℤ) × AreRisingFrom start (map interval_view rising.now) }
    ensures apart { IfOk result (λ is. AreApart (map interval_view is.items)) }
    ensures same { IfOk result (λ is. (z : ℤ) → is_inside (map interval_view is.items) z ≡ is_inside
        (map interval_view rising.now) z) }
{
    let mut runs = Vec::new(alloc);
    let Some((first, rest)) = rising.split_first() else {
        return Ok(runs);
    };
    let mut last = *first;
    for one in rest {
        if last.reaches(*one) {
            last = last.joined(*one);
            continue;
        }
        runs.push(last)?;
        last = *one;
    }
    runs.push(last)?;
    Ok(runs)
}

/// The integers of these intervals, of which none is empty, in intervals that rise with a gap between each two.
pub fn merged(alloc: Global, mut intervals: Vec<Interval>) -> Result<Vec<Interval>, Memory>
    requires { list_any is_hollow (map interval_view intervals.items) ≡ false }
    ensures apart { IfOk result (λ is. AreApart (map interval_view is.items)) }
    ensures same { IfOk result (λ is. (z : ℤ) → is_inside (map interval_view is.items) z ≡ is_inside
        (map interval_view intervals.items) z) }
{
    intervals.sort_by_key(|interval| interval.low.value())?;
    let runs = joined_runs(alloc, &intervals)?;
    Ok(runs)
}

fn interval_at(runs: &[Interval], at: usize) -> Option<Interval>
    ensures { result ≡ slice_get runs.now at }
{
    runs.get(at).copied()
}

/// The first of the intervals that does not end before the integer.
pub fn reaching(runs: &[Interval], n: Whole) -> Option<Interval>
    ensures { AreApart (map interval_view runs.now) → option_map interval_view result ≡ first_reaching (whole_view n)
        (map interval_view runs.now) }
{
    let at = runs.partition_point(|interval| interval.high.is_below(n));
    interval_at(runs, at)
}
