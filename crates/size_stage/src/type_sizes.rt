//! How many elements each type has, and from where to where its integers reach, by its set: nothing is listed for it.
ghost use Rattle.std.specs.Prelude.{◌≡◌, ◌≤ℤ◌, ℕ, List, map, neg_ℤ, not, pos, IfOk, IsTrue};
ghost use Rattle.std.specs.List.{AllByRecursion};
ghost use Rattle.kb_logic.specs.Bounds.{range_of};
ghost use Rattle.stage_definitions.specs.Elements as set;
ghost use Rattle.stage_definitions.specs.SizesStage.{capped};
ghost use Rattle.structure_entries.specs.WholeViews.{whole_view};
ghost use Rattle.data_domains.specs.Sets.{interval_view, IsSetOf};
ghost use Rattle.size_stage.specs.Counted.{count_in, elements_of, last_of, IsCountable};
ghost use Rattle.size_stage.specs.Ranges.{interval, range_view, ranges_in};

use crate::ranges::Range;
use data_domains::intervals::Interval;
use data_domains::sets::ElementSet;
use data_domains::types::TypeData;
use kb_logic::Memory;
use std::alloc::Global;
use structure_entries::wholes::Whole;

/// The number, where it is not the greatest of 64 bits, at which counts stop; no list has so many items.
fn exact(count: u64) -> Result<u64, Memory>
    ensures { IfOk result (λ n. (m : ℕ) → count ≡ capped m → n ≡ m) }
{
    if count == u64::MAX {
        return Err(Memory);
    }
    Ok(count)
}

fn count_of(of: &TypeData<'_>) -> Result<u64, Memory>
    requires { IsCountable of.now }
    ensures { IfOk result (λ n. n ≡ count_in of.now) }
{
    exact(of.elements.count())
}

/// How many elements each of these types has.
pub fn counts_of(alloc: Global, types: &[TypeData<'_>]) -> Result<Vec<u64>, Memory>
    requires { AllByRecursion IsCountable types.now }
    ensures { IfOk result (λ ns. ns.items ≡ map count_in types.now) }
{
    let mut counts = Vec::new(alloc);
    for data in types {
        counts.push(count_of(data)?)?;
    }
    Ok(counts)
}

fn is_wide(n: i128) -> bool
    ensures { IsTrue (not result) → (neg_ℤ (pos 9223372036854775808) ≤ℤ n) × (n ≤ℤ pos 9223372036854775807) }
{
    n < i128::from(i64::MIN) || n > i128::from(i64::MAX)
}

/// The range with these ends, if both are integers of 64 bits; where nothing is refused, those of domains are.
fn from_to(low: Whole, high: Whole) -> Result<Range, Memory>
    ensures { IfOk result (λ r. range_view r ≡ interval (whole_view low) (whole_view high)) }
{
    let low = low.value();
    let high = high.value();
    if is_wide(low) || is_wide(high) {
        return Err(Memory);
    }
    Ok(Range {
        low: low as i64,
        high: high as i64,
    })
}

/// The last of these intervals.
fn last_of(first: Interval, more: &[Interval]) -> Interval
    ensures { interval_view result ≡ last_of (interval_view first) (map interval_view more.now) }
{
    let mut last = first;
    for interval in more {
        last = *interval;
    }
    last
}

/// From the least to the greatest integer of the set.
fn range_in(elements: &ElementSet<'_>) -> Result<Range, Memory>
    ensures { IfOk result (λ r. (cells : List set.Cell) → IsSetOf cells elements.now
        → range_view r ≡ range_of (set.listed cells)) }
{
    let Some((first, more)) = elements.intervals.split_first() else {
        return Ok(Range { low: 0, high: 0 });
    };
    from_to(first.low, last_of(*first, more).high)
}

fn range_of(of: &TypeData<'_>) -> Result<Range, Memory>
    requires { IsCountable of.now }
    ensures { IfOk result (λ r. range_view r ≡ range_of (elements_of of.now)) }
{
    range_in(&of.elements)
}

/// The range of each of these types.
pub fn ranges_of(alloc: Global, types: &[TypeData<'_>]) -> Result<Vec<Range>, Memory>
    requires { AllByRecursion IsCountable types.now }
    ensures { IfOk result (λ rs. map range_view rs.items ≡ ranges_in (map elements_of types.now)) }
{
    let mut ranges = Vec::new(alloc);
    for data in types {
        ranges.push(range_of(data)?)?;
    }
    Ok(ranges)
}
