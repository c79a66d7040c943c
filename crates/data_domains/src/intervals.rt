//! Integers as intervals.
ghost use Rattle.std.specs.Prelude.{◌≡◌, ◌==◌, ◌&&◌, ◌≤ℤ◌, ◌+ℤ◌, pos, negsuc, not, int_lt};
ghost use Rattle.std.specs.Int.{int_max, int_min};
ghost use Rattle.stage_definitions.specs.Elements as set;
ghost use Rattle.structure_entries.specs.WholeViews.{whole_view};
ghost use Rattle.data_domains.specs.Sets.{interval_view};

use structure_entries::wholes::Whole;

/// The integers from the first to the second; there are none where the first is the greater.
#[derive(Clone, Copy)]
pub struct Interval {
    pub low: Whole,
    pub high: Whole,
}

fn lesser(a: Whole, b: Whole) -> Whole
    ensures { whole_view result ≡ int_min (whole_view a) (whole_view b) }
{
    if a.is_below(b) { a } else { b }
}

fn greater(a: Whole, b: Whole) -> Whole
    ensures { whole_view result ≡ int_max (whole_view a) (whole_view b) }
{
    if a.is_below(b) { b } else { a }
}

impl Interval {
    /// How many integers there are.
    pub fn size(self) -> i128
        ensures size { result ≡ pos (set.size_of (interval_view self)) }
        ensures small { result ≤ℤ pos 36893488147419103231 }
    {
        let low = self.low.value();
        let high = self.high.value();
        if high < low { 0 } else { high - low + 1 }
    }

    /// Whether there is no integer.
    pub fn is_empty(self) -> bool
        ensures { result ≡ (set.size_of (interval_view self) == 0) }
    {
        !(self.size() > 0)
    }

    /// The integers that both have.
    pub fn common(self, other: Interval) -> Interval
        ensures { interval_view result ≡ set.common (interval_view self) (interval_view other) }
    {
        Interval {
            low: greater(self.low, other.low),
            high: lesser(self.high, other.high),
        }
    }

    /// The interval from the least to the greatest of both.
    pub fn joined(self, other: Interval) -> Interval
        ensures { interval_view result ≡ set.joined (interval_view self) (interval_view other) }
    {
        Interval {
            low: lesser(self.low, other.low),
            high: greater(self.high, other.high),
        }
    }

    /// Whether some integer is in both.
    pub fn meets(self, other: Interval) -> bool
        ensures { result ≡ set.do_meet (interval_view self) (interval_view other) }
    {
        self.common(other).size() > 0
    }

    /// Whether no integer stands between this interval and a later one.
    pub fn reaches(self, later: Interval) -> bool
        ensures { result ≡ not (int_lt ((interval_view self).high +ℤ pos 1) (interval_view later).low) }
    {
        !(self.high.value() + 1 < later.low.value())
    }

    /// Whether the other one lies in this one, its ends included.
    pub fn includes(self, other: Interval) -> bool
        ensures { result ≡ (not (int_lt (interval_view other).low (interval_view self).low) && not
            (int_lt (interval_view self).high (interval_view other).high)) }
    {
        !other.low.is_below(self.low) && !self.high.is_below(other.high)
    }
}
