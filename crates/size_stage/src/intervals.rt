//! From the least to the greatest integer that a term may be.
ghost use Rattle.std.specs.Prelude.{◌≡◌, ◌*◌, ◌+ℤ◌, ◌*ℤ◌, pos, neg_ℤ};
ghost use Rattle.std.specs.Int.{int_max, int_min};
ghost use Rattle.kb_logic.specs.Bounds.{
  above_zero,
  aggregate_bounds,
  below_zero,
  interval_product,
  interval_sum,
  signed_interval,
};
ghost use Rattle.kb_logic.specs.Bounds.{exactly as exact_interval};
ghost use Rattle.size_stage.specs.Ranges.{interval, range_view};
ghost use Rattle.stage_definitions.specs.ClampedBounds.{clamp, clamp_interval, clamping_product, clamping_sum};
ghost use Rattle.stage_definitions.specs.Sizes.{is_small};

use crate::ranges::Range;
use kb_logic::AggKind;

/// The greatest bound that a term may have, and the least without its sign.
const LIMIT: i64 = 1_000_000_000_000_000;

fn clamped(n: i128) -> i64
    ensures { result ≡ clamp n }
{
    if n < i128::from(i64::MIN) {
        i64::MIN
    } else if n > i128::from(i64::MAX) {
        i64::MAX
    } else {
        n as i64
    }
}

fn lesser(a: i128, b: i128) -> i128
    ensures { result ≡ int_min a b }
{
    if a < b { a } else { b }
}

fn greater(a: i128, b: i128) -> i128
    ensures { result ≡ int_max a b }
{
    if a < b { b } else { a }
}

/// The range of these ends, each within 64 bits.
fn between(low: i128, high: i128) -> Range
    ensures { range_view result ≡ clamp_interval (interval low high) }
{
    Range {
        low: clamped(low),
        high: clamped(high),
    }
}

fn negated(n: i64) -> i128
    ensures { result ≡ neg_ℤ n }
{
    -i128::from(n)
}

fn summed(a: i64, b: i64) -> i128
    ensures { result ≡ a +ℤ b }
{
    i128::from(a) + i128::from(b)
}

fn multiplied(a: i64, b: i64) -> i128
    ensures { result ≡ a *ℤ b }
{
    i128::from(a) * i128::from(b)
}

/// So many times a number from 0 down.
fn times_below(count: u64, n: i64) -> i128
    ensures { result ≡ neg_ℤ (pos (count * below_zero n)) }
{
    if n < 0 {
        i128::from(count) * i128::from(n)
    } else {
        0
    }
}

/// So many times a number from 0 up.
fn times_above(count: u64, n: i64) -> i128
    ensures { result ≡ pos (count * above_zero n) }
{
    if n < 0 {
        0
    } else {
        i128::from(count) * i128::from(n)
    }
}

impl Range {
    pub fn exactly(n: i64) -> Range
        ensures { range_view result ≡ exact_interval n }
    {
        Range { low: n, high: n }
    }

    pub fn plus(self, other: Range) -> Range
        ensures { range_view result ≡ clamping_sum (range_view self) (range_view other) }
    {
        between(summed(self.low, other.low), summed(self.high, other.high))
    }

    /// From the least to the greatest product of two ends.
    pub fn times(self, other: Range) -> Range
        ensures { range_view result ≡ clamping_product (range_view self) (range_view other) }
    {
        let lows = multiplied(self.low, other.low);
        let low_high = multiplied(self.low, other.high);
        let high_low = multiplied(self.high, other.low);
        let highs = multiplied(self.high, other.high);
        between(
            lesser(lesser(lows, low_high), lesser(high_low, highs)),
            greater(greater(lows, low_high), greater(high_low, highs)),
        )
    }

    pub fn signed(self, minus: bool) -> Range
        ensures { range_view result ≡ clamp_interval (signed_interval minus (range_view self)) }
    {
        if minus {
            between(negated(self.high), negated(self.low))
        } else {
            between(i128::from(self.low), i128::from(self.high))
        }
    }

    /// The bounds of an aggregate over `count` assignments, by those of its weight.
    pub fn aggregated(self, kind: AggKind, count: u64) -> Range
        ensures { range_view result ≡ clamp_interval (aggregate_bounds kind count (range_view self)) }
    {
        match kind {
            AggKind::Count => between(0, i128::from(count)),
            AggKind::Sum => between(times_below(count, self.low), times_above(count, self.high)),
            AggKind::Min => between(i128::from(self.low), i128::from(self.high)),
            AggKind::Max => between(i128::from(self.low), i128::from(self.high)),
        }
    }

    /// Both bounds lie within the limit.
    pub fn is_small(self) -> bool
        ensures { result ≡ is_small (range_view self) }
    {
        !(self.low < -LIMIT) && !(LIMIT < self.high)
    }
}
