//! The ends of an aggregate's interval.
ghost use Rattle.std.specs.Prelude.{◌≡◌, ◌<◌, ◌^◌, ◌-◌, pos, neg_ℤ, ◌≤ℤ◌, ◌+ℤ◌, ◌-ℤ◌, length, All};
ghost use Rattle.kb_logic.specs.Denotations.{number};
ghost use Rattle.ground_core.specs.declared.parts.Part.{Part as PartRow};
ghost use Rattle.ground_core.specs.Intervals.{known_of, reaches, contradicts};
ghost use Rattle.aggregate_propagators.specs.Reasons.{in_end};
ghost use Rattle.aggregate_propagators.specs.Totals.{gain, gain_if, goal_of, total, met};
ghost use Rattle.aggregate_propagators.specs.Implied.{assigned, under, IsWithin};
ghost use Rattle.aggregate_propagators.specs.Thresholds.{amount_of};

use crate::thresholds::Amount;
use ground_core::Part;
use kb_logic::AggKind;
use lit_core::{Assignment, Lit};

/// The literal's value, where one more may be true.
pub fn value_under(values: &Assignment, with: Option<Lit>, lit: Lit) -> Option<bool>
    requires { lit.var.0 < length values.now }
    ensures { result ≡ known_of (under (assigned values.now) with) lit }
{
    match with {
        Some(more) => {
            if more.var.0 == lit.var.0 {
                Some(if lit.positive {
                    more.positive
                } else {
                    !more.positive
                })
            } else {
                values.value(lit)
            }
        }
        None => values.value(lit),
    }
}

/// Whether a part counts in one end.
pub fn counts(high: bool, kind: AggKind, weight: i64, value: Option<bool>) -> bool
    ensures { result ≡ in_end high kind weight value }
{
    match value {
        Some(value) => value,
        None => match kind {
            AggKind::Count => high,
            AggKind::Sum => { if high { 0 < weight } else { weight < 0 } }
            AggKind::Min => !high,
            AggKind::Max => high,
        },
    }
}

/// Whether the weight is at least the bound.
fn is_enough(least: Amount, weight: i64) -> bool
    ensures { result ≡ met (amount_of least) weight }
{
    match least {
        Amount::NegInf => true,
        Amount::Num(least) => least <= i128::from(weight),
        Amount::PosInf => false,
    }
}

/// What a part adds where it counts.
pub fn gain_of(kind: AggKind, least: Amount, weight: i64) -> i64
    ensures { result ≡ gain kind (amount_of least) weight }
{
    match kind {
        AggKind::Count => 1,
        AggKind::Sum => weight,
        AggKind::Min => { if is_enough(least, weight) { 0 } else { 1 } }
        AggKind::Max => { if is_enough(least, weight) { 1 } else { 0 } }
    }
}

/// What a part adds to one end.
pub fn share(high: bool, kind: AggKind, least: Amount, part: &Part, value: Option<bool>) -> i64
    ensures { result ≡ gain_if (in_end high kind part.now.weight value) (gain kind (amount_of least) part.now.weight) }
{
    if counts(high, kind, part.weight, value) {
        gain_of(kind, least, part.weight)
    } else {
        0
    }
}

/// The sum with one more.
pub fn plus(sum: i128, more: i64) -> i128
    requires low { neg_ℤ (pos (2 ^ 127 - 2 ^ 63)) ≤ℤ sum }
    requires high { sum ≤ℤ pos (2 ^ 127 - 2 ^ 63 - 1) }
    ensures sum { result ≡ sum +ℤ more }
    ensures low { neg_ℤ (pos (2 ^ 63)) ≤ℤ (result -ℤ sum) }
    ensures high { (result -ℤ sum) ≤ℤ pos (2 ^ 63) }
{
    sum + i128::from(more)
}
