//! Whether an aggregate's interval contradicts its result.
ghost use Rattle.std.specs.Prelude.{◌≡◌, ◌<◌, ◌^◌, ◌≤ℤ◌, ℤ, pos, neg_ℤ, length, All};
ghost use Rattle.ground_core.specs.declared.parts.Part.{Part as PartRow};
ghost use Rattle.ground_core.specs.Intervals.{contradicts, known_of};
ghost use Rattle.aggregate_propagators.specs.Reasons.{differ, in_end};
ghost use Rattle.aggregate_propagators.specs.Totals.{goal_of, met, total, with_side};
ghost use Rattle.aggregate_propagators.specs.Implied.{assigned, under, IsWithin};
ghost use Rattle.aggregate_propagators.specs.Thresholds.{amount_of, constraint_of, IsNear};

use crate::ends::{plus, share, value_under};
use crate::thresholds::{Amount, Threshold};
use ground_core::Part;
use kb_logic::AggKind;
use lit_core::{Assignment, Lit};

/// What the parts that count in one end of the interval gain together.
pub fn total_at(
    high: bool,
    kind: AggKind,
    least: Amount,
    parts: &[Part],
    values: &Assignment,
    with: Option<Lit>,
) -> i128
    requires { All (λ (p : PartRow). p.lit.var.0 < length values.now) parts.now }
    ensures value { result ≡ total (λ (p : PartRow). in_end high kind p.weight (known_of (under (assigned values.now)
        with) p.lit)) kind (amount_of least) parts.now }
    ensures low { neg_ℤ (pos (2 ^ 126)) ≤ℤ result }
    ensures high { result ≤ℤ pos (2 ^ 126) }
{
    let mut sum: i128 = 0;
    for part in parts {
        let value = value_under(values, with, part.lit);
        sum = plus(sum, share(high, kind, least, part, value));
    }
    sum
}

/// Whether the gains reach the goal.
fn is_met(goal: Amount, sum: i128) -> bool
    ensures { result ≡ met (amount_of goal) sum }
{
    match goal {
        Amount::NegInf => true,
        Amount::Num(least) => least <= sum,
        Amount::PosInf => false,
    }
}

/// What the gains have to reach.
pub fn goal(kind: AggKind, least: Amount) -> Amount
    ensures value { amount_of result ≡ goal_of kind (amount_of least) }
    ensures near { IsNear (amount_of least) → IsNear (amount_of result) }
{
    match kind {
        AggKind::Count | AggKind::Sum => least,
        AggKind::Min => Amount::Num(1),
        AggKind::Max => match least {
            Amount::NegInf => Amount::NegInf,
            Amount::Num(_) | Amount::PosInf => Amount::Num(1),
        },
    }
}

/// Whether an aggregate of parts that gain so much is at least the bound.
pub fn is_reached(kind: AggKind, least: Amount, sum: i128) -> bool
    ensures { result ≡ with_side kind (met (goal_of kind (amount_of least)) sum) }
{
    let met = is_met(goal(kind, least), sum);
    match kind {
        AggKind::Count | AggKind::Sum | AggKind::Max => met,
        AggKind::Min => !met,
    }
}

/// Whether what is reached is not what the result asks for.
pub fn is_other(asked: bool, reached: bool) -> bool
    ensures { result ≡ differ asked reached }
{
    asked != reached
}

/// Whether the interval contradicts the result, where one more literal may be true.
pub fn contradicted(c: Threshold, parts: &[Part], values: &Assignment, with: Option<Lit>) -> bool
    requires { IsWithin values.now (constraint_of c parts.now) }
    ensures { result ≡ contradicts (under (assigned values.now) with) (constraint_of c parts.now) }
{
    match value_under(values, with, c.out) {
        Some(high) => {
            let sum = total_at(high, c.kind, c.least, parts, values, with);
            is_other(high, is_reached(c.kind, c.least, sum))
        }
        None => false,
    }
}
