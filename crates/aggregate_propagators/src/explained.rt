//! The clause of a contradiction.
ghost use Rattle.std.specs.Prelude.{◌≡◌, ◌<◌, ◌+◌, ◌≤ℤ◌, ◌-ℤ◌, ◌^◌, pos, neg_ℤ, length, All, IfOk};
ghost use Rattle.ground_core.specs.declared.parts.Part.{Part as PartRow};
ghost use Rattle.aggregate_propagators.specs.Reasons.{asks_high, denied};
ghost use Rattle.aggregate_propagators.specs.Implied.{assigned, under, IsWithin};
ghost use Rattle.aggregate_propagators.specs.Spared.{forgotten, gap, short_clause_of, spare_at, spare_of, spared};
ghost use Rattle.aggregate_propagators.specs.Thresholds.{amount_of, constraint_of, IsNear};

use crate::contradictions::{goal, total_at};
use crate::ends::{share, value_under};
use crate::thresholds::{Amount, Threshold};
use ground_core::{Memory, Part};
use kb_logic::AggKind;
use lit_core::{Assignment, Clause, Lit};
use std::alloc::Global;

/// The literal of the variable that is false, where this literal has this value.
pub fn false_one(value: Option<bool>, lit: Lit) -> Lit
    ensures { result ≡ denied value lit }
{
    match value {
        Some(true) => lit.negated(),
        Some(false) | None => lit,
    }
}

/// How far two numbers are apart.
fn gap_of(x: i64, y: i64) -> i128
    ensures value { result ≡ gap x y }
    ensures low { pos 0 ≤ℤ result }
{
    if x < y {
        i128::from(y) - i128::from(x)
    } else {
        i128::from(x) - i128::from(y)
    }
}

/// How far the end of the interval moves where the part's value is forgotten.
pub fn move_of(high: bool, kind: AggKind, least: Amount, part: &Part, value: Option<bool>) -> i128
    ensures value { result ≡ forgotten high kind (amount_of least) part.now.weight value }
    ensures low { pos 0 ≤ℤ result }
{
    gap_of(
        share(high, kind, least, part, value),
        share(high, kind, least, part, None),
    )
}

/// How far a sum may move and still be on the same side of the goal.
pub fn spare_around(goal: Amount, sum: i128) -> i128
    requires near { IsNear (amount_of goal) }
    requires low { neg_ℤ (pos (2 ^ 126 + 2 ^ 64)) ≤ℤ sum }
    requires high { sum ≤ℤ pos (2 ^ 126 + 2 ^ 64) }
    ensures value { result ≡ spare_of (amount_of goal) sum }
    ensures low { pos 0 ≤ℤ result }
{
    match goal {
        Amount::Num(goal) => {
            if goal <= sum {
                sum - goal
            } else {
                goal - 1 - sum
            }
        }
        Amount::NegInf | Amount::PosInf => 1 << 126,
    }
}

/// What is left of the spare.
pub fn left_of(spare: i128, by: i128) -> i128
    requires low { pos 0 ≤ℤ by }
    requires room { by ≤ℤ spare }
    ensures value { result ≡ spare -ℤ by }
    ensures low { pos 0 ≤ℤ result }
{
    spare - by
}

/// How far the end that the result asks for may move and still contradict it as much as now.
fn spare_of_end(
    high: bool,
    c: Threshold,
    parts: &[Part],
    values: &Assignment,
    with: Option<Lit>,
) -> i128
    requires near { IsNear (amount_of c.least) }
    requires within { All (λ (p : PartRow). p.lit.var.0 < length values.now) parts.now }
    ensures value { result ≡ spare_at (under (assigned values.now) with) high (constraint_of c parts.now) }
    ensures low { pos 0 ≤ℤ result }
{
    let sum = total_at(high, c.kind, c.least, parts, values, with);
    spare_around(goal(c.kind, c.least), sum)
}

/// Whether the result asks for the greatest end.
fn asked(out: Option<bool>) -> bool
    ensures { result ≡ asks_high out }
{
    match out {
        Some(out) => out,
        None => false,
    }
}

/// The reasons that the spare has no room for.
///
/// Every reason whose part moves the end by no more than what is left of the spare is left out: the end is then still
/// on the same side of the goal. Those that stand first go first.
fn reasons(
    alloc: Global,
    high: bool,
    c: Threshold,
    parts: &[Part],
    values: &Assignment,
    with: Option<Lit>,
) -> Result<Clause, Memory>
    requires near { IsNear (amount_of c.least) }
    requires within { All (λ (p : PartRow). p.lit.var.0 < length values.now) parts.now }
    ensures { IfOk result (λ cl. cl ≡ spared (under (assigned values.now) with) high c.kind (amount_of c.least)
        (spare_at (under (assigned values.now) with) high (constraint_of c parts.now)) parts.now) }
{
    let mut clause = Clause::new(alloc);
    let mut spare = spare_of_end(high, c, parts, values, with);
    for part in parts {
        let value = value_under(values, with, part.lit);
        let by = move_of(high, c.kind, c.least, part, value);
        if by <= spare {
            spare = left_of(spare, by);
        } else {
            clause.push(false_one(value, part.lit))?;
        }
    }
    Ok(clause)
}

/// The clause of the parts whose values the contradiction cannot do without and of the result, where one more literal
/// may be true.
///
/// The result is mostly the newest variable. It comes last, so that the clause is in order where the parts are.
pub fn clause_from(
    alloc: Global,
    c: Threshold,
    parts: &[Part],
    values: &Assignment,
    with: Option<Lit>,
) -> Result<Clause, Memory>
    requires near { IsNear (amount_of c.least) }
    requires within { IsWithin values.now (constraint_of c parts.now) }
    ensures { IfOk result (λ cl. cl ≡ short_clause_of (under (assigned values.now) with) (constraint_of c parts.now)) }
{
    let out = value_under(values, with, c.out);
    let high = asked(out);
    let mut clause = reasons(alloc, high, c, parts, values, with)?;
    clause.push(false_one(out, c.out))?;
    Ok(clause)
}
