//! Counts and sums that are compared with what is left of the sides of a comparison.
//!
//! Of the rows of a side exactly one holds, so each row is a part of the sum, with what its number is more than that of
//! one end. All these parts have one sign, and so the sum's least (or greatest) is right while the side is open: one
//! constraint says what a constraint for each row would.
ghost use Rattle.std.specs.Prelude.{◌≡◌, neg_ℤ, pos, not, IfOk, OnOk};
ghost use Rattle.std.specs.List.{AllByRecursion};
ghost use Rattle.kb_logic.specs.Values.{value_view};
ghost use Rattle.ground_core.specs.Problems.{AreLitsOf, ArePartsOf};
ghost use Rattle.def_ground.specs.Answers.{Makes, Grows};
ghost use Rattle.def_ground.specs.LinearViews.{linear_view, LinearGrows};
ghost use Rattle.def_ground.specs.SumSides.{outer as outer_number, with_value as outermost_with, outermost as outermost_of};
ghost use Rattle.def_ground.specs.SumSides.{more_than as more_of, with_more as linear_with_more, spread as spread_side};
ghost use Rattle.def_ground.specs.SumSides.{sided as linear_of_sides, sides_meet, sides_by};
ghost use Rattle.def_ground.specs.SumSides.{compared_beside as sum_beside};

use crate::answers::Answer;
use crate::checked::{difference, product, sum};
use crate::linear::{Linear, weigh_under};
use crate::thresholds::{both, compared_at, copied};
use ground_core::{Memory, Problem};
use kb_logic::values::Value;
use kb_logic::{AggKind, Cmp};
use lit_core::Lit;
use std::alloc::Global;
use term_values::Rows;

/// The greater of two numbers, or where not `high` the lesser.
fn outer(high: bool, a: i64, b: i64) -> i64
    ensures { result ≡ outer_number high a b }
{
    if high { a.max(b) } else { a.min(b) }
}

/// The outermost number so far, with one more value.
fn with_value(high: bool, so_far: Option<i64>, value: Value<'_>) -> Option<i64>
    ensures { result ≡ outermost_with high so_far (value_view value.entry) }
{
    match (so_far, value) {
        (None, Value::Num(number)) => Some(number),
        (Some(most), Value::Num(number)) => Some(outer(high, most, number)),
        _ => so_far,
    }
}

/// The greatest number of the rows, or where not `high` the least.
fn outermost(high: bool, rows: &Rows<'_>) -> i64
    ensures { result ≡ outermost_of high rows.now }
{
    let mut most = None;
    for row in 0..rows.len() {
        most = with_value(high, most, rows.value(row));
    }
    most.unwrap_or(0)
}

/// How much more another number is than this one.
fn more_than(number: i64, value: Value<'_>) -> Result<Option<i64>, Memory>
    ensures { IfOk result (λ o. o ≡ more_of number (value_view value.entry)) }
{
    match value {
        Value::Num(other) => {
            if other == number {
                Ok(None)
            } else {
                Ok(Some(difference(other, number)?))
            }
        }
        _ => Ok(None),
    }
}

/// Adds a part for what a row is more, times a factor.
fn push_more(
    alloc: Global,
    factor: i64,
    more: Option<i64>,
    guards: &[Lit],
    linear: &mut Linear,
    problem: &mut Problem,
) -> Result<(), Memory>
    requires guards { AreLitsOf problem.old.vars guards.now }
    requires parts { ArePartsOf problem.old.vars linear.old.parts }
    ensures made { OnOk result (linear_view linear.new problem.new
        ≡ linear_with_more factor more guards.now (linear_view linear.old problem.old)) }
    ensures grows { OnOk result (LinearGrows problem.old problem.new linear.new.parts) }
{
    let Some(more) = more else {
        return Ok(());
    };
    let weight = product(factor, more)?;
    weigh_under(
        alloc,
        weight,
        Answer::Constant(true),
        guards,
        linear,
        problem,
    )
}

/// Adds a side, times a factor: the number, and a part for each row with another one.
fn spread(
    alloc: Global,
    factor: i64,
    number: i64,
    rows: &Rows<'_>,
    linear: &mut Linear,
    problem: &mut Problem,
) -> Result<(), Memory>
    requires rows { AllByRecursion (λ r. AreLitsOf problem.old.vars r.0) rows.now }
    requires parts { ArePartsOf problem.old.vars linear.old.parts }
    ensures made { OnOk result (linear_view linear.new problem.new
        ≡ spread_side factor number rows.now (linear_view linear.old problem.old)) }
    ensures grows { OnOk result (LinearGrows problem.old problem.new linear.new.parts) }
{
    linear.base = sum(linear.base, product(factor, number)?)?;
    for row in 0..rows.len() {
        let more = more_than(number, rows.value(row))?;
        push_more(alloc, factor, more, rows.guards(row), linear, problem)?;
    }
    Ok(())
}

/// A sum with the left side's rows, less those of the right side. Its greatest end is right, or where not `high` its
/// least.
fn sided(
    alloc: Global,
    high: bool,
    linear: &Linear,
    left: &Rows<'_>,
    right: &Rows<'_>,
    problem: &mut Problem,
) -> Result<Linear, Memory>
    requires parts { ArePartsOf problem.old.vars linear.now.parts }
    requires left { AllByRecursion (λ r. AreLitsOf problem.old.vars r.0) left.now }
    requires right { AllByRecursion (λ r. AreLitsOf problem.old.vars r.0) right.now }
    ensures made { IfOk result (λ s. linear_view s problem.new
        ≡ linear_of_sides high (linear_view linear.now problem.old) left.now right.now) }
    ensures grows { IfOk result (λ s. LinearGrows problem.old problem.new s.parts) }
{
    let mut whole = Linear {
        base: linear.base,
        parts: copied(alloc, linear.parts.as_slice())?,
    };
    let number = outermost(high, left);
    spread(alloc, 1, number, left, &mut whole, problem)?;
    let number = outermost(!high, right);
    spread(alloc, -1, number, right, &mut whole, problem)?;
    Ok(whole)
}

/// Whether the sum of both sides is 0: at least, and at most.
fn meet(
    alloc: Global,
    linear: &Linear,
    left: &Rows<'_>,
    right: &Rows<'_>,
    problem: &mut Problem,
) -> Result<Answer, Memory>
    requires parts { ArePartsOf problem.old.vars linear.now.parts }
    requires left { AllByRecursion (λ r. AreLitsOf problem.old.vars r.0) left.now }
    requires right { AllByRecursion (λ r. AreLitsOf problem.old.vars r.0) right.now }
    ensures made { IfOk result
        (λ a. Makes (sides_meet (linear_view linear.now problem.old) left.now right.now) a problem.new) }
    ensures grows { IfOk result (λ a. Grows problem.old problem.new a) }
{
    let whole = sided(alloc, true, linear, left, right, problem)?;
    let low = compared_at(alloc, AggKind::Sum, Cmp::Ge, &whole, 0, problem)?;
    let whole = sided(alloc, false, linear, left, right, problem)?;
    let high = compared_at(alloc, AggKind::Sum, Cmp::Le, &whole, 0, problem)?;
    both(alloc, low, high, problem)
}

/// How the sum of both sides compares with 0.
fn compared(
    alloc: Global,
    cmp: Cmp,
    linear: &Linear,
    left: &Rows<'_>,
    right: &Rows<'_>,
    problem: &mut Problem,
) -> Result<Answer, Memory>
    requires parts { ArePartsOf problem.old.vars linear.now.parts }
    requires left { AllByRecursion (λ r. AreLitsOf problem.old.vars r.0) left.now }
    requires right { AllByRecursion (λ r. AreLitsOf problem.old.vars r.0) right.now }
    ensures made { IfOk result
        (λ a. Makes (sides_by cmp (linear_view linear.now problem.old) left.now right.now) a problem.new) }
    ensures grows { IfOk result (λ a. Grows problem.old problem.new a) }
{
    match cmp {
        Cmp::Eq => meet(alloc, linear, left, right, problem),
        Cmp::Ne => Ok(meet(alloc, linear, left, right, problem)?.opposite()),
        Cmp::Lt | Cmp::Le => {
            let whole = sided(alloc, false, linear, left, right, problem)?;
            compared_at(alloc, AggKind::Sum, cmp, &whole, 0, problem)
        }
        Cmp::Gt | Cmp::Ge => {
            let whole = sided(alloc, true, linear, left, right, problem)?;
            compared_at(alloc, AggKind::Sum, cmp, &whole, 0, problem)
        }
    }
}

/// How a sum with parts compares with what is left of the sides: the counts and sums of the right side are taken off
/// already. Where a side has no row, no valuation has a structure.
pub fn compared_beside(
    alloc: Global,
    cmp: Cmp,
    linear: &Linear,
    left: &Rows<'_>,
    right: &Rows<'_>,
    problem: &mut Problem,
) -> Result<Answer, Memory>
    requires parts { ArePartsOf problem.old.vars linear.now.parts }
    requires left { AllByRecursion (λ r. AreLitsOf problem.old.vars r.0) left.now }
    requires right { AllByRecursion (λ r. AreLitsOf problem.old.vars r.0) right.now }
    ensures made { IfOk result
        (λ a. Makes (sum_beside cmp (linear_view linear.now problem.old) left.now right.now) a problem.new) }
    ensures grows { IfOk result (λ a. Grows problem.old problem.new a) }
{
    if left.len() == 0 || right.len() == 0 {
        return Ok(Answer::Constant(true));
    }
    compared(alloc, cmp, linear, left, right, problem)
}
