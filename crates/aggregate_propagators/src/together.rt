//! All clauses of a constraint, from one look at it.
ghost use Rattle.std.specs.Prelude.{◌≡◌, ◌↔◌, ◌++◌, ◌∷◌, ◌+◌, ◌-◌, ◌<◌, ◌^◌, ◌≤ℤ◌, [], pos, neg_ℤ, int_lt, Some, All};
ghost use Rattle.std.specs.Prelude.{if◌then◌else◌, IfOk};
ghost use Rattle.lit_core.specs.Literals.{value_in};
ghost use Rattle.ground_core.specs.Intervals.{IsQuiet};
ghost use Rattle.aggregate_propagators.specs.Implied.{assigned, AreOpen, Follows, IsWithin};
ghost use Rattle.aggregate_propagators.specs.Laws.{HasVarsOnce};
ghost use Rattle.aggregate_propagators.specs.Looking.{IsEndOf, needed};
ghost use Rattle.aggregate_propagators.specs.Reasons.{denied};
ghost use Rattle.aggregate_propagators.specs.Spared.{spare_of};
ghost use Rattle.aggregate_propagators.specs.Totals.{goal_of};
ghost use Rattle.aggregate_propagators.specs.Thresholds.{amount_of, constraint_of, IsNear};

use crate::contradictions::goal;
use crate::ends::value_under;
use crate::explained::{clause_from, false_one, spare_around};
use crate::inference::implied_at;
use crate::movers::{Mover, add_needed, mover_of, movers_among};
use crate::rising::is_rising;
use crate::single::{End, end_of, is_wrong, moved_end, tried_part};
use crate::thresholds::{Threshold, threshold_of};
use ground_core::{AggCon, Memory, Part};
use lit_core::{Assignment, Clause, ClauseList};
use std::alloc::Global;

/// The clause of a contradiction: of the parts that move this end, those that it cannot do without, and the result.
fn clause_at(
    alloc: Global,
    end: End,
    before: &[Mover],
    own: Mover,
    after: &[Mover],
) -> Result<Clause, Memory>
    requires near { IsNear (amount_of end.of.least) }
    requires low { neg_ℤ (pos (2 ^ 126 + 2 ^ 64)) ≤ℤ end.sum }
    requires top { end.sum ≤ℤ pos (2 ^ 126 + 2 ^ 64) }
    requires before { All (λ m. pos 0 ≤ℤ m.by) before.now }
    requires own { pos 0 ≤ℤ own.by }
    requires after { All (λ m. pos 0 ≤ℤ m.by) after.now }
    ensures { IfOk result (λ cl. cl ≡ needed (spare_of (goal_of end.of.kind (amount_of end.of.least)) end.sum)
        (before.now ++ own ∷ after.now) ++ denied (Some end.high) end.of.out ∷ []) }
{
    let mut clause = Clause::new(alloc);
    let spare = spare_around(goal(end.of.kind, end.of.least), end.sum);
    let spare = add_needed(&mut clause, spare, before)?;
    let spare = add_needed(&mut clause, spare, &[own])?;
    add_needed(&mut clause, spare, after)?;
    clause.push(false_one(Some(end.high), end.of.out))?;
    Ok(clause)
}

/// One more where the part moves the end.
fn counted(count: usize, mover: Mover) -> usize
    requires { count < 2 ^ 64 - 1 }
    ensures { result ≡ count + (if int_lt (pos 0) mover.by then 1 else 0) }
{
    if 0 < mover.by { count + 1 } else { count }
}

/// The clauses of all parts that cannot have one of the values, in order.
///
/// A decided part moves the end by its own gain, and no other part's value is forgotten for it. So each clause costs a
/// walk over those parts alone that move the end, with the decided one at its place among them.
fn each_decided(
    alloc: Global,
    end: End,
    parts: &[Part],
    values: &Assignment,
) -> Result<ClauseList, Memory>
    requires near { IsNear (amount_of end.of.least) }
    requires within { IsWithin values.now (constraint_of end.of parts.now) }
    requires end { IsEndOf (assigned values.now) parts.now end }
    requires once { HasVarsOnce parts.now }
    ensures each { IfOk result (All (Follows values.now (constraint_of end.of parts.now))) }
    ensures none { IfOk result (λ cls. (cls ≡ []) ↔ AreOpen (assigned values.now) (constraint_of end.of parts.now)) }
{
    let mut clauses = ClauseList::new(alloc);
    let movers = movers_among(alloc, end, parts, values)?;
    // So many of them stand before the part.
    let mut count = 0;
    for part in parts {
        let Some(lit) = tried_part(end, parts, values, part) else {
            count = counted(count, mover_of(end, values, None, part));
            continue;
        };
        let own = mover_of(end, values, Some(lit), part);
        let moved = moved_end(end, part, value_under(values, Some(lit), part.lit));
        let (before, after) = movers.as_slice().split_at(count);
        let clause = clause_at(alloc, moved, before, own, after)?;
        clauses.push(clause.as_slice())?;
    }
    Ok(clauses)
}

/// The list of this clause alone.
fn alone(alloc: Global, clause: &Clause) -> Result<ClauseList, Memory>
    ensures { IfOk result (λ cls. cls ≡ clause.now ∷ []) }
{
    let mut clauses = ClauseList::new(alloc);
    clauses.push(clause.as_slice())?;
    Ok(clauses)
}

/// All clauses where the result has a value and no variable stands in two parts.
fn each_known(
    alloc: Global,
    end: End,
    parts: &[Part],
    values: &Assignment,
) -> Result<ClauseList, Memory>
    requires near { IsNear (amount_of end.of.least) }
    requires within { IsWithin values.now (constraint_of end.of parts.now) }
    requires end { IsEndOf (assigned values.now) parts.now end }
    requires once { HasVarsOnce parts.now }
    ensures each { IfOk result (All (Follows values.now (constraint_of end.of parts.now))) }
    ensures none { IfOk result (λ cls. (cls ≡ []) ↔ IsQuiet (assigned values.now) (constraint_of end.of parts.now)) }
{
    if !is_wrong(end) {
        return each_decided(alloc, end, parts, values);
    }
    let clause = clause_from(alloc, end.of, parts, values, None)?;
    alone(alloc, &clause)
}

/// The one clause of `implied_at`, if any.
fn at_most_one(
    alloc: Global,
    c: Threshold,
    parts: &[Part],
    values: &Assignment,
) -> Result<ClauseList, Memory>
    requires near { IsNear (amount_of c.least) }
    requires within { IsWithin values.now (constraint_of c parts.now) }
    ensures each { IfOk result (All (Follows values.now (constraint_of c parts.now))) }
    ensures none { IfOk result (λ cls. (cls ≡ []) ↔ IsQuiet (assigned values.now) (constraint_of c parts.now)) }
{
    match implied_at(alloc, c, parts, values)? {
        Some(clause) => alone(alloc, &clause),
        None => Ok(ClauseList::new(alloc)),
    }
}

/// The same as `implied_each`, of a constraint whose bound may have more than 64 bits.
fn each_at(
    alloc: Global,
    c: Threshold,
    parts: &[Part],
    values: &Assignment,
) -> Result<ClauseList, Memory>
    requires near { IsNear (amount_of c.least) }
    requires within { IsWithin values.now (constraint_of c parts.now) }
    ensures each { IfOk result (All (Follows values.now (constraint_of c parts.now))) }
    ensures none { IfOk result (λ cls. (cls ≡ []) ↔ IsQuiet (assigned values.now) (constraint_of c parts.now)) }
{
    match values.value(c.out) {
        Some(high) => {
            if is_rising(parts) {
                return each_known(alloc, end_of(high, c, parts, values), parts, values);
            }
            at_most_one(alloc, c, parts, values)
        }
        None => at_most_one(alloc, c, parts, values),
    }
}

/// Clauses that the constraint implies, each false now or with one literal left that must be true; none where no value
/// of a variable alone contradicts the constraint.
///
/// Where the result has a value and the parts' variables rise, these are the clauses of all literals that must be true,
/// and a call goes through the parts a few times. Elsewhere there is at most one, that of `implied`.
pub fn implied_each(alloc: Global, c: &AggCon, values: &Assignment) -> Result<ClauseList, Memory>
    requires { IsWithin values.now c.now }
    ensures each { IfOk result (All (Follows values.now c.now)) }
    ensures none { IfOk result (λ cls. (cls ≡ []) ↔ IsQuiet (assigned values.now) c.now) }
{
    each_at(alloc, threshold_of(c), c.parts.as_slice(), values)
}
