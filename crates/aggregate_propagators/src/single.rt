//! Decided literals where no variable stands in two parts: one sum serves all parts.
ghost use Rattle.std.specs.Prelude.{◌≡◌, ◌<◌, ◌+◌, ◌^◌, ◌-◌, ◌≤ℤ◌, ◌-ℤ◌, pos, neg_ℤ, Some, length, All, Contains};
ghost use Rattle.std.specs.Prelude.{IfNone, IfSome};
ghost use Rattle.lit_core.specs.Literals.{value_in};
ghost use Rattle.ground_core.specs.declared.parts.Part.{Part as PartRow};
ghost use Rattle.ground_core.specs.Intervals.{contradicts, IsOpenAt};
ghost use Rattle.aggregate_propagators.specs.Laws.{HasVarsOnce};
ghost use Rattle.aggregate_propagators.specs.Reasons.{differ};
ghost use Rattle.aggregate_propagators.specs.Totals.{goal_of, met, with_side};
ghost use Rattle.aggregate_propagators.specs.Implied.{assigned, AreOpen, Decides, IsWithin};
ghost use Rattle.aggregate_propagators.specs.Looking.{IsEndOf};
ghost use Rattle.aggregate_propagators.specs.Once.{moved};
ghost use Rattle.aggregate_propagators.specs.Thresholds.{amount_of, constraint_of};

use crate::contradictions::{is_other, is_reached, total_at};
use crate::ends::{plus, share};
use crate::thresholds::Threshold;
use crate::trials::tried;
use ground_core::Part;
use lit_core::{Assignment, Lit};

/// The end of the interval that a result with a value asks for: the greatest where the result is true.
#[derive(Clone, Copy)]
pub struct End {
    pub of: Threshold,
    pub high: bool,
    /// What the parts that count in it gain together.
    pub sum: i128,
}

/// The end that a result with this value asks for.
pub fn end_of(high: bool, c: Threshold, parts: &[Part], values: &Assignment) -> End
    requires within { All (λ (p : PartRow). p.lit.var.0 < length values.now) parts.now }
    requires out { value_in values.now c.out ≡ Some high }
    ensures of { result.of ≡ c }
    ensures end { IsEndOf (assigned values.now) parts.now result }
{
    End {
        of: c,
        high,
        sum: total_at(high, c.kind, c.least, parts, values, None),
    }
}

/// Whether the end contradicts the result.
pub fn is_wrong(end: End) -> bool
    ensures { result ≡ differ end.high (with_side end.of.kind (met (goal_of end.of.kind (amount_of end.of.least))
        end.sum)) }
{
    is_other(end.high, is_reached(end.of.kind, end.of.least, end.sum))
}

/// The sum with one number less.
fn less(sum: i128, more: i64) -> i128
    requires low { neg_ℤ (pos (2 ^ 127 - 2 ^ 63 - 1)) ≤ℤ sum }
    requires high { sum ≤ℤ pos (2 ^ 127 - 2 ^ 63 - 1) }
    ensures { result ≡ sum -ℤ more }
{
    sum - i128::from(more)
}

/// The end once an unassigned part has the value.
pub fn moved_end(end: End, part: &Part, value: Option<bool>) -> End
    requires low { neg_ℤ (pos (2 ^ 126)) ≤ℤ end.sum }
    requires top { end.sum ≤ℤ pos (2 ^ 126) }
    ensures of { result.of ≡ end.of }
    ensures high { result.high ≡ end.high }
    ensures sum { result.sum ≡ moved end.high end.of.kind (amount_of end.of.least) part.now.weight value end.sum }
    ensures low { neg_ℤ (pos (2 ^ 126 + 2 ^ 64)) ≤ℤ result.sum }
    ensures top { result.sum ≤ℤ pos (2 ^ 126 + 2 ^ 64) }
{
    let with = plus(
        end.sum,
        share(end.high, end.of.kind, end.of.least, part, value),
    );
    End {
        of: end.of,
        high: end.high,
        sum: less(with, share(end.high, end.of.kind, end.of.least, part, None)),
    }
}

/// The part's literal or its negation, whichever cannot be made true, if the part is unassigned and there is one.
pub fn tried_part(end: End, parts: &[Part], values: &Assignment, part: &Part) -> Option<Lit>
    requires within { part.now.lit.var.0 < length values.now }
    requires end { IsEndOf (assigned values.now) parts.now end }
    requires part { Contains parts.now part.now }
    requires once { HasVarsOnce parts.now }
    ensures some { IfSome result (λ l. Decides (assigned values.now) (constraint_of end.of parts.now) l
        × (IsOpenAt (assigned values.now) (constraint_of end.of parts.now) part.now.lit → ⊥)) }
    ensures var { IfSome result (λ l. l.var.0 ≡ part.now.lit.var.0) }
    ensures none { IfNone result (IsOpenAt (assigned values.now) (constraint_of end.of parts.now) part.now.lit) }
{
    if values.value(part.lit).is_some() {
        return None;
    }
    if is_wrong(moved_end(end, part, Some(true))) {
        return Some(part.lit);
    }
    if is_wrong(moved_end(end, part, Some(false))) {
        return Some(part.lit.negated());
    }
    None
}

/// The first part found that cannot have one of the values, where the result is known.
///
/// The sum of one end is taken once. A part's value moves it by that part's gain alone, since its variable stands in no
/// other part; and it is not the result's, which is known.
fn decided_part(end: End, parts: &[Part], values: &Assignment) -> Option<Lit>
    requires within { IsWithin values.now (constraint_of end.of parts.now) }
    requires end { IsEndOf (assigned values.now) parts.now end }
    requires once { HasVarsOnce parts.now }
    ensures some { IfSome result (λ l. Decides (assigned values.now) (constraint_of end.of parts.now) l
        × (AreOpen (assigned values.now) (constraint_of end.of parts.now) → ⊥)) }
    ensures none { IfNone result (AreOpen (assigned values.now) (constraint_of end.of parts.now)) }
{
    for part in parts {
        if let Some(lit) = tried_part(end, parts, values, part) {
            return Some(lit);
        }
    }
    None
}

/// The first literal found that cannot be made true.
pub fn decided_once(c: Threshold, parts: &[Part], values: &Assignment) -> Option<Lit>
    requires within { IsWithin values.now (constraint_of c parts.now) }
    requires once { HasVarsOnce parts.now }
    ensures some { IfSome result (λ l. Decides (assigned values.now) (constraint_of c parts.now) l
        × (AreOpen (assigned values.now) (constraint_of c parts.now) → ⊥)) }
    ensures none { IfNone result (AreOpen (assigned values.now) (constraint_of c parts.now)) }
{
    match values.value(c.out) {
        Some(high) => decided_part(end_of(high, c, parts, values), parts, values),
        None => tried(c, parts, values, c.out),
    }
}
