//! Literals that cannot be made true, found by trying each value of each of them.
ghost use Rattle.std.specs.Prelude.{◌≡◌, ◌<◌, length, IfNone, IfSome};
ghost use Rattle.ground_core.specs.Intervals.{IsOpenAt};
ghost use Rattle.aggregate_propagators.specs.Implied.{assigned, AreOpen, Decides, IsWithin};
ghost use Rattle.aggregate_propagators.specs.Thresholds.{constraint_of};

use crate::contradictions::contradicted;
use crate::thresholds::Threshold;
use ground_core::Part;
use lit_core::{Assignment, Lit};

/// The literal of this one's variable that cannot be made true, if the variable is unassigned and there is one.
pub fn tried(c: Threshold, parts: &[Part], values: &Assignment, lit: Lit) -> Option<Lit>
    requires within { IsWithin values.now (constraint_of c parts.now) }
    requires lit { lit.var.0 < length values.now }
    ensures some { IfSome result (λ l. Decides (assigned values.now) (constraint_of c parts.now) l
        × (IsOpenAt (assigned values.now) (constraint_of c parts.now) lit → ⊥)) }
    ensures none { IfNone result (IsOpenAt (assigned values.now) (constraint_of c parts.now) lit) }
{
    if values.value(lit).is_some() {
        return None;
    }
    if contradicted(c, parts, values, Some(lit)) {
        return Some(lit);
    }
    if contradicted(c, parts, values, Some(lit.negated())) {
        return Some(lit.negated());
    }
    None
}

/// The first literal found that cannot be made true, by a look at all parts for each value of each literal.
pub fn decided_each(c: Threshold, parts: &[Part], values: &Assignment) -> Option<Lit>
    requires { IsWithin values.now (constraint_of c parts.now) }
    ensures some { IfSome result (λ l. Decides (assigned values.now) (constraint_of c parts.now) l
        × (AreOpen (assigned values.now) (constraint_of c parts.now) → ⊥)) }
    ensures none { IfNone result (AreOpen (assigned values.now) (constraint_of c parts.now)) }
{
    if let Some(lit) = tried(c, parts, values, c.out) {
        return Some(lit);
    }
    for part in parts {
        if let Some(lit) = tried(c, parts, values, part.lit) {
            return Some(lit);
        }
    }
    None
}
