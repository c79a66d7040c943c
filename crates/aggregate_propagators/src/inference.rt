//! What a constraint implies.
ghost use Rattle.std.specs.Prelude.{◌≡◌, ◌⊎◌, ◌↔◌, ℕ, Bool, true, All, IfNone, IfSome, IfOk, IsNone};
ghost use Rattle.lit_core.specs.declared.literals.Lit.{Lit as LitRow};
ghost use Rattle.lit_core.specs.Truth.{IsFalsified, IsSatisfied, IsUnitAt};
ghost use Rattle.ground_core.specs.Meaning.{SumHolds};
ghost use Rattle.ground_core.specs.Intervals.{contradicts, refuting, IsQuiet};
ghost use Rattle.aggregate_propagators.specs.Implied.{assigned, AreOpen, Decides, IsOfSum, IsWithin};
ghost use Rattle.aggregate_propagators.specs.Thresholds.{amount_of, constraint_of, IsNear};

use crate::contradictions::contradicted;
use crate::explained::clause_from;
use crate::rising::is_rising;
use crate::single::decided_once;
use crate::thresholds::{Threshold, threshold_of};
use crate::trials::decided_each;
use ground_core::{AggCon, Memory, Part};
use lit_core::{Assignment, Clause, Lit};
use std::alloc::Global;

/// The first literal found that cannot be made true.
fn decided(c: Threshold, parts: &[Part], values: &Assignment) -> Option<Lit>
    requires { IsWithin values.now (constraint_of c parts.now) }
    ensures some { IfSome result (λ l. Decides (assigned values.now) (constraint_of c parts.now) l
        × (AreOpen (assigned values.now) (constraint_of c parts.now) → ⊥)) }
    ensures none { IfNone result (AreOpen (assigned values.now) (constraint_of c parts.now)) }
{
    // Where no variable stands in two parts, one sum serves all tries; elsewhere each try goes through all parts.
    if is_rising(parts) {
        return decided_once(c, parts, values);
    }
    decided_each(c, parts, values)
}

/// The same as `implied`, of a constraint whose bound may have more than 64 bits.
pub fn implied_at(
    alloc: Global,
    c: Threshold,
    parts: &[Part],
    values: &Assignment,
) -> Result<Option<Clause>, Memory>
    requires near { IsNear (amount_of c.least) }
    requires within { IsWithin values.now (constraint_of c parts.now) }
    ensures holds { IfOk result (λ o. IfSome o (λ cl. (v : ℕ → Bool) → SumHolds v (constraint_of c parts.now)
        → IsSatisfied v cl)) }
    ensures acts { IfOk result (λ o. IfSome o (λ cl. IsFalsified values.now cl ⊎ ((l : LitRow) × IsUnitAt values.now cl
        l))) }
    ensures alone { IfOk result (λ o. IfSome o (λ cl. contradicts (refuting cl) (constraint_of c parts.now) ≡ true)) }
    ensures none { IfOk result (λ o. IsNone o ↔ IsQuiet (assigned values.now) (constraint_of c parts.now)) }
    ensures variables { IfOk result (λ o. IfSome o (λ cl. All (λ l. IsOfSum l (constraint_of c parts.now)) cl)) }
{
    if contradicted(c, parts, values, None) {
        return Ok(Some(clause_from(alloc, c, parts, values, None)?));
    }
    match decided(c, parts, values) {
        Some(lit) => Ok(Some(clause_from(alloc, c, parts, values, Some(lit))?)),
        None => Ok(None),
    }
}

/// A clause that the constraint implies, and that is false now or has one literal left that must be true; None where
/// no value of a variable alone contradicts the constraint.
pub fn implied(alloc: Global, c: &AggCon, values: &Assignment) -> Result<Option<Clause>, Memory>
    requires { IsWithin values.now c.now }
    ensures holds { IfOk result (λ o. IfSome o (λ cl. (v : ℕ → Bool) → SumHolds v c.now → IsSatisfied v cl)) }
    ensures acts { IfOk result (λ o. IfSome o (λ cl. IsFalsified values.now cl ⊎ ((l : LitRow) × IsUnitAt values.now cl
        l))) }
    ensures alone { IfOk result (λ o. IfSome o (λ cl. contradicts (refuting cl) c.now ≡ true)) }
    ensures none { IfOk result (λ o. IsNone o ↔ IsQuiet (assigned values.now) c.now) }
    ensures variables { IfOk result (λ o. IfSome o (λ cl. All (λ l. IsOfSum l c.now) cl)) }
{
    implied_at(alloc, threshold_of(c), c.parts.as_slice(), values)
}
