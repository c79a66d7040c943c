//! What bounds imply.
ghost use Rattle.std.specs.Prelude.{◌≡◌, ◌<◌, ◌≤ℤ◌, ◌+ℤ◌, ℤ, Bool, Option, Some, None, true, false, List, length, All};
ghost use Rattle.std.specs.Prelude.{Any, IfOk, IfSome};
ghost use Rattle.kb_logic.specs.Denotations.{number};
ghost use Rattle.lit_core.specs.Literals.{value_in};
ghost use Rattle.ground_core.specs.declared.parts.Part.{Part as PartRow};
ghost use Rattle.term_bounds.specs.Amounts.{amount_of, is_under};
ghost use Rattle.term_bounds.specs.Breaking.{AreOnTerms, HasLits};
ghost use Rattle.term_bounds.specs.Implying.{IsImpliedAt, IsImpliedBy, IsRaisedBy};

use crate::amounts::Amount;
use crate::breaking::follows_from;
use crate::linear::Line;
use crate::reasons::{false_one, reasons};
use crate::shares::{least_of, part_raise};
use ground_core::{GroundTerm, Memory, Part, TermBound};
use lit_core::{Assignment, Lit};
use std::alloc::Global;

/// What one bound implies: each of the literals is true where the bound holds and the reasons are false.
#[derive(Drop)]
pub struct Implication {
    /// The bound's place.
    pub place: usize,
    /// Literals that are false now.
    pub reasons: Vec<Lit>,
    /// Literals that have no value now.
    pub lits: Vec<Lit>,
}

/// By how much a sum may not rise.
fn gap_of(sum: i128, bound: Amount) -> Option<i128>
    ensures { IfSome result (λ gap. (z : ℤ) → (sum +ℤ gap) ≤ℤ z → is_under (amount_of bound) (number z) ≡ false) }
{
    match bound {
        Amount::Num(least) => least.checked_sub(sum),
        Amount::NegInf | Amount::PosInf => None,
    }
}

/// The literal of a part's variable that is true unless the part's literal has the value, where that raises the sum by
/// at least this much.
fn rise_as(line: Line, part: &Part, low: i128, value: bool) -> Option<Lit>
    ensures { IfSome result (λ l. (a : List (Option Bool)) → value_in a part.now.lit ≡ None
        → IsRaisedBy a line.kind (amount_of line.bound) low l part.now) }
{
    if part_raise(line, part, Some(value)) < low {
        return None;
    }
    Some(false_one(part.lit, value))
}

/// The literal of an unassigned part that is true where the sum may not rise by this much.
fn rise_of(line: Line, part: &Part, low: i128, assignment: &Assignment) -> Option<Lit>
    requires within { part.now.lit.var.0 < length assignment.now }
    ensures { IfSome result (λ l. IsRaisedBy assignment.now line.kind (amount_of line.bound) low l part.now) }
{
    if assignment.value(part.lit).is_some() {
        return None;
    }
    match rise_as(line, part, low, true) {
        Some(lit) => Some(lit),
        None => rise_as(line, part, low, false),
    }
}

/// The literals that are true where the sum may not rise by this much.
#[inline(never)]
fn rises_of(
    alloc: Global,
    line: Line,
    parts: &[Part],
    low: i128,
    assignment: &Assignment,
) -> Result<Vec<Lit>, Memory>
    requires within { All (λ (p : PartRow). p.lit.var.0 < length assignment.now) parts.now }
    ensures { IfOk result (λ lits. All (λ l. Any (IsRaisedBy assignment.now line.kind (amount_of line.bound) low l)
        parts.now) lits.items) }
{
    let mut lits = Vec::new(alloc);
    for part in parts {
        if let Some(lit) = rise_of(line, part, low, assignment) {
            lits.push(lit)?;
        }
    }
    Ok(lits)
}

/// The literals that a bound forces, whose output is true; None where there are none, or where the bound is broken.
fn implied_by(
    alloc: Global,
    place: usize,
    term: &GroundTerm,
    bound: TermBound,
    assignment: &Assignment,
) -> Result<Option<Implication>, Memory>
    requires out { value_in assignment.now bound.out ≡ Some true }
    requires within { All (λ (p : PartRow). p.lit.var.0 < length assignment.now) term.now.parts }
    ensures implied { IfOk result (λ o. IfSome o (λ found. IsImpliedBy term.now bound assignment.now found.reasons.items
        found.lits.items)) }
    ensures place { IfOk result (λ o. IfSome o (λ found. found.place ≡ place)) }
{
    let line = Line::of(term, bound.below);
    let parts = term.parts.as_slice();
    let least = least_of(line, parts, assignment);
    let Some(gap) = gap_of(least, line.total_bound()) else {
        return Ok(None);
    };
    if gap <= 0 {
        return Ok(None);
    }
    let lits = rises_of(alloc, line, parts, gap, assignment)?;
    if lits.is_empty() {
        return Ok(None);
    }
    let reasons = reasons(alloc, line, bound.out, parts, 0, assignment)?;
    Ok(Some(Implication {
        place,
        reasons,
        lits,
    }))
}

/// Literals that one of the bounds forces; None where none is found. That a bound is broken is not told (`broken`).
pub fn implied(
    alloc: Global,
    terms: &[GroundTerm],
    bounds: &[TermBound],
    assignment: &Assignment,
) -> Result<Option<Implication>, Memory>
    requires terms { AreOnTerms terms.now bounds.now }
    requires within { HasLits (λ l. l.var.0 < length assignment.now) terms.now bounds.now }
    ensures { IfOk result (λ o. IfSome o (λ found. IsImpliedAt terms.now bounds.now assignment.now found.place
        found.reasons.items found.lits.items)) }
{
    // The newest bounds come first: they are the tightest, and those that follow from one of them need no look.
    let mut tight = None;
    let mut left = bounds.len();
    while left > 0 {
        left -= 1;
        let bound = bounds[left];
        if assignment.value(bound.out) != Some(true) || follows_from(bound, tight) {
            continue;
        }
        let term = &terms[bound.term as usize];
        match implied_by(alloc, left, term, bound, assignment)? {
            Some(found) => return Ok(Some(found)),
            None => tight = Some(bound),
        }
    }
    Ok(None)
}
