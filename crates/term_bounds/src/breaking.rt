//! Bounds that cannot hold any more.
ghost use Rattle.std.specs.Prelude.{◌≡◌, ◌<◌, ◌⊎◌, ℕ, Bool, Some, true, List, length, All, IfNone, IfOk, IfSome};
ghost use Rattle.std.specs.Prelude.{IsSome, IsTrue};
ghost use Rattle.lit_core.specs.declared.literals.Lit.{Lit as LitRow};
ghost use Rattle.lit_core.specs.Literals.{value_in};
ghost use Rattle.ground_core.specs.declared.parts.Part.{Part as PartRow};
ghost use Rattle.ground_core.specs.Meaning.{BoundHolds};
ghost use Rattle.term_bounds.specs.Breaking.{AreOnTerms, HasLits, Holds, IsBroken, IsBrokenAt};
ghost use Rattle.term_bounds.specs.Breaking.{IsNoTighter};
ghost use Rattle.term_bounds.specs.Shares.{IsDecidedAs};

use crate::amounts::is_at_most;
use crate::linear::Line;
use crate::reasons::reasons;
use crate::shares::{least_of, spare_of};
use ground_core::{GroundTerm, Memory, TermBound};
use lit_core::{Assignment, Lit};
use std::alloc::Global;

/// A clause that is false now, and the place of the bound that implies it.
#[derive(Drop)]
pub struct BrokenBound {
    pub place: usize,
    pub clause: Vec<Lit>,
}

/// A false clause that the bound implies, where its output is true and its term cannot be below its number.
fn broken_by(
    alloc: Global,
    term: &GroundTerm,
    bound: TermBound,
    assignment: &Assignment,
) -> Result<Option<Vec<Lit>>, Memory>
    requires out { bound.out.var.0 < length assignment.now }
    requires within { All (λ (p : PartRow). p.lit.var.0 < length assignment.now) term.now.parts }
    ensures broken { IfOk result (λ o. IfSome o (λ c. IsBroken term.now bound assignment.now c.items)) }
    ensures holds { IfOk result (λ o. IfNone o ((v : ℕ → Bool) → IsDecidedAs assignment.now v bound.out
        → All (λ (p : PartRow). IsDecidedAs assignment.now v p.lit) term.now.parts → Holds v term.now bound)) }
{
    if assignment.value(bound.out) != Some(true) {
        return Ok(None);
    }
    let line = Line::of(term, bound.below);
    let parts = term.parts.as_slice();
    match spare_of(least_of(line, parts, assignment), line.total_bound()) {
        None => Ok(None),
        Some(spare) => Ok(Some(reasons(alloc, line, bound.out, parts, spare, assignment)?)),
    }
}

/// Whether the bound holds wherever the other one does, whose output is true: they are on one term, and its number is
/// no lower.
pub fn follows_from(bound: TermBound, other: Option<TermBound>) -> bool
    ensures { IsTrue result → IfSome other (λ tight. IsNoTighter bound tight) × IsSome other }
{
    match other {
        Some(tight) => tight.term == bound.term && is_at_most(tight.below, bound.below),
        None => false,
    }
}

/// The bound where its output is true, and the other one elsewhere.
fn in_force(
    bound: TermBound,
    other: Option<TermBound>,
    assignment: &Assignment,
) -> Option<TermBound>
    requires { bound.out.var.0 < length assignment.now }
    ensures { ((result ≡ Some bound) × (value_in assignment.now bound.out ≡ Some true)) ⊎ (result ≡ other) }
{
    if assignment.value(bound.out) == Some(true) {
        Some(bound)
    } else {
        other
    }
}

/// A clause that is false now and that one of the bounds implies, with the bound's place, or None where none is found.
/// Where every variable of terms and bounds has a value, None says that all bounds hold.
pub fn broken(
    alloc: Global,
    terms: &[GroundTerm],
    bounds: &[TermBound],
    assignment: &Assignment,
) -> Result<Option<BrokenBound>, Memory>
    requires terms { AreOnTerms terms.now bounds.now }
    requires within { HasLits (λ l. l.var.0 < length assignment.now) terms.now bounds.now }
    ensures broken { IfOk result (λ o. IfSome o (λ found. IsBrokenAt terms.now bounds.now assignment.now found.place
        found.clause.items)) }
    ensures hold { IfOk result (λ o. IfNone o ((v : ℕ → Bool) → HasLits (IsDecidedAs assignment.now v) terms.now
        bounds.now → All (BoundHolds v terms.now) bounds.now)) }
{
    // The newest bounds come first: they are the tightest, and those that follow from one of them need no look.
    let mut tight = None;
    let mut left = bounds.len();
    while left > 0 {
        left -= 1;
        let bound = bounds[left];
        if follows_from(bound, tight) {
            continue;
        }
        let term = &terms[bound.term as usize];
        match broken_by(alloc, term, bound, assignment)? {
            Some(clause) => {
                return Ok(Some(BrokenBound {
                    place: left,
                    clause,
                }));
            }
            None => tight = in_force(bound, tight, assignment),
        }
    }
    Ok(None)
}
