//! Whether a constraint cannot hold.
ghost use Rattle.std.specs.Prelude.{◌≡◌, IfOk, IsTrue, ◌↔◌, Some, slice_get};
ghost use Rattle.derivation_log.specs.Steps.{CannotHold, SumCannotHold, BoundCannotHold, HasNoOpposites};
ghost use Rattle.log_checker.specs.Sets.{IsMarked};
ghost use Rattle.log_checker.specs.States.{state_view};
ghost use Rattle.log_checker.specs.Amounts.{first};
ghost use Rattle.log_checker.specs.Extremes.{far, far_with};

use crate::amounts::{Amount, amount_of, choose, first, is_less, more, plus};
use crate::checked::Checked;
use crate::literal_sets::LiteralSet;
use ground_core::{AggCon, GroundTerm, Memory, Part, Problem, TermBound};
use kb_logic::AggKind;
use lit_core::Lit;

/// The furthest with one part more.
fn with_part(
    greatest: bool,
    kind: AggKind,
    set: &LiteralSet,
    part: Part,
    found: Amount,
) -> Result<Amount, Memory>
    ensures { IfOk result (λ a. a ≡ far_with greatest kind set.now found part) }
{
    let with = more(kind, found, part.weight)?;
    let may = !set.has(part.lit.negated());
    let leave = !set.has(part.lit);
    Ok(choose(greatest, may, leave, found, with))
}

/// The furthest that the parts may come to, each part by itself: one pass gives the greatest or the least value
/// for all four kinds.
fn far(greatest: bool, kind: AggKind, set: &LiteralSet, parts: &[Part]) -> Result<Amount, Memory>
    ensures { IfOk result (λ a. a ≡ far greatest kind set.now (first kind) parts.now) }
{
    let mut found = first(kind);
    for part in parts {
        found = with_part(greatest, kind, set, *part, found)?;
    }
    Ok(found)
}

/// Whether the constraint of the problem cannot hold.
fn sum_fails(set: &LiteralSet, inforce: &[Lit], s: &AggCon) -> Result<bool, Memory>
    requires marked { IsMarked set.now inforce.now }
    requires fine { HasNoOpposites inforce.now }
    ensures { IfOk result (λ b. IsTrue b ↔ SumCannotHold inforce.now s.now) }
{
    if set.has(s.out) {
        let most = far(true, s.kind, set, s.parts.as_slice())?;
        return Ok(is_less(most, amount_of(s.least)));
    }
    if set.has(s.out.negated()) {
        let least = far(false, s.kind, set, s.parts.as_slice())?;
        return Ok(!is_less(least, amount_of(s.least)));
    }
    Ok(false)
}

/// Whether the bound of an entry cannot hold.
fn bound_fails(
    set: &LiteralSet,
    inforce: &[Lit],
    b: TermBound,
    t: &GroundTerm,
) -> Result<bool, Memory>
    requires marked { IsMarked set.now inforce.now }
    requires fine { HasNoOpposites inforce.now }
    ensures { IfOk result (λ r. IsTrue r ↔ BoundCannotHold inforce.now b t.now) }
{
    if !set.has(b.out) {
        return Ok(false);
    }
    let least = far(false, t.kind, set, t.parts.as_slice())?;
    Ok(!is_less(plus(t.base, least)?, amount_of(b.below)))
}

/// Whether the constraint number n + 1 cannot hold where these literals are in force.
pub fn cannot_hold(
    p: &Problem,
    st: &Checked,
    set: &LiteralSet,
    inforce: &[Lit],
    n: u64,
) -> Result<bool, Memory>
    requires marked { IsMarked set.now inforce.now }
    requires fine { HasNoOpposites inforce.now }
    ensures { IfOk result (λ b. IsTrue b ↔ CannotHold p.now (state_view st.now) inforce.now n) }
{
    let place = n as usize;
    let sums = p.sums();
    if place < sums.len() {
        return sum_fails(set, inforce, &sums[place]);
    }
    let bounds = st.bounds.as_slice();
    let k = place - sums.len();
    if k >= bounds.len() {
        return Ok(false);
    }
    let b = bounds[k];
    let terms = p.terms();
    let t = b.term as usize;
    if t >= terms.len() {
        return Ok(false);
    }
    bound_fails(set, inforce, b, &terms[t])
}
