//! A test that the values of a problem's terms stay in range.
ghost use Rattle.std.specs.Prelude.{◌≡◌, ◌↔◌, IsTrue, All};
ghost use Rattle.ground_core.specs.Meaning.{HasTermsInRange};
ghost use Rattle.ground_core.specs.Ranges.{part_size, IsSmall};

use crate::parts::{GroundTerm, Part};
use crate::problems::Problem;
use kb_logic::AggKind;

/// The greatest value that a term may have.
const GREATEST: u64 = 1_000_000_000_000_000;

/// How far the part can take a value from 0.
fn size_of_part(kind: AggKind, part: &Part) -> u64
    ensures { result ≡ part_size kind part.now }
{
    match kind {
        AggKind::Count => 1,
        AggKind::Sum | AggKind::Min | AggKind::Max => part.weight.unsigned_abs(),
    }
}

/// Whether the base and all parts together stay within the greatest value.
fn is_small(term: &GroundTerm) -> bool
    ensures { IsTrue result ↔ IsSmall term.now }
{
    let Some(mut room) = GREATEST.checked_sub(term.base.unsigned_abs()) else {
        return false;
    };
    for part in term.parts.as_slice() {
        match room.checked_sub(size_of_part(term.kind, part)) {
            Some(left) => room = left,
            None => return false,
        }
    }
    true
}

fn are_small(terms: &[GroundTerm]) -> bool
    ensures { IsTrue result ↔ All IsSmall terms.now }
{
    for term in terms {
        if !is_small(term) {
            return false;
        }
    }
    true
}

/// Whether the terms are so small that no valuation takes them out of range. A problem that fails
/// this test may still have its terms in range.
pub fn has_small_terms(problem: &Problem) -> bool
    ensures small { IsTrue result ↔ All IsSmall problem.now.terms }
    ensures in_range { IsTrue result → HasTermsInRange problem.now }
{
    are_small(problem.terms())
}
