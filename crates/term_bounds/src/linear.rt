//! A bound on a term as a bound on one sum, whatever the term's kind.
ghost use Rattle.std.specs.Prelude.{◌≡◌};
ghost use Rattle.term_bounds.specs.Amounts.{amount_of, lessened};
ghost use Rattle.term_bounds.specs.Totals.{counted_as, none_reaching, total_bound};

use crate::amounts::{Amount, is_below, lessened_bound};
use ground_core::GroundTerm;
use kb_logic::{AggKind, ExtInt};

/// A term's kind, and the bound on what its parts come to without the base.
///
/// A maximum is below a bound where no true part reaches it, a minimum where some true part is below it: so
/// each kind asks whether a sum of what the true parts count is below a number.
#[derive(Clone, Copy)]
pub struct Line {
    pub kind: AggKind,
    pub bound: Amount,
}

impl Line {
    /// The line of a term under a bound.
    pub fn of(term: &GroundTerm, below: ExtInt) -> Line
        ensures kind { result.kind ≡ term.now.kind }
        ensures bound { amount_of result.bound ≡ lessened term.now.base below }
    {
        Line {
            kind: term.kind,
            bound: lessened_bound(term.base, below),
        }
    }

    /// What a true part of this weight counts.
    pub fn count(self, weight: i64) -> i64
        ensures { result ≡ counted_as self.kind (amount_of self.bound) weight }
    {
        match self.kind {
            AggKind::Count => 1,
            AggKind::Sum => weight,
            AggKind::Min => {
                if is_below(i128::from(weight), self.bound) {
                    -1
                } else {
                    0
                }
            }
            AggKind::Max => {
                if is_below(i128::from(weight), self.bound) {
                    0
                } else {
                    1
                }
            }
        }
    }

    /// The bound on the sum.
    pub fn total_bound(self) -> Amount
        ensures { amount_of result ≡ total_bound self.kind (amount_of self.bound) }
    {
        match self.kind {
            AggKind::Count | AggKind::Sum => self.bound,
            AggKind::Min => Amount::Num(0),
            AggKind::Max => one_unless_low(self.bound),
        }
    }
}

/// 1, or minus infinity where the bound is.
fn one_unless_low(bound: Amount) -> Amount
    ensures { amount_of result ≡ none_reaching (amount_of bound) }
{
    match bound {
        Amount::NegInf => Amount::NegInf,
        Amount::Num(_) | Amount::PosInf => Amount::Num(1),
    }
}
