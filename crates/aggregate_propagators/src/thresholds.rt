//! Constraints whose bound may have more than 64 bits.
ghost use Rattle.std.specs.Prelude.{◌≡◌};
ghost use Rattle.aggregate_propagators.specs.Thresholds.{amount_of, IsNear};

use ground_core::AggCon;
use kb_logic::{AggKind, ExtInt};
use lit_core::Lit;

/// A bound on what parts come to: a number, or an infinity.
#[derive(Clone, Copy)]
pub enum Amount {
    NegInf,
    Num(i128),
    PosInf,
}

/// A constraint but for its parts, which stand beside it: `out` is true exactly where they come to at least `least`.
///
/// The bound on the parts of a term is the bound on the term less its base, and that may be a number of 65 bits.
#[derive(Clone, Copy)]
pub struct Threshold {
    pub out: Lit,
    pub kind: AggKind,
    pub least: Amount,
}

/// The bound in 128 bits.
fn widened(least: ExtInt) -> Amount
    ensures value { amount_of result ≡ least }
    ensures near { IsNear (amount_of result) }
{
    match least {
        ExtInt::NegInf => Amount::NegInf,
        ExtInt::Num(least) => Amount::Num(i128::from(least)),
        ExtInt::PosInf => Amount::PosInf,
    }
}

/// The constraint without its parts.
pub fn threshold_of(c: &AggCon) -> Threshold
    ensures out { result.out ≡ c.now.out }
    ensures kind { result.kind ≡ c.now.kind }
    ensures least { amount_of result.least ≡ c.now.least }
    ensures near { IsNear (amount_of result.least) }
{
    Threshold {
        out: c.out,
        kind: c.kind,
        least: widened(c.least),
    }
}
