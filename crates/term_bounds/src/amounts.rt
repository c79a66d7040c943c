//! Numbers of 128 bits and infinities: what sums of any number of weights come to.
ghost use Rattle.std.specs.Prelude.{◌≡◌, ◌≤ℤ◌, ◌-ℤ◌, ◌^◌, pos, neg_ℤ, ℤ, true, IsTrue};
ghost use Rattle.kb_logic.specs.Denotations.{Denotation, number};
ghost use Rattle.term_bounds.specs.Amounts.{amount_of, is_under, lessened};

use kb_logic::ExtInt;

/// A number that a sum of weights may come to, or an infinity.
#[derive(Clone, Copy)]
pub enum Amount {
    NegInf,
    Num(i128),
    PosInf,
}

/// The bound on what the parts of a term come to, where its base is added to them.
pub fn lessened_bound(base: i64, below: ExtInt) -> Amount
    ensures { amount_of result ≡ lessened base below }
{
    match below {
        ExtInt::NegInf => Amount::NegInf,
        ExtInt::Num(n) => Amount::Num(i128::from(n) - i128::from(base)),
        ExtInt::PosInf => Amount::PosInf,
    }
}

/// Whether a number is below the bound.
pub fn is_below(n: i128, bound: Amount) -> bool
    ensures { result ≡ is_under (amount_of bound) (number n) }
{
    match bound {
        Amount::NegInf => false,
        Amount::Num(least) => n < least,
        Amount::PosInf => true,
    }
}

/// Whether all that is below the first bound is below the second.
pub fn is_at_most(first: ExtInt, second: ExtInt) -> bool
    ensures { IsTrue result → (d : Denotation) → is_under first d ≡ true → is_under second d ≡ true }
{
    match (first, second) {
        (ExtInt::NegInf, _) => true,
        (_, ExtInt::PosInf) => true,
        (ExtInt::Num(a), ExtInt::Num(b)) => a <= b,
        _ => false,
    }
}
