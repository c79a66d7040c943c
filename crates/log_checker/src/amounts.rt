//! Numbers of 128 bits and infinities: what parts may come to.
ghost use Rattle.std.specs.Prelude.{◌≡◌, IfOk};
ghost use Rattle.log_checker.specs.Amounts.{plus, least_of, most_of, more, is_less, further, choose, amount_of, first};

use ground_core::Memory;
use kb_logic::{AggKind, ExtInt};

/// A number, or an infinity.
#[derive(Clone, Copy)]
pub enum Amount {
    Lowest,
    Finite(i128),
    Highest,
}

/// More by a number. A number past 128 bits, for which more parts are needed than fit in memory, counts as out of
/// memory.
pub fn plus(n: i64, d: Amount) -> Result<Amount, Memory>
    ensures { IfOk result (λ a. a ≡ plus n d) }
{
    match d {
        Amount::Lowest => Ok(Amount::Lowest),
        Amount::Finite(z) => match i128::from(n).checked_add(z) {
            Some(sum) => Ok(Amount::Finite(sum)),
            None => Err(Memory),
        },
        Amount::Highest => Ok(Amount::Highest),
    }
}

/// The less of both.
fn least_of(d: Amount, n: i64) -> Amount
    ensures { result ≡ least_of d n }
{
    let w = i128::from(n);
    match d {
        Amount::Lowest => Amount::Lowest,
        Amount::Finite(z) => {
            if w < z {
                Amount::Finite(w)
            } else {
                Amount::Finite(z)
            }
        }
        Amount::Highest => Amount::Finite(w),
    }
}

/// The greater of both.
fn most_of(d: Amount, n: i64) -> Amount
    ensures { result ≡ most_of d n }
{
    let w = i128::from(n);
    match d {
        Amount::Lowest => Amount::Finite(w),
        Amount::Finite(z) => {
            if z < w {
                Amount::Finite(w)
            } else {
                Amount::Finite(z)
            }
        }
        Amount::Highest => Amount::Highest,
    }
}

/// With one part more.
pub fn more(kind: AggKind, d: Amount, n: i64) -> Result<Amount, Memory>
    ensures { IfOk result (λ a. a ≡ more kind d n) }
{
    match kind {
        AggKind::Count => plus(1, d),
        AggKind::Sum => plus(n, d),
        AggKind::Min => Ok(least_of(d, n)),
        AggKind::Max => Ok(most_of(d, n)),
    }
}

/// What no part comes to.
pub fn first(kind: AggKind) -> Amount
    ensures { result ≡ first kind }
{
    match kind {
        AggKind::Count => Amount::Finite(0),
        AggKind::Sum => Amount::Finite(0),
        AggKind::Min => Amount::Highest,
        AggKind::Max => Amount::Lowest,
    }
}

/// Whether the first is below the second.
pub fn is_less(a: Amount, b: Amount) -> bool
    ensures { result ≡ is_less a b }
{
    match a {
        Amount::Lowest => match b {
            Amount::Lowest => false,
            Amount::Finite(_) => true,
            Amount::Highest => true,
        },
        Amount::Finite(x) => match b {
            Amount::Lowest => false,
            Amount::Finite(y) => x < y,
            Amount::Highest => true,
        },
        Amount::Highest => false,
    }
}

/// The greater of both, or the less.
fn further(greatest: bool, a: Amount, b: Amount) -> Amount
    ensures { result ≡ further greatest a b }
{
    if greatest {
        if is_less(a, b) { b } else { a }
    } else {
        if is_less(b, a) { b } else { a }
    }
}

/// The furthest of what is left: without a part that may be left out, or with a part that may count.
pub fn choose(greatest: bool, may: bool, leave: bool, d: Amount, e: Amount) -> Amount
    ensures { result ≡ choose greatest may leave d e }
{
    if may {
        if leave { further(greatest, d, e) } else { e }
    } else {
        d
    }
}

/// A bound as an amount.
pub fn amount_of(k: ExtInt) -> Amount
    ensures { result ≡ amount_of k }
{
    match k {
        ExtInt::NegInf => Amount::Lowest,
        ExtInt::Num(n) => Amount::Finite(i128::from(n)),
        ExtInt::PosInf => Amount::Highest,
    }
}
