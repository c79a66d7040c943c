//! Sums, products and aggregates, one part after another.
ghost use Rattle.std.specs.Prelude.{◌≡◌, ◌≤ℤ◌, ◌^◌, pos, neg_ℤ};
ghost use Rattle.kb_logic.specs.Denotations.{added, lower_value};
ghost use Rattle.kb_logic.specs.Meaning.{signed_of};
ghost use Rattle.kb_logic.specs.Values.{total_view};
ghost use Rattle.kb_logic.specs.Arithmetic.{start as start_of, combined, NumberFits};

use kb_logic::AggKind;
use kb_logic::values::Total;

/// An operand of a sum, with its sign.
pub fn signed(minus: bool, n: i64) -> i128
    ensures value { result ≡ signed_of minus n }
    ensures low { neg_ℤ (pos (2 ^ 63)) ≤ℤ result }
    ensures high { result ≤ℤ pos (2 ^ 63) }
{
    let n = i128::from(n);
    if minus { -n } else { n }
}

/// An aggregate of nothing.
pub fn start(kind: AggKind) -> Total
    ensures { total_view result ≡ start_of kind }
{
    match kind {
        AggKind::Count | AggKind::Sum => Total::Num(0),
        AggKind::Min => Total::PosInf,
        AggKind::Max => Total::NegInf,
    }
}

fn plus(a: Total, b: Total) -> Total
    requires { NumberFits (added (total_view a) (total_view b)) }
    ensures { total_view result ≡ added (total_view a) (total_view b) }
{
    match (a, b) {
        (Total::Num(x), Total::Num(y)) => Total::Num(x + y),
        _ => Total::Nothing,
    }
}

fn is_less(a: Total, b: Total) -> bool
    ensures { result ≡ lower_value (total_view a) (total_view b) }
{
    match (a, b) {
        (Total::Num(x), Total::Num(y)) => x < y,
        (Total::NegInf, Total::Num(_)) => true,
        (Total::NegInf, Total::PosInf) => true,
        (Total::Num(_), Total::PosInf) => true,
        _ => false,
    }
}

/// An aggregate with one value more.
pub fn combine(kind: AggKind, a: Total, b: Total) -> Total
    requires { NumberFits (combined kind (total_view a) (total_view b)) }
    ensures { total_view result ≡ combined kind (total_view a) (total_view b) }
{
    match kind {
        AggKind::Count => plus(a, Total::Num(1)),
        AggKind::Sum => plus(a, b),
        AggKind::Min => { if is_less(b, a) { b } else { a } }
        AggKind::Max => { if is_less(a, b) { b } else { a } }
    }
}
