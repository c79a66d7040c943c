//! What terms come to under values: no code is shared with the solvers.
ghost use Rattle.std.specs.Prelude.{◌≡◌, ◌↔◌, ◌*◌, ◌+◌, ◌-◌, ◌^◌, ◌≤◌, ◌+ℤ◌, ◌≤ℤ◌, ℕ, pos, neg_ℤ, IsTrue};
ghost use Rattle.std.specs.Prelude.{if◌then◌else◌};
ghost use Rattle.kb_logic.specs.declared.syntax.Cmp.TheVariants as cmp;
ghost use Rattle.kb_logic.specs.Arithmetic.{combined, start};
ghost use Rattle.kb_logic.specs.Denotations.{compared, greater, lesser, number};
ghost use Rattle.lit_core.specs.Literals.{literal_value, valuation};
ghost use Rattle.ground_core.specs.Meaning.{parts_value, shifted, denotation_of_bound};
ghost use Rattle.solving_judge.specs.Totals.{denoted, IsOf, IsWithin};

use crate::truths::is_true;
use ground_core::Part;
use kb_logic::{AggKind, ExtInt};
use lit_core::Values;

/// What a term comes to: a number, or the least or the greatest of nothing.
#[derive(Clone, Copy)]
pub enum Total {
    NegInf,
    Num(i128),
    PosInf,
}

/// The total of nothing.
fn start_of(kind: AggKind) -> Total
    ensures value { denoted result ≡ start kind }
    ensures size { IsOf kind 0 result }
{
    match kind {
        AggKind::Count => Total::Num(0),
        AggKind::Sum => Total::Num(0),
        AggKind::Min => Total::PosInf,
        AggKind::Max => Total::NegInf,
    }
}

/// A number more, where there is a number.
fn plus(total: Total, more: i64) -> Total
    requires { IsWithin (2 ^ 126) total }
    ensures value { denoted result ≡ shifted more (denoted total) }
    ensures size { (n : ℕ) → IsWithin n total → IsWithin (n + 2 ^ 63) result }
{
    match total {
        Total::Num(number) => Total::Num(i128::from(more) + number),
        _ => total,
    }
}

/// The lesser of a total and a weight.
fn lesser_of(total: Total, weight: i64) -> Total
    ensures value { denoted result ≡ lesser (denoted total) (number weight) }
    ensures size { (n : ℕ) → IsWithin n total → IsWithin (n + 2 ^ 63) result }
{
    match total {
        Total::NegInf => total,
        Total::Num(least) if least <= i128::from(weight) => total,
        _ => Total::Num(i128::from(weight)),
    }
}

/// The greater of a total and a weight.
fn greater_of(total: Total, weight: i64) -> Total
    ensures value { denoted result ≡ greater (denoted total) (number weight) }
    ensures size { (n : ℕ) → IsWithin n total → IsWithin (n + 2 ^ 63) result }
{
    match total {
        Total::PosInf => total,
        Total::Num(greatest) if i128::from(weight) <= greatest => total,
        _ => Total::Num(i128::from(weight)),
    }
}

/// The total with one weight more.
fn with_weight(kind: AggKind, total: Total, weight: i64) -> Total
    requires { IsOf kind (2 ^ 126) total }
    ensures value { denoted result ≡ combined kind (denoted total) (number weight) }
    ensures size { (n : ℕ) → IsOf kind n total → IsOf kind (n + 2 ^ 63) result }
{
    match kind {
        AggKind::Count => plus(total, 1),
        AggKind::Sum => plus(total, weight),
        AggKind::Min => lesser_of(total, weight),
        AggKind::Max => greater_of(total, weight),
    }
}

/// The total with a part's weight, where its literal is true.
fn with_part(values: &Values, kind: AggKind, total: Total, part: Part) -> Total
    requires { IsOf kind (2 ^ 126) total }
    ensures value { denoted result ≡ (if literal_value (valuation values.now) part.lit
        then combined kind (denoted total) (number part.weight) else denoted total) }
    ensures size { (n : ℕ) → IsOf kind n total → IsOf kind (n + 2 ^ 63) result }
{
    if is_true(values, part.lit) {
        with_weight(kind, total, part.weight)
    } else {
        total
    }
}

/// What the parts come to together.
pub fn parts_total(values: &Values, kind: AggKind, parts: &[Part]) -> Total
    ensures value { denoted result ≡ parts_value (valuation values.now) kind parts.now }
    ensures size { IsOf kind (2 ^ 126) result }
{
    let mut total = start_of(kind);
    for part in parts {
        total = with_part(values, kind, total, *part);
    }
    total
}

/// What a term of this kind, with this base and these parts, comes to.
pub fn term_total(values: &Values, kind: AggKind, base: i64, parts: &[Part]) -> Total
    ensures { denoted result ≡ shifted base (parts_value (valuation values.now) kind parts.now) }
{
    plus(parts_total(values, kind, parts), base)
}

/// Whether the total is below the number.
pub fn is_below(total: Total, below: i64) -> bool
    ensures { result ≡ compared cmp.Lt (denoted total) (number below) }
{
    match total {
        Total::NegInf => true,
        Total::Num(number) => number < i128::from(below),
        Total::PosInf => false,
    }
}

/// Whether the total is at least the bound.
pub fn is_at_least(total: Total, least: ExtInt) -> bool
    ensures { result ≡ compared cmp.Ge (denoted total) (denotation_of_bound least) }
{
    match (total, least) {
        (Total::NegInf, ExtInt::NegInf) => true,
        (Total::NegInf, ExtInt::Num(_) | ExtInt::PosInf) => false,
        (Total::Num(_), ExtInt::NegInf) => true,
        (Total::Num(number), ExtInt::Num(least)) => i128::from(least) <= number,
        (Total::Num(_), ExtInt::PosInf) => false,
        (Total::PosInf, ExtInt::NegInf | ExtInt::Num(_) | ExtInt::PosInf) => true,
    }
}

/// Whether the total is the value.
pub fn is_value(total: Total, value: ExtInt) -> bool
    ensures { IsTrue result ↔ (denoted total ≡ denotation_of_bound value) }
{
    match (total, value) {
        (Total::NegInf, ExtInt::NegInf) => true,
        (Total::Num(number), ExtInt::Num(expected)) => number == i128::from(expected),
        (Total::PosInf, ExtInt::PosInf) => true,
        _ => false,
    }
}
