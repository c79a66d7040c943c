//! The least that the parts of a term may count.
ghost use Rattle.std.specs.Prelude.{◌≡◌, ◌<◌, ◌≤ℤ◌, ◌+ℤ◌, ◌-ℤ◌, ◌-◌, ◌^◌, ℤ, pos, neg_ℤ, false, length, All, IfNone};
ghost use Rattle.std.specs.Prelude.{IfSome, true};
ghost use Rattle.kb_logic.specs.declared.elements.ExtInt.{ExtInt};
ghost use Rattle.kb_logic.specs.declared.syntax.AggKind.TheVariants as kind;
ghost use Rattle.kb_logic.specs.Denotations.{number};
ghost use Rattle.ground_core.specs.declared.parts.Part.{Part as PartRow};
ghost use Rattle.term_bounds.specs.Amounts.{amount_of, is_under};
ghost use Rattle.term_bounds.specs.Shares.{least_total, raised, share};
ghost use Rattle.term_bounds.specs.Totals.{counted_as};

use crate::amounts::Amount;
use crate::linear::Line;
use ground_core::Part;
use kb_logic::AggKind;
use lit_core::Assignment;

/// The least that a part may count.
fn share_of(value: Option<bool>, count: i64) -> i64
    ensures { result ≡ share value count }
{
    match value {
        Some(true) => count,
        Some(false) => 0,
        None => count.min(0),
    }
}

/// The least that this part may count, where its literal has this value.
pub fn part_share(line: Line, part: &Part, value: Option<bool>) -> i64
    ensures { result ≡ share value (counted_as line.kind (amount_of line.bound) part.now.weight) }
{
    share_of(value, line.count(part.weight))
}

/// By how much a value raises the least that a part may count, which counts so much where it is true.
fn raise_of(value: Option<bool>, count: i64) -> i128
    ensures value { result ≡ raised value count }
    ensures low { pos 0 ≤ℤ result }
{
    i128::from(share_of(value, count)) - i128::from(share_of(None, count))
}

/// By how much the value raises the least that this part may count.
pub fn part_raise(line: Line, part: &Part, value: Option<bool>) -> i128
    ensures value { result ≡ raised value (counted_as line.kind (amount_of line.bound) part.now.weight) }
    ensures low { pos 0 ≤ℤ result }
{
    raise_of(value, line.count(part.weight))
}

/// The same of a part of a sum.
pub fn sum_raise(part: &Part, value: Option<bool>) -> i128
    ensures value { result ≡ raised value part.now.weight }
    ensures low { pos 0 ≤ℤ result }
{
    raise_of(value, part.weight)
}

/// The sum with one number more.
pub fn plus(sum: i128, more: i64) -> i128
    requires low { neg_ℤ (pos (2 ^ 127 - 2 ^ 63)) ≤ℤ sum }
    requires high { sum ≤ℤ pos (2 ^ 127 - 2 ^ 63 - 1) }
    ensures sum { result ≡ sum +ℤ more }
    ensures low { neg_ℤ (pos (2 ^ 63)) ≤ℤ (result -ℤ sum) }
    ensures high { (result -ℤ sum) ≤ℤ pos (2 ^ 63) }
{
    sum + i128::from(more)
}

/// The sum with the least that a part of a sum may count, where its literal has this value.
fn plus_part(sum: i128, part: &Part, value: Option<bool>) -> i128
    requires low { neg_ℤ (pos (2 ^ 127 - 2 ^ 63)) ≤ℤ sum }
    requires high { sum ≤ℤ pos (2 ^ 127 - 2 ^ 63 - 1) }
    ensures sum { result ≡ sum +ℤ share value part.now.weight }
    ensures low { neg_ℤ (pos (2 ^ 63)) ≤ℤ (result -ℤ sum) }
    ensures high { (result -ℤ sum) ≤ℤ pos (2 ^ 63) }
{
    match value {
        Some(true) => plus(sum, part.weight),
        Some(false) => sum,
        None => plus(sum, part.weight.min(0)),
    }
}

/// The least that the parts of a sum may count together.
///
/// A search walks through all parts of a term at each decision, and to ask each of them for the term's kind takes as
/// long as the rest. In a function of its own the loop keeps what it needs in registers.
#[inline(never)]
fn least_sum(parts: &[Part], assignment: &Assignment) -> i128
    requires within { All (λ (p : PartRow). p.lit.var.0 < length assignment.now) parts.now }
    ensures { (bound : ExtInt) → result ≡ least_total assignment.now kind.Sum bound parts.now }
{
    let mut sum: i128 = 0;
    for part in parts {
        sum = plus_part(sum, part, assignment.value(part.lit));
    }
    sum
}

/// The least that the parts of a term of any kind may count together.
fn least_counts(line: Line, parts: &[Part], assignment: &Assignment) -> i128
    requires within { All (λ (p : PartRow). p.lit.var.0 < length assignment.now) parts.now }
    ensures { result ≡ least_total assignment.now line.kind (amount_of line.bound) parts.now }
{
    let mut sum: i128 = 0;
    for part in parts {
        sum = plus(sum, part_share(line, part, assignment.value(part.lit)));
    }
    sum
}

/// The least that the parts may count together.
pub fn least_of(line: Line, parts: &[Part], assignment: &Assignment) -> i128
    requires within { All (λ (p : PartRow). p.lit.var.0 < length assignment.now) parts.now }
    ensures { result ≡ least_total assignment.now line.kind (amount_of line.bound) parts.now }
{
    match line.kind {
        AggKind::Sum => least_sum(parts, assignment),
        AggKind::Count | AggKind::Min | AggKind::Max => least_counts(line, parts, assignment),
    }
}

/// How much less a sum could be and still not be below the bound; None where it is below.
pub fn spare_of(sum: i128, bound: Amount) -> Option<i128>
    ensures none { IfNone result (is_under (amount_of bound) (number sum) ≡ true) }
    ensures some { IfSome result (λ spare. (pos 0 ≤ℤ spare) × ((z : ℤ) → sum ≤ℤ (z +ℤ spare)
        → is_under (amount_of bound) (number z) ≡ false)) }
{
    match bound {
        Amount::NegInf => Some(i128::MAX),
        Amount::Num(least) => {
            if sum < least {
                None
            } else {
                Some(sum.saturating_sub(least))
            }
        }
        Amount::PosInf => None,
    }
}
