//! Sums, products and aggregates, part by part, as far as they are known.
ghost use Rattle.std.specs.Prelude.{◌≡◌, ◌≤ℤ◌, ◌+ℤ◌, ◌*◌, ◌+◌, ◌<◌, ◌^◌, IfSome, FitsSigned, pos, neg_ℤ, Some};
ghost use Rattle.std.specs.Int.{w64, w128};
ghost use Rattle.std.specs.Option.{option_map};
ghost use Rattle.kb_logic.specs.Denotations.{added, lower_value};
ghost use Rattle.kb_logic.specs.Meaning.{signed_of};
ghost use Rattle.kb_logic.specs.Values.{total_view};
ghost use Rattle.kb_logic.specs.Arithmetic.{start, combined, NumberFits};
ghost use Rattle.partial_structures.specs.Values.{value_view};
ghost use Rattle.certain_truth.specs.KnownArithmetic.{gathered};
ghost use Rattle.certain_truth.specs.Evaluation.{tallied, summed, multiplied, total_of};

use kb_logic::AggKind;
use kb_logic::values::{Total, Value};
use partial_structures::Truth;
use plain_evaluation::totals::{combine, signed};

fn add(sum: i128, part: i128) -> i128
    requires { FitsSigned w128 (sum +ℤ part) }
    ensures { result ≡ sum +ℤ part }
{
    sum + part
}

/// The sum with one operand more, where `parts` bounds how many there were.
pub(crate) fn sum_more(
    total: Option<i128>,
    minus: bool,
    value: Value<'_>,
    parts: usize,
) -> Option<i128>
    requires room { parts + 1 < 2 ^ 64 }
    requires low { IfSome total (λ z. neg_ℤ (pos (2 ^ 63 * parts)) ≤ℤ z) }
    requires high { IfSome total (λ z. z ≤ℤ pos (2 ^ 63 * parts)) }
    ensures sum { result ≡ summed total minus (value_view value.entry) }
    ensures low { IfSome result (λ z. neg_ℤ (pos (2 ^ 63 * (parts + 1))) ≤ℤ z) }
    ensures high { IfSome result (λ z. z ≤ℤ pos (2 ^ 63 * (parts + 1))) }
{
    match (total, value) {
        (Some(sum), Value::Num(n)) => Some(add(sum, signed(minus, n))),
        _ => None,
    }
}

/// The product with one factor more.
pub(crate) fn product_more(total: Option<i64>, value: Value<'_>) -> Option<i64>
    requires { IfSome (multiplied total (value_view value)) (λ z. FitsSigned w64 z) }
    ensures { result ≡ multiplied total (value_view value.entry) }
{
    match (total, value) {
        (Some(product), Value::Num(n)) => Some(product * n),
        _ => None,
    }
}

/// The aggregate with one assignment more, by what is known of its condition and its weight.
pub(crate) fn gather(
    kind: AggKind,
    total: Option<Total>,
    condition: Truth,
    weight: Option<Total>,
) -> Option<Total>
    requires { IfSome (gathered kind (total_of total) condition (total_of weight)) NumberFits }
    ensures { total_of result ≡ gathered kind (total_of total) condition (total_of weight) }
{
    match (total, condition, weight) {
        (Some(total), Truth::No, _) => Some(total),
        (Some(total), Truth::Yes, Some(weight)) => Some(combine(kind, total, weight)),
        _ => None,
    }
}

/// The count with one assignment more.
pub(crate) fn tally(count: Option<u64>, condition: Truth) -> Option<u64>
    ensures { result ≡ tallied count condition }
{
    match (count, condition) {
        (Some(count), Truth::Yes) => Some(count.saturating_add(1)),
        (Some(count), Truth::No) => Some(count),
        _ => None,
    }
}
