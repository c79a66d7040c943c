//! Sums and products of the values of a row.
ghost use Rattle.std.specs.Prelude.{◌≡◌, length, map, pos, IfSome, FitsSigned};
ghost use Rattle.std.specs.Int.{w64};
ghost use Rattle.kb_logic.specs.Arithmetic.{ProductFits};
ghost use Rattle.kb_logic.specs.Meaning.{number_value, product_from};
ghost use Rattle.kb_logic.specs.Values.{value_view};
ghost use Rattle.term_values.specs.RowSums.{sum_values, signs_of};
ghost use Rattle.term_values.specs.RowValues.{row_value};

use crate::rows::RowValue;
use kb_logic::Signed;
use kb_logic::values::Value;
use plain_evaluation::totals::signed;

/// The sum of the values, one for each operand. There is none where a value is no integer.
fn wide_sum(parts: &[Signed], values: &[RowValue<'_>]) -> Option<i128>
    ensures { result ≡ sum_values (signs_of parts.now) (map row_value values.now) }
{
    if parts.len() != values.len() {
        return None;
    }
    let mut total = 0i128;
    for i in 0..parts.len() {
        match values[i].value {
            Value::Num(n) => total += signed(parts[i].minus, n),
            _ => return None,
        }
    }
    Some(total)
}

/// The sum of the values as a value.
pub(crate) fn sum_value(parts: &[Signed], values: &[RowValue<'_>]) -> Value<'static>
    requires { IfSome (sum_values (signs_of parts.now) (map row_value values.now)) (λ z. FitsSigned w64 z) }
    ensures { value_view result ≡ number_value (sum_values (signs_of parts.now) (map row_value values.now)) }
{
    match wide_sum(parts, values) {
        Some(total) => Value::Num(total as i64),
        None => Value::Nothing,
    }
}

/// The product of the values. There is none where one is no integer.
fn product(values: &[RowValue<'_>]) -> Option<i64>
    requires { ProductFits (pos 1) (map row_value values.now) }
    ensures { result ≡ product_from (pos 1) (map row_value values.now) }
{
    let mut total = 1i64;
    for factor in values {
        match factor.value {
            Value::Num(n) => total *= n,
            _ => return None,
        }
    }
    Some(total)
}

/// The product of the values as a value.
pub(crate) fn product_value(values: &[RowValue<'_>]) -> Value<'static>
    requires { ProductFits (pos 1) (map row_value values.now) }
    ensures { value_view result ≡ number_value (product_from (pos 1) (map row_value values.now)) }
{
    match product(values) {
        Some(total) => Value::Num(total),
        None => Value::Nothing,
    }
}
