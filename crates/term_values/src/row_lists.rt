//! Lists of rows that are made of others.
ghost use Rattle.std.specs.Prelude.{◌≡◌, ◌++◌, ◌∷◌, map, pos, IfSome, FitsSigned, OnOk};
ghost use Rattle.std.specs.Int.{w64};
ghost use Rattle.std.specs.List.{flat_map, AllByRecursion};
ghost use Rattle.kb_logic.specs.Meaning.{number_value, product_from};
ghost use Rattle.kb_logic.specs.Values.{value_view};
ghost use Rattle.term_values.specs.RowArithmetic.{RowProductFits};
ghost use Rattle.term_values.specs.Rows.{map_rows, pair_rows};
ghost use Rattle.term_values.specs.RowSums.{sum_values, signs_of};

use crate::arithmetic::{product_value, sum_value};
use crate::rows::{RowValue, Rows, TupleRows};
use kb_logic::values::Value;
use kb_logic::{Memory, Signed};
use lit_core::Lit;

/// Pushes one row with each of the others.
fn push_with<'a>(
    guards: &[Lit],
    value: Value<'a>,
    others: &TupleRows<'a>,
    out: &mut TupleRows<'a>,
) -> Result<(), Memory>
    ensures { OnOk result (out.new ≡ out.old ++ map (λ y. (guards.now ++ y.0, value_view value.entry ∷ y.1))
        others.now) }
{
    for row in 0..others.len() {
        out.push(
            guards,
            others.guards(row),
            &[RowValue { value }],
            others.values(row),
        )?;
    }
    Ok(())
}

/// Pushes each row of the one with each of the other.
pub(crate) fn push_pairs<'a>(
    firsts: &Rows<'a>,
    others: &TupleRows<'a>,
    out: &mut TupleRows<'a>,
) -> Result<(), Memory>
    ensures { OnOk result (out.new ≡ out.old ++ pair_rows (λ x xs. x ∷ xs) firsts.now others.now) }
{
    for row in 0..firsts.len() {
        push_with(firsts.guards(row), firsts.value(row), others, out)?;
    }
    Ok(())
}

/// Pushes the rows with the sums of their values, one value for each operand.
pub(crate) fn push_sums<'a>(
    parts: &[Signed],
    tuples: &TupleRows<'a>,
    out: &mut Rows<'a>,
) -> Result<(), Memory>
    requires { AllByRecursion (λ r. IfSome (sum_values (signs_of parts.now) r.1) (λ z. FitsSigned w64 z)) tuples.now }
    ensures { OnOk result (out.new ≡ out.old ++ map_rows (λ vs. number_value (sum_values (signs_of parts.now) vs))
        tuples.now) }
{
    for row in 0..tuples.len() {
        out.push(
            tuples.guards(row),
            &[],
            sum_value(parts, tuples.values(row)),
        )?;
    }
    Ok(())
}

/// Pushes the rows with the products of their values.
pub(crate) fn push_products<'a>(tuples: &TupleRows<'a>, out: &mut Rows<'a>) -> Result<(), Memory>
    requires { AllByRecursion RowProductFits tuples.now }
    ensures { OnOk result (out.new ≡ out.old ++ map_rows (λ vs. number_value (product_from (pos 1) vs)) tuples.now) }
{
    for row in 0..tuples.len() {
        out.push(tuples.guards(row), &[], product_value(tuples.values(row)))?;
    }
    Ok(())
}
