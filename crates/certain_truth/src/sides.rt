//! The sides of a comparison.
ghost use Rattle.std.specs.Prelude.{◌≡◌, List};
ghost use Rattle.std.specs.Option.{option_map};
ghost use Rattle.kb_logic.specs.declared.elements.Elem.{Elem};
ghost use Rattle.kb_logic.specs.Trees.{TermTree, comparison};
ghost use Rattle.kb_logic.specs.Denotations.{as_number};
ghost use Rattle.certain_truth.specs.Certainty.{compared_known, equation_certain, certain_truth};
ghost use Rattle.certain_truth.specs.Certainty.{or_else as second};
ghost use Rattle.certain_truth.specs.Evaluation.{total_of};
ghost use Rattle.partial_structures.specs.Values.{value_view};
ghost use Rattle.partial_structures.specs.Known.{known_in};
ghost use Rattle.certain_truth.specs.Sides.{IsApplied, IsSide};

use crate::connectives::truth_of;
use kb_logic::Cmp;
use kb_logic::values::{Total, Value, compare, number};
use partial_structures::lookups::value_truth;
use partial_structures::{Known, Place, Truth};

/// What is known of a term that is compared: its value, and where its arguments lead where it is an
/// application.
#[derive(Clone, Copy)]
pub(crate) struct Side<'a> {
    pub value: Option<Value<'a>>,
    pub applied: Option<(u32, Place<'a>)>,
}

fn or_else(known: Truth, other: Truth) -> Truth
    ensures { result ≡ second known other }
{
    match known {
        Truth::Unknown => other,
        _ => known,
    }
}

fn compare_values(cmp: Cmp, a: Option<Value<'_>>, b: Option<Value<'_>>) -> Truth
    ensures { result ≡ compared_known cmp (option_map value_view a.entry) (option_map value_view b.entry) }
{
    match (a, b) {
        (Some(a), Some(b)) => truth_of(compare(cmp, a, b)),
        _ => Truth::Unknown,
    }
}

/// What is known of the side's being equal to the value.
fn equation(s: Known<'_>, side: Side<'_>, value: Option<Value<'_>>) -> Truth
    ensures { (t : TermTree) (e : List Elem) → IsApplied s.entry t e side.entry.applied
        → result ≡ equation_certain (known_in s.entry) t (option_map value_view value.entry) e }
{
    match (side.applied, value) {
        (Some((symbol, place)), Some(value)) => value_truth(s, symbol, place, value),
        _ => Truth::Unknown,
    }
}

/// What is certain of the comparison of the two sides.
pub(crate) fn compare_sides(s: Known<'_>, cmp: Cmp, left: Side<'_>, right: Side<'_>) -> Truth
    ensures { (t u : TermTree) (e : List Elem) → IsSide s.entry t e left.entry → IsSide s.entry u e right.entry
        → result ≡ certain_truth (known_in s.entry) (comparison cmp t u) e }
{
    let values = compare_values(cmp, left.value, right.value);
    match cmp {
        Cmp::Eq => {
            let other = or_else(equation(s, right, left.value), values);
            or_else(equation(s, left, right.value), other)
        }
        _ => values,
    }
}

/// The weight of an assignment, where its value is known.
pub(crate) fn weight_of(value: Option<Value<'_>>) -> Option<Total>
    ensures { total_of result ≡ option_map as_number (option_map value_view value.entry) }
{
    match value {
        Some(value) => Some(number(value)),
        None => None,
    }
}
