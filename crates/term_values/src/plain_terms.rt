//! Terms that have one row, without guards, whatever is known: variables, numbers and made elements, and sums of these.
//!
//! Most arguments of most atoms are such terms. Their values are read one after another, and no rows are made of them.
ghost use Rattle.std.specs.Prelude.{◌≡◌, ◌+ℤ◌, ◌∷◌, [], Some, true, map, IfOk, IfSome};
ghost use Rattle.kb_logic.specs.Denotations.{number};
ghost use Rattle.kb_logic.specs.Meaning.{signed_of};
ghost use Rattle.kb_logic.specs.Trees.{terms_of, summands_of};
ghost use Rattle.kb_logic.specs.Values.{value_view};
ghost use Rattle.kb_logic.specs.Views.{term_view, signed_view};
ghost use Rattle.plain_evaluation.specs.Environments.{env_view};
ghost use Rattle.term_values.specs.Rows.{rows_of_term, rows_of_terms, rows_of_sum};
ghost use Rattle.term_values.specs.RowValues.{row_value};

use crate::ground_data::GroundData;
use crate::rows::RowValue;
use kb_logic::values::{Value, made_value};
use kb_logic::{Memory, Signed, Term};
use plain_evaluation::environments::{Env, variable_value};
use smallvec::SmallVec;

/// The value of a variable, a number or a made element.
fn leaf_value<'a>(base: &GroundData<'a>, term: &Term, env: &Env<'a>) -> Option<Value<'a>>
    ensures { IfSome result (λ x. rows_of_term base.now (term_view term.now) (env_view env.now)
        ≡ ([], value_view x) ∷ []) }
{
    match term {
        Term::Var(n) => Some(variable_value(env, *n as usize)),
        Term::Int(n) => Some(Value::Num(*n)),
        Term::Made(ty, n) => Some(made_value(base.domains(), *ty, *n)),
        _ => None,
    }
}

/// The number, where the term is a variable, a number or a made element that stands for one.
fn leaf_number(base: &GroundData<'_>, term: &Term, env: &Env<'_>) -> Option<i64>
    ensures { IfSome result (λ z. rows_of_term base.now (term_view term.now) (env_view env.now)
        ≡ ([], number z) ∷ []) }
{
    match leaf_value(base, term, env) {
        Some(Value::Num(n)) => Some(n),
        _ => None,
    }
}

/// The sum with one operand more, unless it overflows.
fn plus(total: i64, minus: bool, n: i64) -> Option<i64>
    ensures { IfSome result (λ z. z ≡ total +ℤ signed_of minus n) }
{
    if minus {
        total.checked_sub(n)
    } else {
        total.checked_add(n)
    }
}

/// The sum, where each operand is a variable, a number or a made element. There is none where the sum of the first
/// operands overflows: then the rows of the operands tell.
fn plain_sum(base: &GroundData<'_>, parts: &[Signed], env: &Env<'_>) -> Option<i64>
    ensures { IfSome result (λ z. rows_of_sum base.now (summands_of (map signed_view parts.now)) (env_view env.now)
        ≡ ([], Some z) ∷ []) }
{
    let mut total = 0i64;
    for part in parts {
        let Some(n) = leaf_number(base, &part.term, env) else {
            return None;
        };
        let Some(more) = plus(total, part.minus, n) else {
            return None;
        };
        total = more;
    }
    Some(total)
}

/// The value of a variable, a number, a made element, or a sum of these.
pub(crate) fn plain_value<'a>(
    base: &GroundData<'a>,
    term: &Term,
    env: &Env<'a>,
) -> Option<Value<'a>>
    ensures { IfSome result (λ x. rows_of_term base.now (term_view term.now) (env_view env.now)
        ≡ ([], value_view x) ∷ []) }
{
    match term {
        Term::Sum(parts) => match plain_sum(base, parts, env) {
            Some(total) => Some(Value::Num(total)),
            None => None,
        },
        _ => leaf_value(base, term, env),
    }
}

/// Pushes the values of the terms, up to the first that is none of these. Whether all are.
pub(crate) fn push_plain<'a>(
    base: &GroundData<'a>,
    terms: &[Term],
    env: &Env<'a>,
    values: &mut SmallVec<RowValue<'a>, 4>,
) -> Result<bool, Memory>
    requires { values.old.items ≡ [] }
    ensures { IfOk result (λ all. all ≡ true → rows_of_terms base.now (terms_of (map term_view terms.now))
        (env_view env.now) ≡ ([], map row_value values.new.items) ∷ []) }
{
    for term in terms {
        match plain_value(base, term, env) {
            Some(value) => values.push(RowValue { value })?,
            None => return Ok(false),
        }
    }
    Ok(true)
}
