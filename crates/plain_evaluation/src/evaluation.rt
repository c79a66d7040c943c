//! The value of a term and the truth of a formula, which take no memory.
ghost use Rattle.std.specs.Prelude.{◌≡◌, ◌<◌, length, map, min, ◌-◌, ◌^◌, ◌++◌, pos, neg_ℤ, ◌≤ℤ◌, Some, []};
ghost use Rattle.std.specs.List.{AllByRecursion, list_all, list_any, count_by, fold};
ghost use Rattle.std.specs.Option.{option_map};
ghost use Rattle.kb_logic.specs.Trees.{terms_of, summands_of};
ghost use Rattle.kb_logic.specs.Views.{formula_view, term_view, signed_view};
ghost use Rattle.kb_logic.specs.Denotations.{added, lower_value, as_number};
ghost use Rattle.kb_logic.specs.Meaning.{assignments, behind, applied, last_value, has_row, signed_of, value_of};
ghost use Rattle.kb_logic.specs.Meaning.{values_of, sum_of, truth_of, product_from, values_where};
ghost use Rattle.kb_logic.specs.Values.{value_view, total_view, count_up_to};
ghost use Rattle.plain_evaluation.specs.Environments.{env_view};
ghost use Rattle.kb_logic.specs.Arithmetic.{start, combined, TermFits, TermsFit, SummandsFit, ArithmeticFits};
ghost use Rattle.kb_logic.specs.Arithmetic.{NumberFits, FoldFits, ProductFits};

use crate::environments::{Env, extend, split_in, variable_value};
use crate::frames::Block;
use crate::totals::{combine, signed, start};
use kb_logic::values::{
    Total, Value, compare, count_value, elem_value, made_value, number, rows, same, total_value,
};
use kb_logic::{AggKind, Bound, Elem, ElemList, Formula, Signed, Structure, Term};

/// The variables of a binder in two parts, as `split_in` cuts them over the structure's domains.
fn split<'a>(m: &'a Structure, bounds: &'a [Bound]) -> (Block<'a>, &'a [Bound])
    requires { 0 < length bounds.now }
    ensures parts { bounds.now ≡ result.0.bounds.now ++ result.1.now }
    ensures fewer { length result.1.now < length bounds.now }
    ensures domains { result.0.domains.now ≡ m.now.domains }
    ensures count { result.0.count ≡ length (assignments m.now result.0.bounds.now) }
{
    split_in(m.domains.as_slice(), bounds)
}

fn only(rest: &[Elem]) -> Value<'_>
    ensures { value_view result ≡ last_value (Some rest.now) }
{
    match rest {
        [elem] => elem_value(elem),
        _ => Value::Nothing,
    }
}

#[cycle(eval)]
fn term_value<'a>(m: &'a Structure, term: &'a Term, env: &'a Env<'a>) -> Value<'a>
    requires { TermFits m.now (term_view term.now) (env_view env.now) }
    ensures { value_view result ≡ value_of m.now (term_view term.now) (env_view env.now) }
{
    match term {
        Term::Var(n) => variable_value(env, *n as usize),
        Term::Int(n) => Value::Num(*n),
        Term::Made(ty, n) => made_value(m.domains.as_slice(), *ty, *n),
        Term::Product(factors) => match product(m, factors, env) {
            Some(total) => Value::Num(total),
            None => Value::Nothing,
        },
        Term::Apply(symbol, args) => application(
            m,
            rows(m.functions.as_slice(), *symbol),
            args,
            env,
        ),
        Term::Sum(parts) => match sum(m, parts, env) {
            Some(total) => Value::Num(total as i64),
            None => Value::Nothing,
        },
        Term::Agg(kind, bounds, formula, weight) => total_value(aggregate(
            m,
            *kind,
            bounds,
            formula,
            weight,
            env,
            start(*kind),
        )),
    }
}

#[cycle(eval)]
fn sum<'a>(m: &'a Structure, parts: &'a [Signed], env: &'a Env<'a>) -> Option<i128>
    requires { SummandsFit m.now (summands_of (map signed_view parts.now)) (env_view env.now) }
    ensures { result ≡ sum_of m.now (summands_of (map signed_view parts.now)) (env_view env.now) }
{
    let mut total = 0i128;
    for part in parts {
        match term_value(m, &part.term, env) {
            Value::Num(n) => total += signed(part.minus, n),
            _ => return None,
        }
    }
    Some(total)
}

#[cycle(eval)]
fn product<'a>(m: &'a Structure, factors: &'a [Term], env: &'a Env<'a>) -> Option<i64>
    requires terms { TermsFit m.now (terms_of (map term_view factors.now)) (env_view env.now) }
    requires products { ProductFits (pos 1) (values_of m.now (terms_of (map term_view factors.now))
        (env_view env.now)) }
    ensures { result ≡ product_from (pos 1) (values_of m.now (terms_of (map term_view factors.now))
        (env_view env.now)) }
{
    let mut total = 1i64;
    for factor in factors {
        match term_value(m, factor, env) {
            Value::Num(n) => total *= n,
            _ => return None,
        }
    }
    Some(total)
}

/// What follows the values of the arguments in the row, if it begins with them.
#[cycle(eval)]
fn strip<'a>(
    m: &'a Structure,
    row: &'a [Elem],
    args: &'a [Term],
    env: &'a Env<'a>,
) -> Option<&'a [Elem]>
    requires { TermsFit m.now (terms_of (map term_view args.now)) (env_view env.now) }
    ensures { option_map (λ r. r.now) result ≡ behind row.now (values_of m.now (terms_of (map term_view args.now))
        (env_view env.now)) }
{
    let mut rest = row;
    for arg in args {
        let value = term_value(m, arg, env);
        match rest.split_first() {
            Some((elem, tail)) => {
                if !same(elem_value(elem), value) {
                    return None;
                }
                rest = tail;
            }
            None => return None,
        }
    }
    Some(rest)
}

#[cycle(eval)]
fn application<'a>(
    m: &'a Structure,
    rows: &'a [ElemList],
    args: &'a [Term],
    env: &'a Env<'a>,
) -> Value<'a>
    requires { TermsFit m.now (terms_of (map term_view args.now)) (env_view env.now) }
    ensures { value_view result ≡ applied rows.now (values_of m.now (terms_of (map term_view args.now))
        (env_view env.now)) }
{
    for row in rows {
        if let Some(rest) = strip(m, row.as_slice(), args, env) {
            return only(rest);
        }
    }
    Value::Nothing
}

#[cycle(eval)]
fn is_in<'a>(m: &'a Structure, rows: &'a [ElemList], args: &'a [Term], env: &'a Env<'a>) -> bool
    requires { TermsFit m.now (terms_of (map term_view args.now)) (env_view env.now) }
    ensures { result ≡ has_row rows.now (values_of m.now (terms_of (map term_view args.now)) (env_view env.now)) }
{
    for row in rows {
        if let Some([]) = strip(m, row.as_slice(), args, env) {
            return true;
        }
    }
    false
}

#[cycle(eval)]
fn is_true<'a>(m: &'a Structure, formula: &'a Formula, env: &'a Env<'a>) -> bool
    requires { ArithmeticFits m.now (formula_view formula.now) (env_view env.now) }
    ensures { result ≡ truth_of m.now (formula_view formula.now) (env_view env.now) }
{
    match formula {
        Formula::True => true,
        Formula::False => false,
        Formula::Implies(left, right) => !is_true(m, left, env) || is_true(m, right, env),
        Formula::Iff(left, right) => is_true(m, left, env) == is_true(m, right, env),
        Formula::Or(parts) => {
            'or: for disjunct in parts {
                if is_true(m, disjunct, env) {
                    return true;
                }
            }
            false
        }
        Formula::Any(bounds, inner) => is_any(m, bounds, inner, env),
        Formula::Atom(symbol, args) => is_in(m, rows(m.relations.as_slice(), *symbol), args, env),
        Formula::Compare(cmp, a, b) => compare(*cmp, term_value(m, a, env), term_value(m, b, env)),
        Formula::Not(inner) => !is_true(m, inner, env),
        Formula::And(parts) => {
            for part in parts {
                if !is_true(m, part, env) {
                    return false;
                }
            }
            true
        }
        Formula::All(bounds, inner) => is_every(m, bounds, inner, env),
        Formula::Number(cmp, n, bounds, inner) => {
            let count = count(m, bounds, inner, env);
            compare(*cmp, count_value(count), Value::Num(*n))
        }
    }
}

/// Whether the formula is true under every assignment of the variables.
#[cycle(eval)]
fn is_every<'a>(
    m: &'a Structure,
    bounds: &'a [Bound],
    formula: &'a Formula,
    env: &'a Env<'a>,
) -> bool
    requires { AllByRecursion (λ a. ArithmeticFits m.now (formula_view formula.now) (env_view env.now ++ a))
        (assignments m.now bounds.now) }
    ensures { result ≡ list_all (λ a. truth_of m.now (formula_view formula.now) (env_view env.now ++ a))
        (assignments m.now bounds.now) }
{
    if bounds.is_empty() {
        return is_true(m, formula, env);
    }
    let (block, others) = split(m, bounds);
    for number in 0..block.count {
        if !is_every(m, others, formula, &extend(env, block, number)) {
            return false;
        }
    }
    true
}

/// Whether the formula is true under some assignment of the variables.
#[cycle(eval)]
fn is_any<'a>(m: &'a Structure, bounds: &'a [Bound], formula: &'a Formula, env: &'a Env<'a>) -> bool
    requires { AllByRecursion (λ a. ArithmeticFits m.now (formula_view formula.now) (env_view env.now ++ a))
        (assignments m.now bounds.now) }
    ensures { result ≡ list_any (λ a. truth_of m.now (formula_view formula.now) (env_view env.now ++ a))
        (assignments m.now bounds.now) }
{
    if bounds.is_empty() {
        return is_true(m, formula, env);
    }
    let (block, others) = split(m, bounds);
    for number in 0..block.count {
        if is_any(m, others, formula, &extend(env, block, number)) {
            return true;
        }
    }
    false
}

/// Under how many assignments of the variables the formula is true, up to the largest number.
#[cycle(eval)]
fn count<'a>(m: &'a Structure, bounds: &'a [Bound], formula: &'a Formula, env: &'a Env<'a>) -> u64
    requires { AllByRecursion (λ a. ArithmeticFits m.now (formula_view formula.now) (env_view env.now ++ a))
        (assignments m.now bounds.now) }
    ensures { result ≡ min (2 ^ 64 - 1) (count_by (λ a. truth_of m.now (formula_view formula.now)
        (env_view env.now ++ a)) (assignments m.now bounds.now)) }
{
    if bounds.is_empty() {
        return u64::from(is_true(m, formula, env));
    }
    let (block, others) = split(m, bounds);
    let mut total = 0u64;
    for number in 0..block.count {
        let part = count(m, others, formula, &extend(env, block, number));
        total = total.saturating_add(part);
    }
    total
}

/// The aggregate over the assignments of the variables that make the formula true, from what it was before.
#[cycle(eval)]
fn aggregate<'a>(
    m: &'a Structure,
    kind: AggKind,
    bounds: &'a [Bound],
    formula: &'a Formula,
    weight: &'a Term,
    env: &'a Env<'a>,
    before: Total,
) -> Total
    requires each { AllByRecursion (λ a. ArithmeticFits m.now (formula_view formula.now) (env_view env.now ++ a)
        × TermFits m.now (term_view weight.now) (env_view env.now ++ a)) (assignments m.now bounds.now) }
    requires sums { FoldFits kind (total_view before) (values_where (λ a. truth_of m.now (formula_view formula.now)
        (env_view env.now ++ a)) (λ a. as_number (value_of m.now (term_view weight.now) (env_view env.now ++ a)))
        (assignments m.now bounds.now)) }
    ensures { total_view result ≡ fold (combined kind) (total_view before)
        (values_where (λ a. truth_of m.now (formula_view formula.now) (env_view env.now ++ a))
        (λ a. as_number (value_of m.now (term_view weight.now) (env_view env.now ++ a)))
        (assignments m.now bounds.now)) }
{
    if bounds.is_empty() {
        return if is_true(m, formula, env) {
            combine(kind, before, number(term_value(m, weight, env)))
        } else {
            before
        };
    }
    let (block, others) = split(m, bounds);
    let mut total = before;
    for number in 0..block.count {
        let inner = extend(env, block, number);
        total = aggregate(m, kind, others, formula, weight, &inner, total);
    }
    total
}

/// Whether the formula, which has no free variable, is true in the structure.
pub fn truth(m: &Structure, f: &Formula) -> bool
    requires { ArithmeticFits m.now (formula_view f.now) [] }
    ensures { result ≡ truth_of m.now (formula_view f.now) [] }
{
    is_true(m, f, &Env::Given(&[]))
}
