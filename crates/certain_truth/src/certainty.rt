//! What is certain of a term or a formula, which takes no memory.
ghost use Rattle.std.specs.Prelude.{◌≡◌, ◌++◌, map, fold, pos};
ghost use Rattle.std.specs.List.{AllByRecursion};
ghost use Rattle.std.specs.Option.{option_map};
ghost use Rattle.kb_logic.specs.Trees.{terms_of, summands_of, formulas_of};
ghost use Rattle.kb_logic.specs.Views.{formula_view, term_view, signed_view};
ghost use Rattle.kb_logic.specs.Structures.{choices};
ghost use Rattle.kb_logic.specs.Denotations.{as_number};
ghost use Rattle.kb_logic.specs.Arithmetic.{ProductFits};
ghost use Rattle.kb_logic.specs.Meaning.{product_from};
ghost use Rattle.plain_evaluation.specs.Environments.{env_view};
ghost use Rattle.certain_truth.specs.Certainty.{known_value, known_values, known_sum, certain_truth};
ghost use Rattle.certain_truth.specs.KnownArithmetic.{gathered, GatheredFits, ValueFits, ValuesFit, OperandsFit};
ghost use Rattle.certain_truth.specs.KnownArithmetic.{CertaintyFits, PartsFit, known_front};
ghost use Rattle.partial_structures.specs.Values.{value_view};
ghost use Rattle.partial_structures.specs.Known.{known_in, place_view, spot_of};
ghost use Rattle.certain_truth.specs.Evaluation.{joined, tallied, total_of, parts_of};
ghost use Rattle.certain_truth.specs.Sides.{IsSide};

use crate::connectives::{alike, is_final, join, negate, truth_of};
use crate::sides::{Side, compare_sides, weight_of};
use crate::totals::{gather, product_more, sum_more, tally};
use kb_logic::values::{Total, Value, compare, count_value, made_value, number, total_value};
use kb_logic::{AggKind, Bound, Elem, Formula, Signed, Term};
use partial_structures::lookups::{atom_truth, given_value, next, start};
use partial_structures::{Known, Partial, Place, Truth};
use plain_evaluation::environments::{Env, extend, split_in, variable_value};
use plain_evaluation::totals::start as start_of_total;

#[cycle(certain)]
fn known<'a>(s: Known<'a>, term: &'a Term, env: &'a Env<'a>) -> Option<Value<'a>>
    requires { ValueFits (known_in s) (term_view term.now) (env_view env.now) }
    ensures { option_map value_view result ≡ known_value (known_in s.entry) (term_view term.now) (env_view env.now) }
{
    match term {
        Term::Var(n) => Some(variable_value(env, *n as usize)),
        Term::Int(n) => Some(Value::Num(*n)),
        Term::Made(ty, n) => Some(made_value(s.domains, *ty, *n)),
        Term::Product(factors) => match product(s, factors, env) {
            None => None,
            Some(Some(total)) => Some(Value::Num(total)),
            Some(None) => Some(Value::Nothing),
        },
        Term::Apply(symbol, args) => match place(s, *symbol, args, env) {
            None => None,
            Some(place) => given_value(s, *symbol, place),
        },
        Term::Sum(parts) => match sum(s, parts, env) {
            None => None,
            Some(Some(total)) => Some(Value::Num(total as i64)),
            Some(None) => Some(Value::Nothing),
        },
        Term::Agg(kind, bounds, formula, weight) => {
            let before = Some(start_of_total(*kind));
            match aggregate(s, *kind, bounds, formula, weight, env, before) {
                None => None,
                Some(total) => Some(total_value(total)),
            }
        }
    }
}

/// The sum where every operand is known: of operands that are not all integers there is none.
#[cycle(certain)]
fn sum<'a>(s: Known<'a>, parts: &'a [Signed], env: &'a Env<'a>) -> Option<Option<i128>>
    requires { OperandsFit (known_in s) (summands_of (map signed_view parts.now)) (env_view env.now) }
    ensures { result ≡ known_sum (known_in s.entry) (summands_of (map signed_view parts.now)) (env_view env.now) }
{
    let mut total = Some(0i128);
    for i in 0..parts.len() {
        match known(s, &parts[i].term, env) {
            None => return None,
            Some(value) => total = sum_more(total, parts[i].minus, value, i),
        }
    }
    Some(total)
}

/// The product where every factor is known, in the same way.
#[cycle(certain)]
fn product<'a>(s: Known<'a>, factors: &'a [Term], env: &'a Env<'a>) -> Option<Option<i64>>
    requires terms { ValuesFit (known_in s) (terms_of (map term_view factors.now)) (env_view env.now) }
    requires products { ProductFits (pos 1) (known_front (known_in s) (terms_of (map term_view factors.now))
        (env_view env.now)) }
    ensures { result ≡ option_map (product_from (pos 1)) (known_values (known_in s.entry)
        (terms_of (map term_view factors.now)) (env_view env.now)) }
{
    let mut total = Some(1i64);
    for factor in factors {
        match known(s, factor, env) {
            None => return None,
            Some(value) => total = product_more(total, value),
        }
    }
    Some(total)
}

/// Where the arguments lead, where they are known.
#[cycle(certain)]
fn place<'a>(s: Known<'a>, symbol: u32, args: &'a [Term], env: &'a Env<'a>) -> Option<Place<'a>>
    requires { ValuesFit (known_in s) (terms_of (map term_view args.now)) (env_view env.now) }
    ensures { option_map place_view result ≡ option_map (spot_of s.entry symbol)
        (known_values (known_in s.entry) (terms_of (map term_view args.now)) (env_view env.now)) }
{
    let mut place = start(s, symbol);
    for arg in args {
        match known(s, arg, env) {
            None => return None,
            Some(value) => place = next(s, place, value),
        }
    }
    Some(place)
}

/// A side of a comparison.
#[cycle(certain)]
fn side<'a>(s: Known<'a>, term: &'a Term, env: &'a Env<'a>) -> Side<'a>
    requires { ValueFits (known_in s) (term_view term.now) (env_view env.now) }
    ensures { IsSide s.entry (term_view term.now) (env_view env.now) result }
{
    match term {
        Term::Apply(symbol, args) => match place(s, *symbol, args, env) {
            None => Side {
                value: None,
                applied: None,
            },
            Some(place) => Side {
                value: given_value(s, *symbol, place),
                applied: Some((*symbol, place)),
            },
        },
        _ => Side {
            value: known(s, term, env),
            applied: None,
        },
    }
}

#[cycle(certain)]
fn certain<'a>(s: Known<'a>, formula: &'a Formula, env: &'a Env<'a>) -> Truth
    requires { CertaintyFits (known_in s) (formula_view formula.now) (env_view env.now) }
    ensures { result ≡ certain_truth (known_in s.entry) (formula_view formula.now) (env_view env.now) }
{
    match formula {
        Formula::True => Truth::Yes,
        Formula::False => Truth::No,
        Formula::Atom(symbol, args) => match place(s, *symbol, args, env) {
            None => Truth::Unknown,
            Some(place) => atom_truth(s, *symbol, place),
        },
        Formula::Compare(cmp, a, b) => compare_sides(s, *cmp, side(s, a, env), side(s, b, env)),
        Formula::Not(inner) => negate(certain(s, inner, env)),
        Formula::And(formulas) => parts(s, true, formulas, env),
        Formula::Or(formulas) => parts(s, false, formulas, env),
        Formula::Implies(left, right) => match certain(s, left, env) {
            Truth::No => Truth::Yes,
            known => join(false, negate(known), certain(s, right, env)),
        },
        Formula::Iff(left, right) => alike(certain(s, left, env), certain(s, right, env)),
        Formula::All(bounds, inner) => quantified(s, true, bounds, inner, env, Truth::Yes),
        Formula::Any(bounds, inner) => quantified(s, false, bounds, inner, env, Truth::No),
        Formula::Number(cmp, n, bounds, inner) => match count(s, bounds, inner, env, Some(0)) {
            None => Truth::Unknown,
            Some(count) => truth_of(compare(*cmp, count_value(count), Value::Num(*n))),
        },
    }
}

/// The conjunction of the formulas where `all`, and else their disjunction.
#[cycle(certain)]
fn parts<'a>(s: Known<'a>, all: bool, formulas: &'a [Formula], env: &'a Env<'a>) -> Truth
    requires { PartsFit (known_in s) (formulas_of (map formula_view formulas.now)) (env_view env.now) }
    ensures { result ≡ parts_of all (known_in s.entry) (formulas_of (map formula_view formulas.now))
        (env_view env.now) }
{
    let mut so_far = truth_of(all);
    for formula in formulas {
        if is_final(all, so_far) {
            return so_far;
        }
        so_far = join(all, so_far, certain(s, formula, env));
    }
    so_far
}

/// The conjunction over the assignments of the variables where `all`, and else the disjunction, from what it
/// was before.
#[cycle(certain)]
fn quantified<'a>(
    s: Known<'a>,
    all: bool,
    bounds: &'a [Bound],
    formula: &'a Formula,
    env: &'a Env<'a>,
    before: Truth,
) -> Truth
    requires { AllByRecursion (λ a. CertaintyFits (known_in s) (formula_view formula.now) (env_view env.now ++ a))
        (choices s.domains.now bounds.now) }
    ensures { result ≡ fold (λ t a. joined all t (certain_truth (known_in s.entry) (formula_view formula.now)
        (env_view env.now ++ a))) before (choices s.entry.domains.now bounds.now) }
{
    if bounds.is_empty() {
        return join(all, before, certain(s, formula, env));
    }
    let (block, others) = split_in(s.domains, bounds);
    let mut so_far = before;
    for number in 0..block.count {
        if is_final(all, so_far) {
            return so_far;
        }
        so_far = quantified(s, all, others, formula, &extend(env, block, number), so_far);
    }
    so_far
}

/// Under how many assignments of the variables the formula is certainly true, from a count before, where it is
/// certain under each.
#[cycle(certain)]
fn count<'a>(
    s: Known<'a>,
    bounds: &'a [Bound],
    formula: &'a Formula,
    env: &'a Env<'a>,
    before: Option<u64>,
) -> Option<u64>
    requires { AllByRecursion (λ a. CertaintyFits (known_in s) (formula_view formula.now) (env_view env.now ++ a))
        (choices s.domains.now bounds.now) }
    ensures { result ≡ fold (λ n a. tallied n (certain_truth (known_in s.entry) (formula_view formula.now)
        (env_view env.now ++ a))) before (choices s.entry.domains.now bounds.now) }
{
    if bounds.is_empty() {
        return tally(before, certain(s, formula, env));
    }
    let (block, others) = split_in(s.domains, bounds);
    let mut total = before;
    for number in 0..block.count {
        if total.is_none() {
            return None;
        }
        total = count(s, others, formula, &extend(env, block, number), total);
    }
    total
}

/// The aggregate over the assignments of the variables, from what it was before, where it is known.
#[cycle(certain)]
fn aggregate<'a>(
    s: Known<'a>,
    kind: AggKind,
    bounds: &'a [Bound],
    formula: &'a Formula,
    weight: &'a Term,
    env: &'a Env<'a>,
    before: Option<Total>,
) -> Option<Total>
    requires each { AllByRecursion (λ a. CertaintyFits (known_in s) (formula_view formula.now) (env_view env.now ++ a)
        × ValueFits (known_in s) (term_view weight.now) (env_view env.now ++ a)) (choices s.domains.now bounds.now) }
    requires sums { GatheredFits kind (λ a. certain_truth (known_in s) (formula_view formula.now)
        (env_view env.now ++ a)) (λ a. option_map as_number (known_value (known_in s) (term_view weight.now)
        (env_view env.now ++ a))) (total_of before) (choices s.domains.now bounds.now) }
    ensures { total_of result ≡ fold (λ d a. gathered kind d (certain_truth (known_in s.entry)
        (formula_view formula.now) (env_view env.now ++ a)) (option_map as_number
        (known_value (known_in s.entry) (term_view weight.now) (env_view env.now ++ a)))) (total_of before)
        (choices s.entry.domains.now bounds.now) }
{
    if bounds.is_empty() {
        return match certain(s, formula, env) {
            Truth::Yes => gather(kind, before, Truth::Yes, weight_of(known(s, weight, env))),
            condition => gather(kind, before, condition, None),
        };
    }
    let (block, others) = split_in(s.domains, bounds);
    let mut total = before;
    for number in 0..block.count {
        if total.is_none() {
            return None;
        }
        let inner = extend(env, block, number);
        total = aggregate(s, kind, others, formula, weight, &inner, total);
    }
    total
}

/// As `kleene`.
fn certainty<'a>(s: Known<'a>, formula: &'a Formula, env: &'a [Elem]) -> Truth
    requires { CertaintyFits (known_in s) (formula_view formula.now) env.now }
    ensures { result ≡ certain_truth (known_in s.entry) (formula_view formula.now) env.now }
{
    certain(s, formula, &Env::Given(env))
}

/// What is certain of the formula, whose free variables have the elements of `env`.
pub fn kleene<'a>(s: &'a Partial, f: &'a Formula, env: &'a [Elem]) -> Truth
    requires { CertaintyFits s.now (formula_view f.now) env.now }
    ensures { result ≡ certain_truth s.now (formula_view f.now) env.now }
{
    certainty(s.lent(), f, env)
}

/// As `kleene`, under an environment.
pub fn certain_formula<'a>(s: &'a Partial, f: &'a Formula, env: &'a Env<'a>) -> Truth
    requires { CertaintyFits s.now (formula_view f.now) (env_view env.now) }
    ensures { result ≡ certain_truth s.now (formula_view f.now) (env_view env.now) }
{
    certain(s.lent(), f, env)
}

/// The value of the term, whose free variables have the elements of `env`, where it is known. It is `Nothing` where the
/// term is not well typed.
pub fn known_term<'a>(s: &'a Partial, t: &'a Term, env: &'a Env<'a>) -> Option<Value<'a>>
    requires { ValueFits s.now (term_view t.now) (env_view env.now) }
    ensures { option_map value_view result ≡ known_value s.now (term_view t.now) (env_view env.now) }
{
    known(s.lent(), t, env)
}
