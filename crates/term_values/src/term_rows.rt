//! The rows of terms.
//!
//! A product of rows is made from its last factor to its first one, so that each step puts a value before the values
//! that are there, as the definition does. What a term without unknown applications needs lies on the stack.
ghost use Rattle.std.specs.Prelude.{◌≡◌, ◌<◌, ◌≤◌, ◌+◌, ◌++◌, ◌∷◌, ◌^◌, [], drop, length, map, OnOk};
ghost use Rattle.std.specs.List.{flat_map, AllByRecursion};
ghost use Rattle.plain_evaluation.specs.Environments.{env_view};
ghost use Rattle.kb_logic.specs.Meaning.{number_value};
ghost use Rattle.kb_logic.specs.Trees.{terms_of, summands_of};
ghost use Rattle.kb_logic.specs.Values.{value_view};
ghost use Rattle.kb_logic.specs.Views.{term_view, signed_view};
ghost use Rattle.term_values.specs.GroundBases.{known_of, row_index, tuples_at};
ghost use Rattle.term_values.specs.RowArithmetic.{RowsFit, RowSumFits, TupleRowsFit, OperandRowsFit};
ghost use Rattle.term_values.specs.Rows.{map_rows, rows_at, rows_of_term, rows_of_terms, rows_of_sum, pair_rows};
ghost use Rattle.term_values.specs.Rows.{value_rows, with_row};
ghost use Rattle.term_values.specs.RowSums.{operands_of};
ghost use Rattle.term_values.specs.RowValues.{row_value};

use crate::ground_data::GroundData;
use crate::plain_terms::push_plain;
use crate::row_lists::{push_pairs, push_products, push_sums};
use crate::rows::{RowValue, Rows, TupleRows};
use kb_logic::values::{Value, elem_value, made_value};
use kb_logic::{Elem, Memory, Signed, Term};
use lit_core::{Lit, Var};
use plain_evaluation::environments::{Env, variable_value};
use smallvec::SmallVec;
use std::alloc::Global;

/// Pushes the row of a value that a function may have, unless it is known to have another.
fn push_value<'a>(
    base: &GroundData<'a>,
    guards: &[Lit],
    var: u64,
    value: Value<'a>,
    out: &mut Rows<'a>,
) -> Result<(), Memory>
    ensures { OnOk result (out.new ≡ out.old ++ with_row (known_of base.now var) var guards.now
        (value_view value.entry) []) }
{
    match base.known(var) {
        None => {
            let lit = Lit {
                var: Var(var),
                positive: true,
            };
            out.push(guards, &[lit], value)
        }
        Some(true) => out.push(guards, &[], value),
        Some(false) => Ok(()),
    }
}

/// Pushes a row for each of these values, the first of which has the variable `first`.
fn push_values<'a>(
    base: &GroundData<'a>,
    guards: &[Lit],
    first: u64,
    values: &'a [Elem],
    out: &mut Rows<'a>,
) -> Result<(), Memory>
    requires { first + length values.now ≤ 2 ^ 63 }
    ensures { OnOk result (out.new ≡ out.old ++ value_rows base.now guards.now first values.now) }
{
    for place in 0..values.len() {
        let value = elem_value(&values[place]);
        push_value(base, guards, first + place as u64, value, out)?;
    }
    Ok(())
}

/// Pushes the rows of a function at these arguments.
fn push_at<'a>(
    base: &GroundData<'a>,
    symbol: u32,
    guards: &[Lit],
    args: &[RowValue<'a>],
    out: &mut Rows<'a>,
) -> Result<(), Memory>
    ensures { OnOk result (out.new ≡ out.old ++ rows_at base.now symbol guards.now
        (row_index (tuples_at base.now symbol) (map row_value args.now))) }
{
    let values = base.values(symbol);
    if values.is_empty() {
        return match base.place_of(symbol, args) {
            None => out.push(guards, &[], Value::Nothing),
            Some(_) => Ok(()),
        };
    }
    match base.value_variable_at(symbol, args) {
        None => out.push(guards, &[], Value::Nothing),
        Some(first) => push_values(base, guards, first, values, out),
    }
}

/// Pushes the rows of a function at each row of its arguments.
fn push_applied<'a>(
    base: &GroundData<'a>,
    symbol: u32,
    tuples: &TupleRows<'a>,
    out: &mut Rows<'a>,
) -> Result<(), Memory>
    ensures { OnOk result (out.new
        ≡ out.old ++ flat_map (λ t. rows_at base.now symbol t.0 (row_index (tuples_at base.now symbol) t.1))
        tuples.now) }
{
    for row in 0..tuples.len() {
        push_at(base, symbol, tuples.guards(row), tuples.values(row), out)?;
    }
    Ok(())
}

/// Pushes the rows of a term.
#[cycle(rows)]
pub(crate) fn push_term<'a>(
    alloc: Global,
    base: &GroundData<'a>,
    term: &Term,
    env: &Env<'a>,
    out: &mut Rows<'a>,
) -> Result<(), Memory>
    requires { RowsFit base.now (term_view term.now) (env_view env.now) }
    ensures { OnOk result (out.new ≡ out.old ++ rows_of_term base.now (term_view term.now) (env_view env.now)) }
{
    match term {
        Term::Var(n) => out.push(&[], &[], variable_value(env, *n as usize)),
        Term::Int(n) => out.push(&[], &[], Value::Num(*n)),
        Term::Made(ty, n) => out.push(&[], &[], made_value(base.domains(), *ty, *n)),
        Term::Apply(symbol, args) => {
            let mut tuples = TupleRows::new(alloc);
            put_terms(alloc, base, args, env, &mut tuples)?;
            push_applied(base, *symbol, &tuples, out)
        }
        Term::Sum(parts) => push_sum(alloc, base, parts, env, out),
        Term::Product(factors) => {
            let mut tuples = TupleRows::new(alloc);
            put_terms(alloc, base, factors, env, &mut tuples)?;
            push_products(&tuples, out)
        }
        Term::Agg(..) => out.push(&[], &[], Value::Num(0)),
    }
}

/// Pushes the rows of a sum.
#[cycle(rows)]
fn push_sum<'a>(
    alloc: Global,
    base: &GroundData<'a>,
    parts: &[Signed],
    env: &Env<'a>,
    out: &mut Rows<'a>,
) -> Result<(), Memory>
    requires sums { AllByRecursion RowSumFits
        (rows_of_sum base.now (summands_of (map signed_view parts.now)) (env_view env.now)) }
    requires operands { OperandRowsFit base.now (summands_of (map signed_view parts.now)) (env_view env.now) }
    ensures { OnOk result (out.new ≡ out.old ++ map_rows number_value
        (rows_of_sum base.now (summands_of (map signed_view parts.now)) (env_view env.now))) }
{
    let mut tuples = TupleRows::new(alloc);
    put_operands(alloc, base, parts, env, &mut tuples)?;
    push_sums(parts, &tuples, out)
}

/// Puts each value of a term before the values of each row.
#[cycle(rows)]
fn put_before<'a>(
    alloc: Global,
    base: &GroundData<'a>,
    term: &Term,
    env: &Env<'a>,
    out: &mut TupleRows<'a>,
) -> Result<(), Memory>
    requires { RowsFit base.now (term_view term.now) (env_view env.now) }
    ensures { OnOk result (out.new ≡ pair_rows (λ x xs. x ∷ xs)
        (rows_of_term base.now (term_view term.now) (env_view env.now)) out.old) }
{
    let mut rows = Rows::new(alloc);
    push_term(alloc, base, term, env, &mut rows)?;
    let mut longer = TupleRows::with_room(alloc, rows.len().saturating_mul(out.len()))?;
    push_pairs(&rows, out, &mut longer)?;
    *out = longer;
    Ok(())
}

/// The rows of a list of terms, in place of what is there.
#[cycle(rows)]
#[tactic(auto, using(crate::proofs::TermRowLemmas::fit_at))]
pub(crate) fn put_terms<'a>(
    alloc: Global,
    base: &GroundData<'a>,
    terms: &[Term],
    env: &Env<'a>,
    out: &mut TupleRows<'a>,
) -> Result<(), Memory>
    requires { TupleRowsFit base.now (terms_of (map term_view terms.now)) (env_view env.now) }
    ensures { OnOk result (out.new ≡ rows_of_terms base.now (terms_of (map term_view terms.now)) (env_view env.now)) }
{
    let mut values = SmallVec::new(alloc);
    if push_plain(base, terms, env, &mut values)? {
        *out = TupleRows::single(alloc, values.as_slice())?;
        return Ok(());
    }
    *out = TupleRows::unit(alloc)?;
    let mut left = terms.len();
    while left > 0 {
        left -= 1;
        prove!(left < terms.len());
        put_before(alloc, base, &terms[left], env, out)?;
    }
    Ok(())
}

/// The rows of the terms of a sum, in the same way.
#[cycle(rows)]
#[tactic(auto, using(crate::proofs::TermRowLemmas::operand_fit_at))]
fn put_operands<'a>(
    alloc: Global,
    base: &GroundData<'a>,
    parts: &[Signed],
    env: &Env<'a>,
    out: &mut TupleRows<'a>,
) -> Result<(), Memory>
    requires { OperandRowsFit base.now (summands_of (map signed_view parts.now)) (env_view env.now) }
    ensures { OnOk result (out.new ≡ rows_of_terms base.now (operands_of (map signed_view parts.now))
        (env_view env.now)) }
{
    *out = TupleRows::unit(alloc)?;
    let mut left = parts.len();
    while left > 0 {
        left -= 1;
        prove!(left < parts.len());
        put_before(alloc, base, &parts[left].term, env, out)?;
    }
    Ok(())
}
