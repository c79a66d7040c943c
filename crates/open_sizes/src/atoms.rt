//! How many atoms are unknown.
ghost use Rattle.std.specs.Prelude.{◌≡◌, ◌≤◌, ◌^◌, IfOk, List, Some, length, slice_get, sum_by};
ghost use Rattle.kb_logic.specs.Denotations.{Denotation};
ghost use Rattle.partial_structures.specs.Known.{known_in, place_view, spot_of};
ghost use Rattle.stage_definitions.specs.SizesStage.{capped};
ghost use Rattle.quantifier_bounds.specs.Steps.{unknown_atoms};
ghost use Rattle.open_sizes.specs.Atoms.{open_in_symbol, open_in_tuples, open_in_values};
ghost use Rattle.open_sizes.specs.OpenWeights.{where_open};

use crate::connectives::is_open;
use kb_logic::values::{domain_in, elem_value};
use kb_logic::{Memory, Symbol};
use partial_structures::lookups::{atom_truth, next, start, value_truth};
use partial_structures::{Known, Partial, Place, Truth};
use size_stage::capped::plus;
use std::alloc::Global;

fn one_if_open(truth: Truth) -> u64
    ensures { result ≡ where_open truth 1 }
{
    if is_open(truth) { 1 } else { 0 }
}

/// How many atoms are unknown at the arguments that lead here: a predicate's one, or those of a function's values.
fn values<'a>(s: Known<'a>, symbol: u32, place: Place<'a>, value: Option<u32>) -> u64
    ensures { (vs : List Denotation) → place_view place.entry ≡ spot_of s.entry symbol vs
        → result ≡ capped (open_in_values (known_in s.entry) symbol value vs) }
{
    let Some(ty) = value else {
        return one_if_open(atom_truth(s, symbol, place));
    };
    let mut count = 0u64;
    for elem in domain_in(s.domains, ty) {
        count = plus(
            count,
            one_if_open(value_truth(s, symbol, place, elem_value(elem))),
        );
    }
    count
}

/// As `values`, at each tuple that goes on with elements of these types.
fn tuples<'a>(
    s: Known<'a>,
    symbol: u32,
    place: Place<'a>,
    types: &'a [u32],
    value: Option<u32>,
) -> u64
    ensures { (vs : List Denotation) → place_view place.entry ≡ spot_of s.entry symbol vs
        → result ≡ capped (open_in_tuples (known_in s.entry) symbol value types.now vs) }
{
    let Some((ty, others)) = types.split_first() else {
        return values(s, symbol, place, value);
    };
    let mut count = 0u64;
    for elem in domain_in(s.domains, *ty) {
        let further = next(s, place, elem_value(elem));
        count = plus(count, tuples(s, symbol, further, others, value));
    }
    count
}

/// How many atoms of the symbol are unknown.
fn in_symbol<'a>(s: Known<'a>, symbol: u32, declared: &'a Symbol) -> u64
    requires { slice_get s.symbols.now symbol ≡ Some declared.now }
    ensures { result ≡ capped (open_in_symbol (known_in s.entry) symbol declared.now) }
{
    tuples(
        s,
        symbol,
        start(s, symbol),
        declared.args.as_slice(),
        declared.value,
    )
}

/// As `unknown`, where there is no memory: each atom is looked up.
fn unknown_in(s: Known<'_>) -> u64
    requires { length s.symbols.now ≤ 2 ^ 32 }
    ensures { result ≡ capped (unknown_atoms (known_in s.entry)) }
{
    let mut count = 0u64;
    for at in 0..s.symbols.len() {
        count = plus(count, in_symbol(s, at as u32, &s.symbols[at]));
    }
    count
}

/// How many of these are unknown.
fn unknown_among(truths: &[Truth]) -> u64
    ensures { result ≡ capped (sum_by (λ t. where_open t 1) truths.now) }
{
    let mut count = 0u64;
    for truth in truths {
        count = plus(count, one_if_open(*truth));
    }
    count
}

/// As `unknown`, by a list of what is known of each symbol's atoms: it takes a byte for each of them, and a fifth of the
/// time of a walk that looks each up. Below a prefix that stands in no row nothing is looked up.
fn listed(alloc: Global, known: &Partial) -> Result<u64, Memory>
    requires { length known.now.symbols ≤ 2 ^ 32 }
    ensures { IfOk result (λ n. n ≡ capped (unknown_atoms known.now)) }
{
    let mut truths = Vec::new(alloc);
    let mut count = 0u64;
    for symbol in 0..known.symbols().len() {
        truths.clear();
        known.push_values(symbol as u32, &mut truths)?;
        count = plus(count, unknown_among(truths.as_slice()));
    }
    Ok(count)
}

/// How many atoms are unknown.
pub(crate) fn unknown(alloc: Global, known: &Partial) -> u64
    requires { length known.now.symbols ≤ 2 ^ 32 }
    ensures { result ≡ capped (unknown_atoms known.now) }
{
    match listed(alloc, known) {
        Ok(count) => count,
        Err(_) => unknown_in(known.lent()),
    }
}
