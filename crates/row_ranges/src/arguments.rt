//! The constants among an atom's arguments.
ghost use Rattle.std.specs.Prelude.{◌≡◌, [], map, unwrap_or, IfSome};
ghost use Rattle.kb_logic.specs.Trees.{terms_of};
ghost use Rattle.kb_logic.specs.Values.{value_view};
ghost use Rattle.kb_logic.specs.Views.{term_view};
ghost use Rattle.term_values.specs.DomainIndexes.{elem_index};
ghost use Rattle.row_ranges.specs.Arguments.{argument_value};
ghost use Rattle.row_ranges.specs.Keys.{argument_place, key_under};

use kb_logic::values::{Value, domain_in, elem_value, made_value, same};
use kb_logic::{Elem, ElemList, Term};

/// The place of a value in a domain; 0 where it is not there.
fn place_in(domain: &[Elem], value: Value<'_>) -> u64
    ensures { result ≡ unwrap_or (elem_index domain.now (value_view value.entry)) 0 }
{
    for place in 0..domain.len() {
        if same(elem_value(&domain[place]), value) {
            return place as u64;
        }
    }
    0
}

/// The value of a constant; none for any other term.
fn constant_value<'a>(domains: &'a [ElemList], term: &Term) -> Value<'a>
    ensures { value_view result ≡ argument_value domains.now (term_view term.now) [] }
{
    match term {
        Term::Int(n) => Value::Num(*n),
        Term::Made(ty, n) => made_value(domains, *ty, *n),
        Term::Var(_) => Value::Nothing,
        Term::Apply(..) => Value::Nothing,
        Term::Sum(_) => Value::Nothing,
        Term::Product(_) => Value::Nothing,
        Term::Agg(..) => Value::Nothing,
    }
}

/// The place of a constant in the domain of a type; 0 for any other term.
fn constant_place(domains: &[ElemList], ty: u32, term: &Term) -> u64
    ensures { result ≡ argument_place domains.now ty (term_view term.now) [] }
{
    place_in(domain_in(domains, ty), constant_value(domains, term))
}

/// The key that the constants among the arguments come to. There is none where it leaves 64 bits.
pub(crate) fn constant_key(
    domains: &[ElemList],
    types: &[u32],
    own: &[u64],
    args: &[Term],
) -> Option<u64>
    ensures { IfSome result (λ k. k ≡ key_under domains.now types.now own.now (terms_of (map term_view args.now)) []) }
{
    let Some((ty, types)) = types.split_first() else {
        return Some(0);
    };
    let Some((step, own)) = own.split_first() else {
        return Some(0);
    };
    let Some((arg, args)) = args.split_first() else {
        return Some(0);
    };
    let Some(rest) = constant_key(domains, types, own, args) else {
        return None;
    };
    match constant_place(domains, *ty, arg).checked_mul(*step) {
        Some(first) => first.checked_add(rest),
        None => None,
    }
}
