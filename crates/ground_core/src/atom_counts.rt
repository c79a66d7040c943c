//! How many ground atoms there are.
ghost use Rattle.std.specs.Prelude.{◌≡◌, ◌*◌, length, IfSome};
ghost use Rattle.kb_logic.specs.Structures.{tuples_of};
ghost use Rattle.kb_logic.specs.Weights.{value_count};
ghost use Rattle.ground_core.specs.Atoms.{ground_atoms};

use kb_logic::values::domain_in;
use kb_logic::{ElemList, Symbol};

/// How many tuples there are over these types; None where a `usize` cannot count them.
fn count_tuples(domains: &[ElemList], types: &[u32]) -> Option<usize>
    ensures { IfSome result (λ n. n ≡ length (tuples_of domains.now types.now)) }
{
    let mut count = 1usize;
    for ty in types {
        match count.checked_mul(domain_in(domains, *ty).len()) {
            Some(product) => count = product,
            None => return None,
        }
    }
    Some(count)
}

/// How many atoms the symbol has; None where a `usize` cannot count them.
fn count_of_symbol(domains: &[ElemList], symbol: &Symbol) -> Option<usize>
    ensures { IfSome result (λ n. n
        ≡ length (tuples_of domains.now symbol.now.args) * value_count domains.now symbol.now.value) }
{
    let Some(tuples) = count_tuples(domains, symbol.args.as_slice()) else {
        return None;
    };
    match symbol.value {
        None => Some(tuples),
        Some(ty) => tuples.checked_mul(domain_in(domains, ty).len()),
    }
}

/// How many ground atoms there are; None where a `usize` cannot count them.
pub(crate) fn count_atoms(symbols: &[Symbol], domains: &[ElemList]) -> Option<usize>
    ensures { IfSome result (λ n. n ≡ length (ground_atoms symbols.now domains.now)) }
{
    let mut count = 0usize;
    for number in 0..symbols.len() {
        let Some(more) = count_of_symbol(domains, &symbols[number]) else {
            return None;
        };
        let Some(sum) = count.checked_add(more) else {
            return None;
        };
        count = sum;
    }
    Some(count)
}
