//! How many tuples and ground atoms there are, and the variables of the symbols' first atoms.
ghost use Rattle.std.specs.Prelude.{◌≡◌, ◌<◌, ◌*◌, ◌+◌, ◌^◌, length, sum_by, IfOk};
ghost use Rattle.kb_logic.specs.Structures.{tuples_of};
ghost use Rattle.kb_logic.specs.Weights.{value_count};
ghost use Rattle.term_values.specs.GroundBases.{atoms_in};
ghost use Rattle.term_values.specs.VariableTables.{capped, first_vars};

use kb_logic::values::domain_in;
use kb_logic::{ElemList, Memory, Symbol};
use std::alloc::Global;

// A product that stops at the greatest number is 0 all the same where a later factor is.
/// How many tuples of elements of these types there are.
pub(crate) fn count_tuples(domains: &[ElemList], types: &[u32]) -> u64
    ensures { result ≡ capped (length (tuples_of domains.now types.now)) }
{
    let mut count = 1u64;
    for ty in types {
        count = count.saturating_mul(domain_in(domains, *ty).len() as u64);
    }
    count
}

/// How many values the atoms of a symbol may have: one for a predicate.
fn count_values(domains: &[ElemList], value: Option<u32>) -> u64
    ensures { result ≡ value_count domains.now value }
{
    match value {
        Some(ty) => domain_in(domains, ty).len() as u64,
        None => 1,
    }
}

/// How many ground atoms a symbol has.
fn count_atoms(domains: &[ElemList], symbol: &Symbol) -> u64
    ensures { result ≡ capped (atoms_in domains.now symbol.now) }
{
    let tuples = count_tuples(domains, symbol.args.as_slice());
    tuples.saturating_mul(count_values(domains, symbol.value))
}

/// The variable of each symbol's first atom. Out of memory, too, where there are 2^63 atoms and more.
pub(crate) fn all_first_vars(
    alloc: Global,
    domains: &[ElemList],
    symbols: &[Symbol],
) -> Result<Vec<u64>, Memory>
    ensures firsts { IfOk result (λ vars. vars.items ≡ first_vars domains.now symbols.now (length symbols.now)) }
    ensures few { IfOk result (λ vars. sum_by (atoms_in domains.now) symbols.now < 2 ^ 63) }
{
    let mut vars = Vec::new(alloc);
    let mut next = 1u64;
    for symbol in symbols {
        vars.push(next)?;
        match next.checked_add(count_atoms(domains, symbol)) {
            Some(sum) => next = sum,
            None => return Err(Memory),
        }
    }
    if next > 1 << 63 {
        return Err(Memory);
    }
    Ok(vars)
}
