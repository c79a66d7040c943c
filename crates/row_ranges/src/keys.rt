//! The keys of rows.
ghost use Rattle.std.specs.Prelude.{ℕ, ◌≡◌, ◌<◌, ◌≤◌, length, map, slice_get, Contains, IfOk, IfSome, MatchOption};
ghost use Rattle.std.specs.List.Sorted.{IsNonDecreasing};
ghost use Rattle.kb_logic.specs.Structures.{tuples_of};
ghost use Rattle.row_ranges.specs.Keys.{key_of};

use kb_logic::values::domain_in;
use kb_logic::{ElemList, Memory};
use std::alloc::Global;

// The index of a row is a number with a digit for each argument, in the base of its domain's size.
/// The key of the row with this index, of so many tuples of these types. There is none where it leaves 64 bits.
fn key_of(domains: &[ElemList], types: &[u32], own: &[u64], count: u64, row: u64) -> Option<u64>
    requires { count ≡ length (tuples_of domains.now types.now) }
    ensures { IfSome result (λ k. k ≡ key_of domains.now types.now own.now row) }
{
    let Some((ty, types)) = types.split_first() else {
        return Some(0);
    };
    let Some((step, own)) = own.split_first() else {
        return Some(0);
    };
    let size = domain_in(domains, *ty).len() as u64;
    if size == 0 || count < size {
        return None;
    }
    let below = count / size;
    let Some(rest) = key_of(domains, types, own, below, row % below) else {
        return None;
    };
    match (row / below).checked_mul(*step) {
        Some(first) => first.checked_add(rest),
        None => None,
    }
}

/// The keys of the rows, in the order of the rows.
fn row_keys(
    alloc: Global,
    domains: &[ElemList],
    types: &[u32],
    own: &[u64],
    count: u64,
    rows: &[u64],
) -> Result<Option<Vec<u64>>, Memory>
    requires { count ≡ length (tuples_of domains.now types.now) }
    ensures { IfOk result (λ o. IfSome o (λ ks. ks.items ≡ map (key_of domains.now types.now own.now) rows.now)) }
{
    let mut keys = Vec::with_capacity(alloc, rows.len())?;
    for row in rows {
        let Some(key) = key_of(domains, types, own, count, *row) else {
            return Ok(None);
        };
        keys.push(key)?;
    }
    Ok(Some(keys))
}

/// The keys of the rows, rising. There are none where one leaves 64 bits.
pub(crate) fn sorted_keys(
    alloc: Global,
    domains: &[ElemList],
    types: &[u32],
    own: &[u64],
    count: u64,
    rows: &[u64],
) -> Result<Option<Vec<u64>>, Memory>
    requires { count ≡ length (tuples_of domains.now types.now) }
    ensures keys { IfOk result (λ o. IfSome o
        (λ ks. (i : ℕ) → Contains rows.now i → Contains ks.items (key_of domains.now types.now own.now i))) }
    ensures rising { IfOk result (λ o. IfSome o (λ ks. IsNonDecreasing ks.items)) }
{
    let Some(mut keys) = row_keys(alloc, domains, types, own, count, rows)? else {
        return Ok(None);
    };
    keys.sort()?;
    Ok(Some(keys))
}

fn key_at(keys: &[u64], at: usize) -> Option<u64>
    ensures { result ≡ slice_get keys.now at }
{
    keys.get(at).copied()
}

/// The least key that is not below a number.
pub(crate) fn least_from(keys: &[u64], from: u64) -> Option<u64>
    requires { IsNonDecreasing keys.now }
    ensures { MatchOption result ((j : ℕ) → Contains keys.now j → j < from)
        (λ k. (from ≤ k) × ((j : ℕ) → Contains keys.now j → from ≤ j → k ≤ j)) }
{
    let at = keys.partition_point(|key| *key < from);
    key_at(keys, at)
}
