//! Lists that entries are made of.
ghost use Rattle.std.specs.Prelude.{◌≡◌, ◌<◌, ℕ, length, map, slice_index_or, IfOk, OnOk, OnErr};
ghost use Rattle.lit_core.specs.Literals.{negated};

use ground_core::{LitList, Memory};
use lit_core::Lit;
use std::alloc::Global;

/// The number at a place, and 0 past the end.
pub fn number_at(numbers: &[u64], place: usize) -> u64
    ensures { result ≡ slice_index_or numbers.now place 0 }
{
    match numbers.get(place) {
        Some(number) => *number,
        None => 0,
    }
}

/// Makes room for a number at the place, with zeros before it.
pub fn make_place(numbers: &mut Vec<u64>, place: usize) -> Result<(), Memory>
    ensures within { OnOk result (place < length numbers.new.items) }
    ensures same { (k : ℕ) → slice_index_or numbers.new.items k 0 ≡ slice_index_or numbers.old.items k 0 }
{
    if place >= numbers.len() {
        let Some(len) = place.checked_add(1) else {
            return Err(Memory);
        };
        numbers.resize(len, 0)?;
    }
    Ok(())
}

/// A copy of the literals.
pub fn copied(alloc: Global, lits: &[Lit]) -> Result<LitList, Memory>
    ensures { IfOk result (λ copy. copy ≡ lits.now) }
{
    Ok(LitList::from_vec(Vec::from_slice(alloc, lits)?))
}

/// The negations of the literals.
pub fn negations(alloc: Global, lits: &[Lit]) -> Result<LitList, Memory>
    ensures { IfOk result (λ list. list ≡ map negated lits.now) }
{
    let mut list = LitList::new(alloc);
    for lit in lits {
        list.push(lit.negated())?;
    }
    Ok(list)
}
