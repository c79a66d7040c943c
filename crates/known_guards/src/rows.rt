//! The rows of a table that are not certainly false.
ghost use Rattle.std.specs.Prelude.{◌≡◌, ℕ, Contains, IfOk, IfSome, Some, slice_get, true};
ghost use Rattle.partial_structures.specs.declared.truths.Truth.{Truth};
ghost use Rattle.partial_structures.specs.declared.truths.Truth.TheVariants.{No};
ghost use Rattle.known_guards.specs.Guards.{AreRowsLeft};

use kb_logic::Memory;
use partial_structures::{Partial, Truth};
use std::alloc::Global;

fn is_false(truth: Truth) -> bool
    ensures { result ≡ true → truth ≡ No }
{
    match truth {
        Truth::No => true,
        Truth::Yes => false,
        Truth::Unknown => false,
    }
}

/// The indexes of those that are not false. There are none where they are more than a quarter of all.
fn others(alloc: Global, truths: &[Truth]) -> Result<Option<Vec<u64>>, Memory>
    ensures { IfOk result (λ o. IfSome o (λ rows.
        (i : ℕ) (t : Truth) → slice_get truths.now i ≡ Some t → (Contains rows.items i → ⊥) → t ≡ No)) }
{
    let mut rows = Vec::new(alloc);
    for index in 0..truths.len() {
        if is_false(truths[index]) {
            continue;
        }
        if rows.len() >= truths.len() / 4 {
            return Ok(None);
        }
        rows.push(index as u64)?;
    }
    Ok(Some(rows))
}

/// The indexes of the symbol's atoms that are not certainly false. There are none where they are more than a quarter of
/// all. Each atom is looked at.
pub fn rows_left(alloc: Global, known: &Partial, symbol: u32) -> Result<Option<Vec<u64>>, Memory>
    ensures { IfOk result (λ o. IfSome o (λ rows. AreRowsLeft known.now symbol rows.items)) }
{
    let mut truths = Vec::new(alloc);
    known.push_values(symbol, &mut truths)?;
    others(alloc, &truths)
}
