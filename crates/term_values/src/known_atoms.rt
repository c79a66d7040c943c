//! What is known of each ground atom, in their order.
ghost use Rattle.std.specs.Prelude.{◌≡◌, ◌++◌, map, IfOk, OnOk};
ghost use Rattle.kb_logic.specs.KnownAtoms.{atoms_over};
ghost use Rattle.partial_structures.specs.KnownAtoms.{atoms_of, value_at};
ghost use Rattle.term_values.specs.KnownBases.{known_truth};

use kb_logic::Memory;
use partial_structures::{Partial, Truth};
use std::alloc::Global;

/// The truth, where it is certain.
fn certain(truth: Truth) -> Option<bool>
    ensures { result ≡ known_truth truth }
{
    match truth {
        Truth::Yes => Some(true),
        Truth::No => Some(false),
        Truth::Unknown => None,
    }
}

/// Pushes each of the truths, where it is certain.
fn push_truths(truths: &[Truth], known: &mut Vec<Option<bool>>) -> Result<(), Memory>
    ensures { OnOk result (known.new.items ≡ known.old.items ++ map known_truth truths.now) }
{
    for truth in truths {
        known.push(certain(*truth))?;
    }
    Ok(())
}

/// Pushes what is known of a symbol's atoms.
fn push_symbol(
    alloc: Global,
    partial: &Partial,
    symbol: u32,
    known: &mut Vec<Option<bool>>,
) -> Result<(), Memory>
    ensures { OnOk result (known.new.items ≡ known.old.items ++ map (λ a. known_truth (value_at partial.now a))
        (atoms_of partial.now symbol)) }
{
    let mut truths = Vec::new(alloc);
    partial.push_values(symbol, &mut truths)?;
    push_truths(truths.as_slice(), known)
}

/// What is known of each ground atom. The symbols are numbered by a `u32`, so that more of them count as out of memory.
pub(crate) fn all_known(alloc: Global, partial: &Partial) -> Result<Vec<Option<bool>>, Memory>
    ensures { IfOk result (λ known. known.items ≡ map (λ a. known_truth (value_at partial.now a))
        (atoms_over partial.now.symbols partial.now.domains)) }
{
    let count = partial.symbols().len();
    let mut known = Vec::new(alloc);
    if count > u32::MAX as usize {
        return Err(Memory);
    }
    for number in 0..count {
        push_symbol(alloc, partial, number as u32, &mut known)?;
    }
    Ok(known)
}
