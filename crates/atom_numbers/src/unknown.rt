//! The atoms that data leave unknown.
ghost use Rattle.std.specs.Prelude.{◌≡◌, map, IfOk};
ghost use Rattle.kb_logic.specs.KnownAtoms.{atoms_over};
ghost use Rattle.kb_logic.specs.declared.vocabularies.Vocabulary.{Vocabulary};
ghost use Rattle.partial_structures.specs.KnownAtoms.{value_at};
ghost use Rattle.atom_numbers.specs.Numbers.{bare_base};
ghost use Rattle.atom_numbers.specs.Unknown.{is_unknown, open_from, AreOpen};

use kb_logic::Memory;
use lit_core::{Lit, Var};
use partial_structures::{Partial, Truth};
use std::alloc::Global;

/// What is known of each atom. The symbols are numbered by a `u32`, so that more of them count as out of memory.
fn all_truths(alloc: Global, partial: &Partial) -> Result<Vec<Truth>, Memory>
    ensures { IfOk result (λ truths. truths.items ≡ map (value_at partial.now)
        (atoms_over partial.now.symbols partial.now.domains)) }
{
    let count = partial.symbols().len();
    let mut truths = Vec::new(alloc);
    if count > u32::MAX as usize {
        return Err(Memory);
    }
    for number in 0..count {
        partial.push_values(number as u32, &mut truths)?;
    }
    Ok(truths)
}

fn is_uncertain(truth: Truth) -> bool
    ensures { result ≡ is_unknown truth }
{
    match truth {
        Truth::Yes => false,
        Truth::No => false,
        Truth::Unknown => true,
    }
}

/// The literals of the variables of the unknown among these truths of all atoms.
fn open_among(alloc: Global, truths: &[Truth]) -> Result<Vec<Lit>, Memory>
    ensures { IfOk result (λ lits. lits.items ≡ open_from 1 truths.now) }
{
    let mut lits = Vec::new(alloc);
    for k in 0..truths.len() {
        if !is_uncertain(truths[k]) {
            continue;
        }
        lits.push(Lit {
            var: Var(k as u64 + 1),
            positive: true,
        })?;
    }
    Ok(lits)
}

/// The literals of the variables of the atoms that the data leave unknown, each affirmed, in their order. It takes
/// time and memory linear in the number of atoms.
pub fn open_literals(alloc: Global, partial: &Partial) -> Result<Vec<Lit>, Memory>
    ensures { IfOk result (λ lits. (v : Vocabulary) → v.symbols ≡ partial.now.symbols
        → AreOpen (bare_base v partial.now.domains) partial.now lits.items) }
{
    let truths = all_truths(alloc, partial)?;
    open_among(alloc, truths.as_slice())
}
