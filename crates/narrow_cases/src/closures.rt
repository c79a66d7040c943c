//! What a theory fixes, symbol by symbol, and the weight of what it leaves open.
ghost use Rattle.std.specs.Prelude.{◌≡◌, ◌≤◌, ◌<◌, ◌^◌, length};
ghost use Rattle.kb_logic.specs.Bounds.{TheoryIsBounded};
ghost use Rattle.stage_definitions.specs.FileBases.{base_of_file, theory_at};
ghost use Rattle.type_derivation.specs.TypedViews.{typed_view};
ghost use Rattle.def_ground.specs.Groundings.{IsGroundTheory, TermsAreBounded};
ghost use Rattle.open_sizes.specs.Fits.{WeighingFits};
ghost use Rattle.open_sizes.specs.OpenWeights.{terms_in};

use kb_logic::Memory;
use narrowed_bases::theories::{open_weight_at, theory_of};
use open_sizes::laws::small_bases_fit;
use partial_structures::{Partial, Truth};
use quantifier_bounds::BoundFault;
use refinement::refine;
use std::alloc::Global;
use type_derivation::TypedKb;

fn sign(truth: Truth) -> u8 {
    match truth {
        Truth::Yes => b'1',
        Truth::No => b'0',
        Truth::Unknown => b'?',
    }
}

/// Pushes what is known of each of the symbol's atoms.
fn push_atoms(
    alloc: Global,
    known: &Partial,
    symbol: u32,
    out: &mut Vec<u8>,
) -> Result<(), Memory> {
    let mut truths = Vec::new(alloc);
    known.push_values(symbol, &mut truths)?;
    for truth in truths.iter() {
        out.push(sign(*truth))?;
    }
    Ok(())
}

/// Pushes the name of each symbol, with what is known of its atoms: first arguments change slowest, and a function's
/// value fastest.
fn push_symbols(
    alloc: Global,
    kb: &TypedKb,
    known: &Partial,
    out: &mut Vec<u8>,
) -> Result<(), Memory> {
    let mut number: u32 = 0;
    for symbol in kb.vocab.symbols.as_slice() {
        out.extend_from_slice(symbol.name.text())?;
        out.push(b'=')?;
        push_atoms(alloc, known, number, out)?;
        out.push(b' ')?;
        number = number.saturating_add(1);
    }
    Ok(())
}

fn push_number(alloc: Global, number: u64, out: &mut Vec<u8>) -> Result<(), Memory> {
    let text = format!(in alloc; "{number}\n")?;
    out.extend_from_slice(text.as_bytes())
}

/// Pushes what is known, and the weight of what that leaves open.
fn push_closure(
    alloc: Global,
    kb: &TypedKb,
    theory: usize,
    known: &Partial,
    out: &mut Vec<u8>,
) -> Result<(), Memory>
    requires theory { theory < length kb.now.theories }
    requires few { length known.now.symbols ≤ 2 ^ 32 }
    requires fits { WeighingFits known.now (theory_at (typed_view kb.now) theory)
        (terms_in (base_of_file (typed_view kb.now) theory known.now)) }
{
    push_symbols(alloc, kb, known, out)?;
    out.extend_from_slice(b"open ")?;
    push_number(alloc, open_weight_at(alloc, kb, theory, known), out)
}

/// Pushes the line of the theory with this number and these data.
pub fn push_narrowed(
    alloc: Global,
    kb: &TypedKb,
    theory: usize,
    known: &Partial,
    out: &mut Vec<u8>,
) -> Result<(), Memory>
    requires theory { theory < length kb.now.theories }
    requires few { length kb.now.vocab.symbols ≤ 2 ^ 32 }
    requires typed { IsGroundTheory (base_of_file (typed_view kb.now) theory known.now) }
    requires bounded { TheoryIsBounded kb.now.vocab known.now.domains (theory_at (typed_view kb.now) theory) }
    requires asked { TermsAreBounded (base_of_file (typed_view kb.now) theory known.now) }
{
    small_bases_fit();
    match refine(alloc, theory_of(kb, theory), known) {
        Ok(narrowed) => push_closure(alloc, kb, theory, &narrowed, out),
        Err(BoundFault::Contradiction) => out.extend_from_slice(b"contradiction\n"),
        Err(BoundFault::Memory) => Err(Memory),
    }
}
