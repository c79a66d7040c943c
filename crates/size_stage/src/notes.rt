//! What the stage of sizes refuses.
ghost use Rattle.std.specs.Prelude.{◌≡◌, ◌&&◌, not, nat_lt, map, fold, zip, flat_map, [], IfOk, OnOk};
ghost use Rattle.kb_logic.specs.Views.{term_view};
ghost use Rattle.size_stage.specs.Notes.{wide_noted};
ghost use Rattle.size_stage.specs.Ranges.{range_view, ranges_in, wide_at};
ghost use Rattle.stage_definitions.specs.Sizes.{term_bounds};
ghost use Rattle.stage_definitions.specs.SizesStage.{
  atom_limit,
  chosen_of,
  size_noted,
  term_use,
  uses_of_block,
  uses_of_symbols,
  uses_of_theory,
  weight_uses,
};
ghost use Rattle.type_derivation.specs.TypedViews.{named_term_view, typed_view};

use crate::bounds::term;
use crate::capped::plus;
use crate::domains::Domains;
use crate::ranges::Range;
use crate::setting::Setting;
use crate::theory_bounds::wide_in_theory;
use crate::weights::{atoms_of, weight};
use kb_logic::{Memory, Symbol, Term};
use kb_text::K;
use stage_definitions::Earliest;
use std::alloc::Global;
use type_derivation::{Named, TypedKb};

/// The most ground atoms.
const ATOM_LIMIT: u64 = 2_000_000;

/// The greatest weight.
const WEIGHT_LIMIT: u64 = 64_000_000;

fn passes_limit(before: u64, after: u64) -> bool
    ensures { result ≡ (not (nat_lt atom_limit before) && nat_lt atom_limit after) }
{
    !(ATOM_LIMIT < before) && ATOM_LIMIT < after
}

/// Notes each declaration that brings the ground atoms above their limit.
pub fn note_symbols(
    earliest: &mut Earliest,
    places: &[usize],
    domains: &Domains<'_, '_>,
    symbols: &[Symbol],
)
    ensures { earliest.new.first ≡ fold size_noted earliest.old.first (uses_of_symbols domains.now 0 (zip places.now
        symbols.now)) }
{
    let mut before = 0u64;
    for i in 0..symbols.len() {
        if i >= places.len() {
            return;
        }
        let after = plus(before, atoms_of(domains, &symbols[i]));
        earliest.note_if(passes_limit(before, after), K::TooLarge, places[i]);
        before = after;
    }
}

/// Notes each term whose bounds are too wide, at its place.
fn note_terms(earliest: &mut Earliest, places: &[usize], wide: &[bool])
    ensures { earliest.new.first ≡ fold wide_noted earliest.old.first (zip places.now wide.now) }
{
    for i in 0..places.len() {
        if i >= wide.len() {
            return;
        }
        earliest.note_if(wide[i], K::OutOfRange, places[i]);
    }
}

/// Which terms of a term have bounds that are too wide.
fn wide_in_term(alloc: Global, setting: Setting<'_>, of: &Term) -> Result<Vec<bool>, Memory>
    requires known { map range_view setting.ranges.now ≡ ranges_in setting.domains.now }
    ensures { IfOk result (λ w. w.items ≡ wide_at (term_bounds setting.entry.vocab.now setting.entry.domains.now
        (term_view of.now) [])) }
{
    let mut scope = Vec::new(alloc);
    let mut wide = Vec::new(alloc);
    term(setting, &mut scope, &mut wide, of)?;
    Ok(wide)
}

/// Notes each term of the theory with this number, where there is one.
pub fn note_theory(
    alloc: Global,
    kb: &TypedKb,
    theory: usize,
    domains: &Domains<'_, '_>,
    ranges: &[Range],
    earliest: &mut Earliest,
) -> Result<(), Memory>
    requires known { map range_view ranges.now ≡ ranges_in domains.now }
    ensures { OnOk result (earliest.new.first ≡ fold size_noted earliest.old.first (flat_map (uses_of_theory (typed_view
        kb.now).vocabulary domains.now) (chosen_of (typed_view kb.now).theories (typed_view
        kb.now).places.theory_terms theory))) }
{
    let Some(named) = kb.theories.get(theory) else {
        return Ok(());
    };
    let Some(places) = kb.places.theory_terms.get(theory) else {
        return Ok(());
    };
    let setting = Setting {
        vocab: &kb.vocab,
        domains,
        ranges,
    };
    let wide = wide_in_theory(alloc, setting, &named.value)?;
    note_terms(earliest, places.as_slice(), &wide);
    Ok(())
}

/// Notes each term of a term block.
fn note_block(
    alloc: Global,
    setting: Setting<'_>,
    block: &Named<Term>,
    places: &[usize],
    earliest: &mut Earliest,
) -> Result<(), Memory>
    requires known { map range_view setting.ranges.now ≡ ranges_in setting.domains.now }
    ensures { OnOk result (earliest.new.first ≡ fold size_noted earliest.old.first
        (uses_of_block setting.entry.vocab.now setting.entry.domains.now (named_term_view block.now, places.now))) }
{
    let wide = wide_in_term(alloc, setting, &block.value)?;
    note_terms(earliest, places, &wide);
    Ok(())
}

/// Notes each term of the term blocks.
pub fn note_blocks<'a>(
    alloc: Global,
    kb: &'a TypedKb,
    domains: &'a Domains<'a, 'a>,
    ranges: &'a [Range],
    earliest: &mut Earliest,
) -> Result<(), Memory>
    requires known { map range_view ranges.now ≡ ranges_in domains.now }
    ensures { OnOk result (earliest.new.first ≡ fold size_noted earliest.old.first (flat_map (uses_of_block (typed_view
        kb.now).vocabulary domains.now) (zip (typed_view kb.now).terms (typed_view kb.now).places.block_terms))) }
{
    let blocks = kb.terms.as_slice();
    let places = kb.places.block_terms.as_slice();
    for i in 0..blocks.len() {
        if i >= places.len() {
            return Ok(());
        }
        let setting = Setting {
            vocab: &kb.vocab,
            domains,
            ranges,
        };
        note_block(alloc, setting, &blocks[i], places[i].as_slice(), earliest)?;
    }
    Ok(())
}

/// Notes the weight of the theory with this number, where there is one.
pub fn note_weight(kb: &TypedKb, theory: usize, domains: &Domains<'_, '_>, earliest: &mut Earliest)
    ensures { earliest.new.first ≡ fold size_noted earliest.old.first (flat_map (weight_uses (typed_view kb.now)
        domains.now) (chosen_of (typed_view kb.now).theories (typed_view kb.now).places.theories theory)) }
{
    let Some(named) = kb.theories.get(theory) else {
        return;
    };
    let Some(place) = kb.places.theories.get(theory) else {
        return;
    };
    let weight = weight(&kb.vocab, domains, &named.value, kb.terms.as_slice());
    earliest.note_if(WEIGHT_LIMIT < weight, K::TooLarge, *place);
}
