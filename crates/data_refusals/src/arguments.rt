//! What is noted of integers that are arguments of functions and of heads.
ghost use Rattle.std.specs.Prelude.{◌≡◌, ◌∷◌, [], ℕ, List, fold, map, OnOk, IfOk};
ghost use Rattle.std.specs.List.{flat_map};
ghost use Rattle.std.specs.Option.{option_map};
ghost use Rattle.std.specs.Prelude.{zip};
ghost use Rattle.kb_logic.specs.declared.vocabularies.TypeDecl.{TypeDecl as AType};
ghost use Rattle.stage_definitions.specs.DataEntries as said;
ghost use Rattle.stage_definitions.specs.DataDomains as domain;
ghost use Rattle.stage_definitions.specs.DataStage as stage;
ghost use Rattle.stage_definitions.specs.IntegerArguments as integers;
ghost use Rattle.structure_entries.specs.WholeViews.{whole_view};
ghost use Rattle.data_refusals.specs.PlacedViews.{placed_view, placed_views};
ghost use Rattle.data_domains.specs.TypeSets.{AreTypesOf};
ghost use Rattle.type_derivation.specs.TypedViews.{named_term_view, named_theory_view, typed_view};

use crate::items::in_theory;
use crate::placed::Placed;
use crate::walks::term;
use data_domains::lookups::has_element;
use data_domains::types::TypeData;
use kb_logic::{Memory, Symbol, Term, Theory};
use kb_text::K;
use stage_definitions::Earliest;
use std::alloc::Global;
use structure_entries::elements::Element;
use type_derivation::{Named, TypedKb};

/// Whether an integer is no element of its position's type.
fn is_foreign(types: &[TypeData<'_>], placed: Placed) -> bool
    ensures { (all : List AType) (es : List said.Said) → AreTypesOf all es types.now → (p : ℕ)
        → result ≡ stage.is_foreign (domain.domains_of all es) (record {
          place = p;
          number = whole_view placed.number;
          ty = placed.ty;
        }) }
{
    !has_element(types, placed.ty as usize, Element::Number(placed.number))
}

/// Notes a term that is an integer at a position, where it begins at this place.
fn note_one(earliest: &mut Earliest, types: &[TypeData<'_>], place: usize, found: Option<Placed>)
    ensures { (all : List AType) (es : List said.Said) → AreTypesOf all es types.now → earliest.new.first
        ≡ fold (stage.data_noted all es) earliest.old.first (map stage.argument
        (integers.arguments_at (place ∷ []) (option_map placed_view found ∷ []))) }
{
    match found {
        None => {}
        Some(placed) => {
            earliest.note_if(is_foreign(types, placed), K::NotAnElement, place);
        }
    }
}

/// Notes the arguments among some terms that begin at these places.
fn note_placed(
    earliest: &mut Earliest,
    types: &[TypeData<'_>],
    places: &[usize],
    found: &[Option<Placed>],
)
    ensures { (all : List AType) (es : List said.Said) → AreTypesOf all es types.now → earliest.new.first
        ≡ fold (stage.data_noted all es) earliest.old.first (map stage.argument
        (integers.arguments_at places.now (placed_views found.now))) }
{
    for i in 0..places.len() {
        if i >= found.len() {
            return;
        }
        note_one(earliest, types, places[i], found[i]);
    }
}

/// Notes the arguments in a theory.
fn note_items(
    alloc: Global,
    earliest: &mut Earliest,
    types: &[TypeData<'_>],
    symbols: &[Symbol],
    theory: &Named<Theory>,
    places: &[usize],
) -> Result<(), Memory>
    ensures { OnOk result ((all : List AType) (es : List said.Said) → AreTypesOf all es types.now → earliest.new.first
        ≡ fold (stage.data_noted all es) earliest.old.first (map stage.argument
        (stage.arguments_of_theory symbols.now (named_theory_view theory.now, places.now)))) }
{
    let found = in_theory(alloc, symbols, &theory.value)?;
    note_placed(earliest, types, places, &found);
    Ok(())
}

/// Notes the arguments in the theory with this number, where there is one.
fn note_theory(
    alloc: Global,
    earliest: &mut Earliest,
    types: &[TypeData<'_>],
    kb: &TypedKb,
    theory: usize,
) -> Result<(), Memory>
    ensures { OnOk result ((all : List AType) (es : List said.Said) → AreTypesOf all es types.now → earliest.new.first
        ≡ fold (stage.data_noted all es) earliest.old.first (map stage.argument
        (flat_map (stage.arguments_of_theory kb.now.vocab.symbols) (stage.chosen_theory (typed_view kb.now) theory)))) }
{
    let Some(named) = kb.theories.get(theory) else {
        return Ok(());
    };
    let Some(places) = kb.places.theory_terms.get(theory) else {
        return Ok(());
    };
    let symbols = kb.vocab.symbols.as_slice();
    note_items(alloc, earliest, types, symbols, named, places.as_slice())?;
    Ok(())
}

/// Notes the arguments in a term block.
fn note_block(
    alloc: Global,
    earliest: &mut Earliest,
    types: &[TypeData<'_>],
    symbols: &[Symbol],
    block: &Named<Term>,
    places: &[usize],
) -> Result<(), Memory>
    ensures { OnOk result ((all : List AType) (es : List said.Said) → AreTypesOf all es types.now → earliest.new.first
        ≡ fold (stage.data_noted all es) earliest.old.first (map stage.argument
        (stage.arguments_of_block symbols.now (named_term_view block.now, places.now)))) }
{
    let mut found = Vec::new(alloc);
    term(symbols, None, &block.value, &mut found)?;
    note_placed(earliest, types, places, &found);
    Ok(())
}

/// Notes the arguments in all term blocks.
fn note_blocks(
    alloc: Global,
    earliest: &mut Earliest,
    types: &[TypeData<'_>],
    kb: &TypedKb,
) -> Result<(), Memory>
    ensures { OnOk result ((all : List AType) (es : List said.Said) → AreTypesOf all es types.now → earliest.new.first
        ≡ fold (stage.data_noted all es) earliest.old.first (map stage.argument
        (flat_map (stage.arguments_of_block kb.now.vocab.symbols)
        (zip (typed_view kb.now).terms kb.now.places.block_terms)))) }
{
    let blocks = kb.terms.as_slice();
    let places = kb.places.block_terms.as_slice();
    let symbols = kb.vocab.symbols.as_slice();
    for i in 0..blocks.len() {
        if i >= places.len() {
            return Ok(());
        }
        note_block(
            alloc,
            earliest,
            types,
            symbols,
            &blocks[i],
            places[i].as_slice(),
        )?;
    }
    Ok(())
}

/// Notes the integers beside a structure.
pub fn note_arguments(
    alloc: Global,
    earliest: &mut Earliest,
    types: &[TypeData<'_>],
    kb: &TypedKb,
    theory: usize,
) -> Result<(), Memory>
    ensures { OnOk result ((all : List AType) (es : List said.Said) → AreTypesOf all es types.now → earliest.new.first
        ≡ fold (stage.data_noted all es) earliest.old.first (stage.argument_uses (typed_view kb.now) theory)) }
{
    note_theory(alloc, earliest, types, kb, theory)?;
    note_blocks(alloc, earliest, types, kb)?;
    Ok(())
}
