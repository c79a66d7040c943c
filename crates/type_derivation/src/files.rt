//! A knowledge base with the types of its variables, or the earliest refusal.
ghost use Rattle.std.specs.Prelude.{◌≡◌, ◌++◌, ◌∷◌, [], fold, map, OnOk, IfOk, IfErr};
ghost use Rattle.std.specs.List.{flat_map};
ghost use Rattle.kb_logic.specs.Views as view;
ghost use Rattle.stage_definitions.specs.Below.{HasNoCycle, type_parents};
ghost use Rattle.stage_definitions.specs.TermPlaces.{term_begins, terms_begin};
ghost use Rattle.stage_definitions.specs.TypedFiles.{theory_begins, typed_block, typed_file, typed_theory};
ghost use Rattle.stage_definitions.specs.TypedTrees.{typed_block_term, typed_sentence};
ghost use Rattle.stage_definitions.specs.TypesStage as stage;
ghost use Rattle.stage_definitions.specs.TypesStage.{type_noted, IsTyped};
ghost use Rattle.stage_definitions.specs.FileViews as named_view;
ghost use Rattle.stage_definitions.specs.FileViews.{kb_view};
ghost use Rattle.stage_definitions.specs.NamedViews.{definition_view, formula_view, term_view};
ghost use Rattle.type_derivation.specs.Failures.{FailsWith};
ghost use Rattle.type_derivation.specs.TypedViews.{named_term_view, named_theory_view, typed_view};

use crate::definitions::definitions;
use crate::remaining::Remaining;
use crate::trees;
use crate::typed::{Named, Places, TypedKb};
use grammar::KbError;
use kb_logic::{Formula, ListOf, Memory, Term, Theory, Vocabulary};
use sqlite_items::Items;
use stage_definitions::{Earliest, NamedFormula, NamedKb, NamedTerm, NamedTermBlock, NamedTheory};
use std::alloc::Global;
use type_constraints::{block_term_types, sentence_types};

/// A sentence with the types of its variables.
fn sentence(
    alloc: Global,
    vocab: &Vocabulary,
    named: &NamedFormula,
    places: &mut Vec<usize>,
    earliest: &mut Earliest,
) -> Result<Formula, Memory>
    requires acyclic { HasNoCycle (type_parents vocab.now.types) }
    ensures tree { IfOk result (λ f. view.formula_view f ≡ typed_sentence vocab.now (formula_view named.now)) }
    ensures places { OnOk result (places.new.items ≡ places.old.items ++ terms_begin (formula_view named.now)) }
    ensures noted { OnOk result (earliest.new.first ≡ fold (type_noted vocab.now.types) earliest.old.first
        (stage.sentence_type_uses vocab.now (formula_view named.now))) }
{
    let mut types = Remaining::new(sentence_types(alloc, vocab, named, earliest)?);
    trees::formula(alloc, &mut types, named, places)
}

/// The term of a term block with the types of its variables.
fn block_term(
    alloc: Global,
    vocab: &Vocabulary,
    named: &NamedTerm,
    places: &mut Vec<usize>,
    earliest: &mut Earliest,
) -> Result<Term, Memory>
    requires acyclic { HasNoCycle (type_parents vocab.now.types) }
    ensures tree { IfOk result (λ t. view.term_view t ≡ typed_block_term vocab.now (term_view named.now)) }
    ensures places { OnOk result (places.new.items ≡ places.old.items ++ term_begins (term_view named.now)) }
    ensures noted { OnOk result (earliest.new.first ≡ fold (type_noted vocab.now.types) earliest.old.first
        (stage.uses_among [] (stage.block_settled vocab.now (term_view named.now)))) }
{
    let mut types = Remaining::new(block_term_types(alloc, vocab, named, earliest)?);
    trees::term(alloc, &mut types, named, places)
}

fn sentences(
    alloc: Global,
    vocab: &Vocabulary,
    named: &[NamedFormula],
    places: &mut Vec<usize>,
    earliest: &mut Earliest,
) -> Result<Vec<Formula>, Memory>
    requires acyclic { HasNoCycle (type_parents vocab.now.types) }
    ensures trees { IfOk result (λ fs. map view.formula_view fs.items ≡ map (typed_sentence vocab.now)
        (map formula_view named.now)) }
    ensures places { OnOk result (places.new.items ≡ places.old.items ++ flat_map terms_begin
        (map formula_view named.now)) }
    ensures noted { OnOk result (earliest.new.first ≡ fold (type_noted vocab.now.types) earliest.old.first
        (flat_map (stage.sentence_type_uses vocab.now) (map formula_view named.now))) }
{
    let mut sentences = Vec::new(alloc);
    for item in named {
        sentences.push(sentence(alloc, vocab, item, places, earliest)?)?;
    }
    Ok(sentences)
}

fn theory(
    alloc: Global,
    vocab: &Vocabulary,
    named: &NamedTheory,
    terms: &mut Vec<Items<usize>>,
    earliest: &mut Earliest,
) -> Result<Named<Theory>, Memory>
    requires acyclic { HasNoCycle (type_parents vocab.now.types) }
    ensures theory { IfOk result (λ t. named_theory_view t ≡ typed_theory vocab.now
        (named_view.theory_view named.now)) }
    ensures terms { OnOk result (terms.new.items ≡ terms.old.items ++ theory_begins
        (named_view.theory_view named.now) ∷ []) }
    ensures noted { OnOk result (earliest.new.first ≡ fold (type_noted vocab.now.types) earliest.old.first
        (flat_map (stage.sentence_type_uses vocab.now) (map formula_view named.now.sentences)
        ++ flat_map (flat_map (stage.rule_type_uses vocab.now)) (map definition_view named.now.definitions))) }
{
    let mut places = Vec::new(alloc);
    let sentences = sentences(
        alloc,
        vocab,
        named.sentences.as_slice(),
        &mut places,
        earliest,
    )?;
    let listed = named.definitions.as_slice();
    let definitions = definitions(alloc, vocab, listed, &mut places, earliest)?;
    terms.push(Items::from_vec(places))?;
    Ok(Named {
        name: named.name.copy(alloc)?,
        value: Theory {
            sentences: ListOf::from_vec(sentences),
            definitions: ListOf::from_vec(definitions),
        },
    })
}

fn block(
    alloc: Global,
    vocab: &Vocabulary,
    named: &NamedTermBlock,
    terms: &mut Vec<Items<usize>>,
    earliest: &mut Earliest,
) -> Result<Named<Term>, Memory>
    requires acyclic { HasNoCycle (type_parents vocab.now.types) }
    ensures block { IfOk result (λ t. named_term_view t ≡ typed_block vocab.now (named_view.block_view named.now)) }
    ensures terms { OnOk result (terms.new.items ≡ terms.old.items ++ term_begins (term_view named.now.term) ∷ []) }
    ensures noted { OnOk result (earliest.new.first ≡ fold (type_noted vocab.now.types) earliest.old.first
        (stage.uses_among [] (stage.block_settled vocab.now (term_view named.now.term)))) }
{
    let mut places = Vec::new(alloc);
    let term = block_term(alloc, vocab, &named.term, &mut places, earliest)?;
    terms.push(Items::from_vec(places))?;
    Ok(Named {
        name: named.name.copy(alloc)?,
        value: term,
    })
}

fn theories(
    alloc: Global,
    vocab: &Vocabulary,
    named: &[NamedTheory],
    terms: &mut Vec<Items<usize>>,
    earliest: &mut Earliest,
) -> Result<Vec<Named<Theory>>, Memory>
    requires acyclic { HasNoCycle (type_parents vocab.now.types) }
    ensures theories { IfOk result (λ ts. map named_theory_view ts.items ≡ map (typed_theory vocab.now)
        (map named_view.theory_view named.now)) }
    ensures terms { OnOk result (terms.new.items ≡ terms.old.items ++ map theory_begins
        (map named_view.theory_view named.now)) }
    ensures noted { OnOk result (earliest.new.first ≡ fold (type_noted vocab.now.types) earliest.old.first
        (flat_map (λ t. flat_map (stage.sentence_type_uses vocab.now) t.sentences
        ++ flat_map (flat_map (stage.rule_type_uses vocab.now)) t.definitions)
        (map named_view.theory_view named.now))) }
{
    let mut theories = Vec::new(alloc);
    for item in named {
        theories.push(theory(alloc, vocab, item, terms, earliest)?)?;
    }
    Ok(theories)
}

fn blocks(
    alloc: Global,
    vocab: &Vocabulary,
    named: &[NamedTermBlock],
    terms: &mut Vec<Items<usize>>,
    earliest: &mut Earliest,
) -> Result<Vec<Named<Term>>, Memory>
    requires acyclic { HasNoCycle (type_parents vocab.now.types) }
    ensures blocks { IfOk result (λ ts. map named_term_view ts.items ≡ map (typed_block vocab.now)
        (map named_view.block_view named.now)) }
    ensures terms { OnOk result (terms.new.items ≡ terms.old.items ++ map (λ t. term_begins t.term)
        (map named_view.block_view named.now)) }
    ensures noted { OnOk result (earliest.new.first ≡ fold (type_noted vocab.now.types) earliest.old.first
        (flat_map (λ t. stage.uses_among [] (stage.block_settled vocab.now t.term))
        (map named_view.block_view named.now))) }
{
    let mut blocks = Vec::new(alloc);
    for item in named {
        blocks.push(block(alloc, vocab, item, terms, earliest)?)?;
    }
    Ok(blocks)
}

fn first_words(alloc: Global, theories: &[NamedTheory]) -> Result<Items<usize>, Memory>
    ensures { IfOk result (λ ps. ps ≡ map (λ t. t.place) (map named_view.theory_view theories.now)) }
{
    let mut places = Vec::new(alloc);
    for theory in theories {
        places.push(theory.place)?;
    }
    Ok(Items::from_vec(places))
}

fn derived(alloc: Global, named: NamedKb, earliest: &mut Earliest) -> Result<TypedKb, Memory>
    ensures tree { IfOk result (λ kb. typed_view kb ≡ typed_file (kb_view named)) }
    ensures noted { OnOk result (earliest.new.first ≡ fold (type_noted named.vocab.types) earliest.old.first
        (stage.type_uses_of_file (kb_view named))) }
{
    let NamedKb {
        vocab,
        theories: named_theories,
        terms: named_terms,
        type_places,
        symbol_places,
    } = named;
    let mut theory_terms = Vec::new(alloc);
    let mut block_terms = Vec::new(alloc);
    let theories = theories(
        alloc,
        &vocab,
        named_theories.as_slice(),
        &mut theory_terms,
        earliest,
    )?;
    let terms = blocks(
        alloc,
        &vocab,
        named_terms.as_slice(),
        &mut block_terms,
        earliest,
    )?;
    let first_words = first_words(alloc, named_theories.as_slice())?;
    Ok(TypedKb {
        vocab,
        theories: Items::from_vec(theories),
        terms: Items::from_vec(terms),
        places: Places {
            types: type_places,
            symbols: symbol_places,
            theories: first_words,
            theory_terms: Items::from_vec(theory_terms),
            block_terms: Items::from_vec(block_terms),
        },
    })
}

/// The file with the types of its variables, or the earliest refusal of the types in it.
pub fn derive(alloc: Global, named: NamedKb) -> Result<TypedKb, KbError>
    ensures ok { IfOk result (λ kb. IsTyped (kb_view named) (typed_view kb)) }
    ensures err { IfErr result (FailsWith (kb_view named)) }
{
    let mut earliest = Earliest::new();
    match derived(alloc, named, &mut earliest) {
        Ok(kb) => match earliest.first {
            None => Ok(kb),
            Some(fault) => Err(KbError::Refused(fault)),
        },
        Err(_) => Err(KbError::Memory),
    }
}
