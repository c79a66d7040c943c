//! A raw knowledge base with numbers for words, or the earliest refusal.
ghost use Rattle.std.specs.Prelude.{◌≡◌, fold, map, OnOk, IfOk, IfErr};
ghost use Rattle.std.specs.List.{flat_map};
ghost use Rattle.stage_definitions.specs.Below.{HasNoCycle, type_parents};
ghost use Rattle.stage_definitions.specs.FileView.{declaration_in, file_in, term_in, theory_in, vocabulary_in};
ghost use Rattle.stage_definitions.specs.Names.{names_of};
ghost use Rattle.stage_definitions.specs.NamesStage.{declarations_of, name_noted, uses_of_file};
ghost use Rattle.stage_definitions.specs.Numbering as number;
ghost use Rattle.stage_definitions.specs.Numbering.{IsNamed};
ghost use Rattle.stage_definitions.specs.Uses as use_of;
ghost use Rattle.stage_definitions.specs.Uses.{climbing_uses, type_names};
ghost use Rattle.stage_definitions.specs.Failures.{FailsWith};
ghost use Rattle.stage_definitions.specs.FileViews.{block_view, kb_view, theory_view};
ghost use Rattle.formula_names.specs.Meanings.{names_in};
ghost use Rattle.kb_names.specs.NumberedViews.{numbered_view};

use crate::cycles::note_cycles;
use crate::declarations::declared_table;
use crate::places::{parents_in, symbol_places, type_places};
use crate::theories::{block, theory};
use crate::vocabularies::types_and_symbols;
use formula_names::tables::Table;
use grammar::{KbError, RawDeclaration, RawKb, RawTerm, RawTheory, RawVocabulary};
use kb_logic::{Memory, Name, Vocabulary};
use sqlite_items::Items;
use stage_definitions::{Earliest, NamedKb, NamedTermBlock, NamedTheory};
use std::alloc::Global;

/// A file with numbers for words, before it is known whether something in it is refused.
#[derive(Drop)]
pub struct Numbered {
    pub vocab: Vocabulary,
    pub theories: Items<NamedTheory>,
    pub terms: Items<NamedTermBlock>,
    pub type_places: Items<usize>,
    pub symbol_places: Items<usize>,
}

/// The declarations of the first vocabulary.
fn declarations_in(vocabularies: &[RawVocabulary]) -> &[RawDeclaration]
    ensures { map declaration_in result.now ≡ declarations_of (map vocabulary_in vocabularies.now) }
{
    match vocabularies {
        [first, ..] => first.declarations.as_slice(),
        [] => &[],
    }
}

/// The name of the first vocabulary.
fn name_in(vocabularies: &[RawVocabulary]) -> &[u8]
    ensures { result.now ≡ number.vocabulary_name (map vocabulary_in vocabularies.now) }
{
    match vocabularies {
        [first, ..] => first.name.text.as_slice(),
        [] => b"",
    }
}

/// Notes the first type of each cycle of `isa`, and returns the places of the types' names.
fn climbed_types<'a>(
    alloc: Global,
    table: &Table<'a>,
    declarations: &'a [RawDeclaration],
    earliest: &mut Earliest,
) -> Result<Items<usize>, Memory>
    ensures places { IfOk result (λ ps. ps ≡ number.type_places (map declaration_in declarations.now)) }
    ensures noted { OnOk result (earliest.new.first ≡ fold (name_noted (names_in table.now)) earliest.old.first
        (climbing_uses (use_of.parents_in (names_in table.now) (map declaration_in declarations.now)) 0
        (type_names (map declaration_in declarations.now)))) }
{
    let places = type_places(alloc, declarations)?;
    let parents = parents_in(alloc, table, declarations)?;
    note_cycles(parents.as_slice(), places.as_slice(), earliest);
    Ok(places)
}

/// The theories, in order.
fn theories<'a>(
    alloc: Global,
    table: &Table<'a>,
    blocks: &'a [RawTheory],
    earliest: &mut Earliest,
) -> Result<Items<NamedTheory>, Memory>
    ensures theories { IfOk result (λ ts. map theory_view ts ≡ map (number.named_theory (names_in table.now))
        (map theory_in blocks.now)) }
    ensures noted { OnOk result (earliest.new.first ≡ fold (name_noted (names_in table.now)) earliest.old.first
        (flat_map (use_of.uses_in_theory (names_in table.now)) (map theory_in blocks.now))) }
{
    let mut named = Vec::new(alloc);
    for raw in blocks {
        named.push(theory(alloc, table, raw, earliest)?)?;
    }
    Ok(Items::from_vec(named))
}

/// The term blocks, in order.
fn terms<'a>(
    alloc: Global,
    table: &Table<'a>,
    blocks: &'a [RawTerm],
    earliest: &mut Earliest,
) -> Result<Items<NamedTermBlock>, Memory>
    ensures terms { IfOk result (λ ts. map block_view ts ≡ map (number.named_block (names_in table.now))
        (map term_in blocks.now)) }
    ensures noted { OnOk result (earliest.new.first ≡ fold (name_noted (names_in table.now)) earliest.old.first
        (flat_map use_of.uses_in_block (map term_in blocks.now))) }
{
    let mut named = Vec::new(alloc);
    for raw in blocks {
        named.push(block(alloc, table, raw, earliest)?)?;
    }
    Ok(Items::from_vec(named))
}

/// The knowledge base with numbers for words, where a word that is refused has the number 0.
fn named(alloc: Global, raw: &RawKb, earliest: &mut Earliest) -> Result<Numbered, Memory>
    ensures tree { IfOk result (λ kb. numbered_view kb ≡ number.named_file
        (number.vocabulary_name (file_in raw.now).vocabularies) (declarations_of (file_in raw.now).vocabularies)
        (file_in raw.now).theories (file_in raw.now).terms) }
    ensures noted { OnOk result (earliest.new.first ≡ fold (name_noted
        (names_of (declarations_of (file_in raw.now).vocabularies))) earliest.old.first
        (uses_of_file (file_in raw.now))) }
{
    let vocabularies = raw.vocabularies.as_slice();
    let declarations = declarations_in(vocabularies);
    let table = declared_table(alloc, declarations, earliest)?;
    let declared = types_and_symbols(alloc, &table, declarations, earliest)?;
    let type_places = climbed_types(alloc, &table, declarations, earliest)?;
    let symbol_places = symbol_places(alloc, declarations)?;
    let theories = theories(alloc, &table, raw.theories.as_slice(), earliest)?;
    let terms = terms(alloc, &table, raw.terms.as_slice(), earliest)?;
    Ok(Numbered {
        vocab: Vocabulary {
            name: Name::new(alloc, name_in(vocabularies))?,
            types: declared.types,
            symbols: declared.symbols,
        },
        theories,
        terms,
        type_places,
        symbol_places,
    })
}

/// The same file, now that nothing in it is refused.
fn accepted(kb: Numbered) -> NamedKb
    requires acyclic { HasNoCycle (type_parents kb.vocab.types) }
    ensures { kb_view result ≡ numbered_view kb }
{
    NamedKb {
        vocab: kb.vocab,
        theories: kb.theories,
        terms: kb.terms,
        type_places: kb.type_places,
        symbol_places: kb.symbol_places,
    }
}

/// The first vocabulary, the theories and the term blocks of a file with numbers for words, or the earliest refusal
/// of the names in them.
pub fn resolve(alloc: Global, raw: &RawKb) -> Result<NamedKb, KbError>
    ensures ok { IfOk result (λ kb. IsNamed (file_in raw.now) (kb_view kb)) }
    ensures err { IfErr result (FailsWith (file_in raw.now)) }
{
    let mut earliest = Earliest::new();
    match named(alloc, raw, &mut earliest) {
        Ok(kb) => match earliest.first {
            None => Ok(accepted(kb)),
            Some(fault) => Err(KbError::Refused(fault)),
        },
        Err(_) => Err(KbError::Memory),
    }
}
