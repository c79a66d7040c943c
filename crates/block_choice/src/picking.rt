//! The stage of blocks: which blocks a file has, and which theory and structure are chosen.
ghost use Rattle.std.specs.Prelude.{◌≡◌, Some, fold, map, unwrap_or, IfErr, IfOk};
ghost use Rattle.std.specs.List.{flat_map};
ghost use Rattle.stage_definitions.specs.BlocksStage as stage;
ghost use Rattle.stage_definitions.specs.BlocksStage.{block_noted, block_uses, header_names, headers_of, one_of_each};
ghost use Rattle.stage_definitions.specs.BlocksStage.{uses_of_header, IsPicked};
ghost use Rattle.stage_definitions.specs.FileView.{file_in, header_in, vocabulary_in};
ghost use Rattle.stage_definitions.specs.Names.{text_of};
ghost use Rattle.block_choice.specs.Choices.{word_given, AreFirstPlaces, FailsWith};

use crate::blocks::{Headed, choose, note_unless_named};
use crate::first_places::{FirstPlaces, is_again, no_places, note_places};
use grammar::{KbError, RawHeader, RawKb, RawName, RawVocabulary};
use kb_text::K;
use stage_definitions::Earliest;
use std::alloc::{AllocError, Global};

/// The numbers of the chosen theory and structure, each among its kind in the order of the text.
#[derive(Clone, Copy, PartialEq, Eq)]
pub struct Picked {
    pub theory: usize,
    pub structure: usize,
}

/// Whether this word is not the name of the first vocabulary.
fn is_other(vocabularies: &[RawVocabulary], word: &RawName) -> bool
    ensures { result ≡ stage.is_other (stage.name_of_vocabulary (map vocabulary_in vocabularies.now)) word.now.text }
{
    match vocabularies.first() {
        Some(vocabulary) => vocabulary.name.text.as_slice() != word.text.as_slice(),
        None => true,
    }
}

/// The least place at which each name is a block's, of any kind.
fn first_places<'a>(alloc: Global, raw: &'a RawKb) -> Result<FirstPlaces<'a>, AllocError>
    ensures { IfOk result (AreFirstPlaces (header_names (headers_of (file_in raw.now)))) }
{
    let mut first = no_places(alloc);
    note_places(&mut first, raw.theories.as_slice())?;
    note_places(&mut first, raw.structures.as_slice())?;
    note_places(&mut first, raw.terms.as_slice())?;
    Ok(first)
}

fn note_header<'a>(
    raw: &'a RawKb,
    first: &FirstPlaces<'a>,
    header: &'a RawHeader,
    earliest: &mut Earliest,
)
    requires { AreFirstPlaces (header_names (headers_of (file_in raw.now))) first.now }
    ensures { earliest.new.first ≡ fold block_noted earliest.old.first
        (uses_of_header (file_in raw.now) (header_in header.now)) }
{
    let is_other = is_other(raw.vocabularies.as_slice(), &header.of);
    earliest.note_if(is_other, K::UnknownName, header.of.place);
    let is_again = is_again(first, &header.name);
    earliest.note_if(is_again, K::Redeclared, header.name.place);
}

fn note_headers<'a, B: Headed>(
    raw: &'a RawKb,
    first: &FirstPlaces<'a>,
    blocks: &'a [B],
    earliest: &mut Earliest,
)
    requires { AreFirstPlaces (header_names (headers_of (file_in raw.now))) first.now }
    ensures { earliest.new.first ≡ fold block_noted earliest.old.first (flat_map (uses_of_header (file_in raw.now))
        (map B.header_of blocks.now)) }
{
    for block in blocks {
        note_header(raw, first, block.header(), earliest);
    }
}

fn note_all_headers<'a>(raw: &'a RawKb, first: &FirstPlaces<'a>, earliest: &mut Earliest)
    requires { AreFirstPlaces (header_names (headers_of (file_in raw.now))) first.now }
    ensures { earliest.new.first ≡ fold block_noted earliest.old.first (flat_map (uses_of_header (file_in raw.now))
        (headers_of (file_in raw.now))) }
{
    note_headers(raw, first, raw.theories.as_slice(), earliest);
    note_headers(raw, first, raw.structures.as_slice(), earliest);
    note_headers(raw, first, raw.terms.as_slice(), earliest);
}

fn note_further_vocabularies(vocabularies: &[RawVocabulary], earliest: &mut Earliest)
    ensures { earliest.new.first ≡ fold block_noted earliest.old.first
        (one_of_each 0 (map (λ v. v.place) (map vocabulary_in vocabularies.now))) }
{
    for (i, vocabulary) in vocabularies.iter().enumerate() {
        earliest.note_if(i > 0, K::BlockChoice, vocabulary.place);
    }
}

fn note_no_vocabulary(raw: &RawKb, earliest: &mut Earliest)
    ensures { earliest.new.first ≡ block_noted earliest.old.first
        (stage.wanted (map (λ v. v.name) (map vocabulary_in raw.now.vocabularies)) None raw.now.end) }
{
    let is_none = raw.vocabularies.as_slice().is_empty();
    earliest.note_if(is_none, K::BlockChoice, raw.end);
}

/// Notes all refusals of the stage. The numbers are 0 where a block is missing, which is refused.
fn choose_blocks<'a>(
    raw: &'a RawKb,
    first: &FirstPlaces<'a>,
    theory: Option<&[u8]>,
    structure: Option<&[u8]>,
    earliest: &mut Earliest,
) -> Picked
    requires { AreFirstPlaces (header_names (headers_of (file_in raw.now))) first.now }
    ensures theory { result.theory ≡ unwrap_or (stage.chosen (map (λ t. t.header.name) (file_in raw.now).theories)
        (word_given theory.entry)) 0 }
    ensures structure { result.structure ≡ unwrap_or (stage.chosen (header_names (file_in raw.now).structures)
        (word_given structure.entry)) 0 }
    ensures noted { earliest.new.first ≡ fold block_noted earliest.old.first
        (block_uses (file_in raw.now) (word_given theory.entry) (word_given structure.entry)) }
{
    note_all_headers(raw, first, earliest);
    note_further_vocabularies(raw.vocabularies.as_slice(), earliest);
    note_unless_named(raw.theories.as_slice(), theory, earliest);
    note_unless_named(raw.structures.as_slice(), structure, earliest);
    note_no_vocabulary(raw, earliest);
    let theory = choose(raw.theories.as_slice(), theory, raw.end, earliest);
    let structure = choose(raw.structures.as_slice(), structure, raw.end, earliest);
    Picked { theory, structure }
}

/// The bytes of the name that is given.
fn bytes_in(name: Option<&str>) -> Option<&[u8]>
    ensures { word_given result ≡ word_given name.entry }
{
    match name {
        Some(name) => Some(name.as_bytes()),
        None => None,
    }
}

/// The theory and the structure of these names, or the only ones where none is named; else the earliest refusal of the
/// stage of blocks: a header that names another vocabulary than the first one, a second block of one name, or not
/// exactly one vocabulary, theory or structure where no name chooses. It takes memory for the names, so that it takes
/// time linear in the number of blocks.
pub fn pick(
    alloc: Global,
    raw: &RawKb,
    theory: Option<&str>,
    structure: Option<&str>,
) -> Result<Picked, KbError>
    ensures ok { IfOk result (λ p. IsPicked (file_in raw.now) (word_given theory.entry) (word_given structure.entry)
        p.theory p.structure) }
    ensures err { IfErr result (FailsWith (file_in raw.now) (word_given theory.entry) (word_given structure.entry)) }
{
    let Ok(first) = first_places(alloc, raw) else {
        return Err(KbError::Memory);
    };
    let mut earliest = Earliest::new();
    let (theory, structure) = (bytes_in(theory), bytes_in(structure));
    let picked = choose_blocks(raw, &first, theory, structure, &mut earliest);
    match earliest.first {
        None => Ok(picked),
        Some(fault) => Err(KbError::Refused(fault)),
    }
}
