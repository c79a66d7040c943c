//! The stages of reading, one after another.
ghost use Rattle.std.specs.Prelude.{◌≡◌, ◌≤◌, ◌<◌, ◌^◌, Some, length, slice_get, IfErr, IfOk};
ghost use Rattle.grammar.specs.BlockView.{structure_view};
ghost use Rattle.stage_definitions.specs.FileBases.{base_of_file};
ghost use Rattle.stage_definitions.specs.FileView.{file_in};
ghost use Rattle.stage_definitions.specs.Files.{File};
ghost use Rattle.type_derivation.specs.TypedViews.{typed_view};
ghost use Rattle.def_ground.specs.Groundings.{IsGroundTheory};
ghost use Rattle.base_reader.specs.Groundable.{IsBoundedBase};
ghost use Rattle.narrowed_bases.specs.Narrowings.{IsNarrowing, IsLight};
ghost use Rattle.base_reader.specs.FileMeanings.{first_word as place_of_first_word, FileMeans};
ghost use Rattle.base_reader.specs.Readings.{choice, meaning_of, AreBlocksOf, AreNarrowedData, DataFail, FailsWith};
ghost use Rattle.base_reader.specs.Readings.{HasTypedFile, IsOpenedOn, NamesOrTypes, OpenFails};

use crate::{accepted_can_be_grounded, accepted_is_bounded};
use block_choice::{Picked, pick};
use consult_base::KnowledgeBase;
use fo_reader::read_kb;
use grammar::{KbError, RawKb, RawStructure};
use kb_logic::Name;
use kb_names::resolve;
use kb_text::{K, KbFault};
use narrowed_bases::{NarrowError, Narrowing, narrow};
use partial_structures::Partial;
use reading_laws::derived_is_well_formed;
use stage_definitions::files_are_their_blocks;
use std::alloc::Global;
use structure_reader::read_data;
use type_derivation::{TypedKb, derive};

/// The blocks of the file, and which theory and structure are chosen.
fn read_blocks(
    alloc: Global,
    bytes: &[u8],
    theory: Option<&str>,
    structure: Option<&str>,
) -> Result<(RawKb, Picked), KbError>
    ensures ok { IfOk result
        (λ p. AreBlocksOf (choice theory.entry structure.entry) bytes.now p.0 p.1.theory p.1.structure) }
    ensures err { IfErr result (FailsWith (choice theory.entry structure.entry) bytes.now) }
{
    files_are_their_blocks();
    let raw = match read_kb(alloc, bytes) {
        Ok(raw) => raw,
        Err(e) => return Err(e),
    };
    match pick(alloc, &raw, theory, structure) {
        Ok(picked) => Ok((raw, picked)),
        Err(e) => Err(e),
    }
}

/// The file with numbers for words and with the types of its variables.
fn read_types(alloc: Global, raw: &RawKb) -> Result<TypedKb, KbError>
    ensures ok { IfOk result (λ kb. HasTypedFile (file_in raw.now) (typed_view kb)) }
    ensures err { IfErr result (NamesOrTypes (file_in raw.now)) }
{
    match resolve(alloc, raw) {
        Ok(named) => derive(alloc, named),
        Err(e) => Err(e),
    }
}

/// The structure of this number.
fn structure_at(raw: &RawKb, number: usize) -> &RawStructure
    requires { number < length raw.now.structures }
    ensures { slice_get raw.now.structures number ≡ Some result.now }
{
    &raw.structures.as_slice()[number]
}

/// Where the first word of the theory with this number stands.
fn first_word(kb: &TypedKb, theory: usize) -> usize
    ensures { result ≡ place_of_first_word (typed_view kb.now) theory }
{
    match kb.places.theories.get(theory) {
        Some(place) => *place,
        None => 0,
    }
}

/// What the data are narrowed to, or the refusal of what this leaves open.
fn read_narrowing(
    alloc: Global,
    kb: &TypedKb,
    theory: usize,
    known: &Partial,
) -> Result<Narrowing, KbError>
    requires theory { theory < length kb.now.theories }
    requires few { length kb.now.vocab.symbols ≤ 2 ^ 32 }
    requires typed { IsGroundTheory (base_of_file (typed_view kb.now) theory known.now) }
    requires bounded { IsBoundedBase (base_of_file (typed_view kb.now) theory known.now) }
    ensures narrowing { IfOk result (λ n. IsNarrowing (base_of_file (typed_view kb.now) theory known.now) n) }
    ensures light { IfOk result (λ n. IsLight (base_of_file (typed_view kb.now) theory known.now)) }
    ensures err { IfErr result (OpenFails (typed_view kb.now) theory known.now) }
{
    match narrow(alloc, kb, theory, known) {
        Ok(narrowing) => Ok(narrowing),
        Err(NarrowError::TooLarge) => Err(KbError::Refused(KbFault {
            cause: K::TooLarge,
            place: first_word(kb, theory),
        })),
        Err(NarrowError::Memory) => Err(KbError::Memory),
    }
}

/// The data of the structure, and what they are narrowed to.
fn read_known(
    alloc: Global,
    kb: &TypedKb,
    theory: usize,
    structure: &RawStructure,
) -> Result<(Partial, Narrowing), KbError>
    requires theory { theory < length kb.now.theories }
    requires typed { (f : File) × HasTypedFile f (typed_view kb.now) }
    ensures ok { IfOk result (λ both. AreNarrowedData (typed_view kb.now) theory (structure_view structure.now)
        both.0 both.1) }
    ensures err { IfErr result (DataFail (typed_view kb.now) theory (structure_view structure.now)) }
{
    derived_is_well_formed();
    accepted_can_be_grounded();
    accepted_is_bounded();
    let (known, _sizes) = match read_data(alloc, kb, theory, structure) {
        Ok(measured) => measured,
        Err(e) => return Err(e),
    };
    match read_narrowing(alloc, kb, theory, &known) {
        Ok(narrowing) => Ok((known, narrowing)),
        Err(e) => Err(e),
    }
}

/// The knowledge base of the structure.
fn opened(
    alloc: Global,
    kb: TypedKb,
    theory: usize,
    structure: &RawStructure,
) -> Result<KnowledgeBase, KbError>
    requires theory { theory < length kb.theories }
    requires typed { (f : File) × HasTypedFile f (typed_view kb) }
    ensures ok { IfOk result (IsOpenedOn kb theory structure.now) }
    ensures err { IfErr result (DataFail (typed_view kb) theory (structure_view structure.now)) }
{
    derived_is_well_formed();
    let Ok(name) = Name::new(alloc, structure.header.name.text.as_slice()) else {
        return Err(KbError::Memory);
    };
    match read_known(alloc, &kb, theory, structure) {
        Ok((known, narrowing)) => Ok(KnowledgeBase::new(kb, theory, name, known, narrowing)),
        Err(e) => Err(e),
    }
}

/// The knowledge base that the bytes of a file mean, with the theory and the structure of these names, or with the only
/// ones; or the refusal of the first stage that refuses something, or of what the narrowed data leave open.
pub fn read_base(
    alloc: Global,
    bytes: &[u8],
    theory: Option<&str>,
    structure: Option<&str>,
) -> Result<KnowledgeBase, KbError>
    ensures ok { IfOk result (λ kb. FileMeans (choice theory.entry structure.entry) bytes.now (meaning_of kb)) }
    ensures err { IfErr result (FailsWith (choice theory.entry structure.entry) bytes.now) }
{
    files_are_their_blocks();
    let (raw, picked) = match read_blocks(alloc, bytes, theory, structure) {
        Ok(found) => found,
        Err(e) => return Err(e),
    };
    let typed = match read_types(alloc, &raw) {
        Ok(typed) => typed,
        Err(e) => return Err(e),
    };
    let structure = structure_at(&raw, picked.structure);
    opened(alloc, typed, picked.theory, structure)
}
