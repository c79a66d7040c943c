//! The stages of reading up to the data, for each knowledge base.
ghost use Rattle.std.specs.Prelude.{◌<◌, IfOk, length};
ghost use Rattle.stage_definitions.specs.FileView.{file_in};
ghost use Rattle.stage_definitions.specs.Files.{File};
ghost use Rattle.type_derivation.specs.TypedViews.{typed_view};
ghost use Rattle.narrow_cases.specs.Typed.{HasTypedFile};

use crate::closures::push_narrowed;
use base_reader::{accepted_can_be_grounded, accepted_is_bounded};
use block_choice::pick;
use fo_reader::read_kb;
use grammar::{KbError, RawKb, RawStructure};
use kb_logic::Memory;
use kb_names::resolve;
use reading_laws::derived_is_well_formed;
use std::alloc::Global;
use structure_reader::read_data;
use type_derivation::{TypedKb, derive};

/// Pushes the line of a base that some stage refuses.
fn push_refused(e: KbError, out: &mut Vec<u8>) -> Result<(), Memory> {
    match e {
        KbError::Refused(_) => out.extend_from_slice(b"refused\n"),
        KbError::Memory => Err(Memory),
    }
}

/// The file with numbers for words and with the types of its variables.
fn read_types(alloc: Global, raw: &RawKb) -> Result<TypedKb, KbError>
    ensures { IfOk result (λ kb. HasTypedFile (file_in raw.now) (typed_view kb)) }
{
    match resolve(alloc, raw) {
        Ok(named) => derive(alloc, named),
        Err(e) => Err(e),
    }
}

/// Pushes the line of a base of the structure and the theory with this number.
fn push_data(
    alloc: Global,
    kb: &TypedKb,
    theory: usize,
    structure: &RawStructure,
    out: &mut Vec<u8>,
) -> Result<(), Memory>
    requires theory { theory < length kb.now.theories }
    requires typed { (f : File) × HasTypedFile f (typed_view kb.now) }
{
    derived_is_well_formed();
    accepted_can_be_grounded();
    accepted_is_bounded();
    match read_data(alloc, kb, theory, structure) {
        Ok(measured) => push_narrowed(alloc, kb, theory, &measured.0, out),
        Err(e) => push_refused(e, out),
    }
}

/// The same where the theory's number may be too great; none that was picked is.
fn push_typed(
    alloc: Global,
    kb: &TypedKb,
    theory: usize,
    structure: &RawStructure,
    out: &mut Vec<u8>,
) -> Result<(), Memory>
    requires { (f : File) × HasTypedFile f (typed_view kb.now) }
{
    if theory < kb.theories.len() {
        push_data(alloc, kb, theory, structure, out)
    } else {
        Err(Memory)
    }
}

/// Pushes the line of a base of the structure and the theory with these numbers.
fn push_blocks(
    alloc: Global,
    raw: &RawKb,
    theory: usize,
    structure: usize,
    out: &mut Vec<u8>,
) -> Result<(), Memory> {
    let Some(structure) = raw.structures.get(structure) else {
        return Err(Memory);
    };
    match read_types(alloc, raw) {
        Ok(kb) => push_typed(alloc, &kb, theory, structure, out),
        Err(e) => push_refused(e, out),
    }
}

fn push_file(alloc: Global, raw: &RawKb, out: &mut Vec<u8>) -> Result<(), Memory> {
    match pick(alloc, raw, None, None) {
        Ok(picked) => push_blocks(alloc, raw, picked.theory, picked.structure, out),
        Err(e) => push_refused(e, out),
    }
}

fn push_line(alloc: Global, text: &[u8], out: &mut Vec<u8>) -> Result<(), Memory> {
    match read_kb(alloc, text) {
        Ok(raw) => push_file(alloc, &raw, out),
        Err(e) => push_refused(e, out),
    }
}

/// Pushes a line for each knowledge base: one stands on each line of the text that is not empty.
pub fn push_lines(alloc: Global, text: &[u8], out: &mut Vec<u8>) -> Result<(), Memory> {
    for base in text.split(|byte| *byte == b'\n') {
        if !base.is_empty() {
            push_line(alloc, base, out)?;
        }
    }
    Ok(())
}
