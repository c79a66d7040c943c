//! A file up to the types of its variables.
ghost use Rattle.std.specs.Prelude.{IfOk};
ghost use Rattle.type_derivation.specs.TypedViews.{typed_view};
ghost use Rattle.heaviest_parts.specs.Accepted.{IsAcceptedFile};

use block_choice::{Picked, pick};
use fo_reader::read_kb;
use grammar::{KbError, RawKb};
use kb_names::resolve;
use std::alloc::Global;
use type_derivation::{TypedKb, derive};

/// A file whose variables have their types, and which theory and structure are chosen of it.
#[derive(Drop)]
pub struct TypedFile {
    pub raw: RawKb,
    pub kb: TypedKb,
    pub picked: Picked,
}

/// The file with numbers for words and with the types of its variables.
fn types_of(alloc: Global, raw: &RawKb) -> Result<TypedKb, KbError>
    ensures { IfOk result (λ kb. IsAcceptedFile (typed_view kb)) }
{
    match resolve(alloc, raw) {
        Ok(named) => derive(alloc, named),
        Err(e) => Err(e),
    }
}

/// What the bytes of a file are, with the theory and the structure of these names, or with the only ones.
pub fn typed_file(
    alloc: Global,
    bytes: &[u8],
    theory: Option<&str>,
    structure: Option<&str>,
) -> Result<TypedFile, KbError>
    ensures { IfOk result (λ file. IsAcceptedFile (typed_view file.kb)) }
{
    let raw = match read_kb(alloc, bytes) {
        Ok(raw) => raw,
        Err(e) => return Err(e),
    };
    let picked = match pick(alloc, &raw, theory, structure) {
        Ok(picked) => picked,
        Err(e) => return Err(e),
    };
    match types_of(alloc, &raw) {
        Ok(kb) => Ok(TypedFile { raw, kb, picked }),
        Err(e) => Err(e),
    }
}
