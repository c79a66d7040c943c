//! Why a file is refused, and what makes it too large.
ghost use Rattle.std.specs.Prelude.{map};
ghost use Rattle.std.specs.List.{AllByRecursion};
ghost use Rattle.size_stage.specs.Counted.{IsCountable};
ghost use Rattle.open_sizes.specs.Fits.{WeighingFits};
ghost use Rattle.stage_definitions.specs.FileBases.{theory_at};
ghost use Rattle.type_derivation.specs.TypedViews.{named_term_view, typed_view};
ghost use Rattle.heaviest_parts.specs.Accepted.{IsAcceptedFile};

use crate::counting::counts_of;
use crate::lines::{Excess, lines_on};
use crate::open::open_parts;
use crate::parts::{Part, atoms_in, weights_in, whole_weight};
use crate::reading::{TypedFile, typed_file};
use base_reader::{accepted_can_be_grounded, accepted_is_bounded};
use data_domains::types::{TypeData, types_of};
use grammar::{KbError, RawStructure};
use kb_text::{K, KbFault};
use open_sizes::laws::small_bases_fit;
use partial_structures::Partial;
use size_stage::domains::Domains;
use std::alloc::{AllocError as Memory, Global};
use structure_entries::entries::entries;
use structure_reader::read_data;

/// The greatest weight of a knowledge base whose data are not narrowed: of others, what is left open may be refused.
const OPEN_LIMIT: u64 = 4_000_000;

/// Why a file is refused.
#[derive(Drop)]
pub struct Refusal {
    pub fault: KbFault,
    /// Which parts make it too large, where it is; else nothing.
    pub lines: Vec<u8>,
}

/// A refusal without more lines.
fn plain(alloc: Global, error: KbError) -> Result<Option<Refusal>, Memory> {
    match error {
        KbError::Refused(fault) => Ok(Some(Refusal {
            fault,
            lines: Vec::new(alloc),
        })),
        KbError::Memory => Err(Memory),
    }
}

/// What is above its limit where a size is refused at this place: the weight at the theory's first word, the ground
/// atoms at a declaration.
fn excess_at(file: &TypedFile, place: usize) -> Option<Excess> {
    if let Some(first) = file.kb.places.theories.get(file.picked.theory)
        && *first == place
    {
        return Some(Excess::Weight);
    }
    if file.kb.places.symbols.as_slice().contains(&place) {
        return Some(Excess::Atoms);
    }
    None
}

/// The parts that may be above the limit.
fn parts_in(
    alloc: Global,
    file: &TypedFile,
    domains: &Domains<'_, '_>,
    excess: Excess,
) -> Result<Vec<Part>, Memory> {
    match excess {
        Excess::Atoms => atoms_in(alloc, file, domains),
        Excess::Weight | Excess::Open => weights_in(alloc, file, domains),
    }
}

/// The lines over types, whose elements are counted and not listed.
fn lines_over(
    alloc: Global,
    bytes: &[u8],
    file: &TypedFile,
    types: &[TypeData<'_>],
    excess: Excess,
) -> Result<Vec<u8>, Memory>
    requires { AllByRecursion IsCountable types.now }
{
    let counts = counts_of(alloc, types)?;
    let domains = Domains::counted(types, counts);
    let parts = parts_in(alloc, file, &domains, excess)?;
    lines_on(alloc, bytes, whole_weight(file, &domains), excess, &parts)
}

/// The lines on what the data leave open of a file that weighs so much.
fn open_lines(
    alloc: Global,
    bytes: &[u8],
    file: &TypedFile,
    known: &Partial,
    weight: u64,
) -> Result<Vec<u8>, Memory>
    requires { WeighingFits known.now (theory_at (typed_view file.now.kb) file.now.picked.theory)
        (map (λ t. t.term) (map named_term_view file.now.kb.terms)) }
{
    let parts = weights_in(alloc, file, &Domains::listed(known.domains()))?;
    let open = open_parts(alloc, file, known, &parts)?;
    lines_on(alloc, bytes, weight, Excess::Open, &open)
}

/// Why a size is refused at this place.
fn too_large(
    alloc: Global,
    bytes: &[u8],
    file: &TypedFile,
    structure: &RawStructure,
    fault: KbFault,
) -> Result<Option<Refusal>, Memory> {
    let Some(excess) = excess_at(file, fault.place) else {
        return plain(alloc, KbError::Refused(fault));
    };
    let entries = entries(alloc, &file.kb.vocab, structure)?;
    let types = types_of(alloc, file.kb.vocab.types.as_slice(), &entries)?;
    let lines = lines_over(alloc, bytes, file, &types, excess)?;
    Ok(Some(Refusal { fault, lines }))
}

/// Why a knowledge base is refused that no stage refuses: by what it leaves open.
fn left_open(
    alloc: Global,
    bytes: &[u8],
    file: &TypedFile,
    known: &Partial,
    weight: u64,
) -> Result<Option<Refusal>, Memory>
    requires { WeighingFits known.now (theory_at (typed_view file.now.kb) file.now.picked.theory)
        (map (λ t. t.term) (map named_term_view file.now.kb.terms)) }
{
    let Some(place) = file.kb.places.theories.get(file.picked.theory) else {
        return Ok(None);
    };
    if weight <= OPEN_LIMIT {
        return Ok(None);
    }
    let lines = open_lines(alloc, bytes, file, known, weight)?;
    let fault = KbFault {
        cause: K::TooLarge,
        place: *place,
    };
    Ok(Some(Refusal { fault, lines }))
}

/// Why the typed file is refused with its data.
fn explained_over(alloc: Global, bytes: &[u8], file: &TypedFile) -> Result<Option<Refusal>, Memory>
    requires { IsAcceptedFile (typed_view file.now.kb) }
{
    accepted_can_be_grounded();
    accepted_is_bounded();
    small_bases_fit();
    let Some(structure) = file.raw.structures.as_slice().get(file.picked.structure) else {
        return Ok(None);
    };
    match read_data(alloc, &file.kb, file.picked.theory, structure) {
        Ok((known, sizes)) => left_open(alloc, bytes, file, &known, sizes.weight),
        Err(KbError::Refused(fault)) => too_large(alloc, bytes, file, structure, fault),
        Err(KbError::Memory) => Err(Memory),
    }
}

/// Why the bytes of a file are refused that are known to be too large: the first stage that refuses something says so,
/// and where none does, it is what the data leave open. Nothing where they are not refused at all. The file is read
/// once, and not narrowed.
pub fn explained(
    alloc: Global,
    bytes: &[u8],
    theory: Option<&str>,
    structure: Option<&str>,
) -> Result<Option<Refusal>, Memory> {
    match typed_file(alloc, bytes, theory, structure) {
        Ok(file) => explained_over(alloc, bytes, &file),
        Err(e) => plain(alloc, e),
    }
}
