//! The stages of data and sizes, as a partial structure.
ghost use Rattle.std.specs.Prelude.{IfErr, IfOk, map};
ghost use Rattle.grammar.specs.BlockView.{structure_view};
ghost use Rattle.size_stage.specs.Measures.{measure_view};
ghost use Rattle.stage_definitions.specs.DataAnswer.{IsDataOf};
ghost use Rattle.structure_entries.specs.SaidViews.{said_view};
ghost use Rattle.structure_reader.specs.DataReads.{DataFailsWith, DataOrSizesFail, IsAccepted, IsMeasuredData};
ghost use Rattle.type_derivation.specs.TypedViews.{typed_view};

use crate::domains::domains_from;
use crate::noting::note_all;
use crate::sizes::sizes_of;
use data_domains::types::{TypeData, types_of};
use data_filling::fill;
use grammar::{KbError, RawStructure};
use partial_structures::Partial;
use size_stage::Measure;
use stage_definitions::Earliest;
use std::alloc::Global;
use structure_entries::entries::entries;
use structure_entries::written::Entry;
use type_derivation::TypedKb;

/// What a structure says beside the theory with this number, and the types with the elements that it gives them, which
/// are not listed yet; or the earliest refusal of the stage of data.
fn accepted<'a>(
    alloc: Global,
    kb: &'a TypedKb,
    theory: usize,
    raw: &'a RawStructure,
) -> Result<(Vec<Entry<'a>>, Vec<TypeData<'a>>), KbError>
    ensures ok { IfOk result (λ g. IsAccepted (typed_view kb.now) theory (structure_view raw.now)
        (map said_view g.0.items) g.1.items) }
    ensures err { IfErr result (DataFailsWith (typed_view kb.now) theory (structure_view raw.now)) }
{
    let Ok(entries) = entries(alloc, &kb.vocab, raw) else {
        return Err(KbError::Memory);
    };
    let Ok(types) = types_of(alloc, kb.vocab.types.as_slice(), &entries) else {
        return Err(KbError::Memory);
    };
    let mut earliest = Earliest::new();
    let Ok(()) = note_all(alloc, &mut earliest, kb, theory, &types, &entries) else {
        return Err(KbError::Memory);
    };
    if let Some(fault) = earliest.first {
        return Err(KbError::Refused(fault));
    }
    Ok((entries, types))
}

/// The partial structure that the text of a structure means beside the theory with this number, or the earliest
/// refusal of the stage of data.
pub fn read_structure(
    alloc: Global,
    kb: &TypedKb,
    theory: usize,
    raw: &RawStructure,
) -> Result<Partial, KbError>
    ensures ok { IfOk result (λ p. IsDataOf (typed_view kb.now) theory (structure_view raw.now) p) }
    ensures err { IfErr result (DataFailsWith (typed_view kb.now) theory (structure_view raw.now)) }
{
    let (entries, types) = match accepted(alloc, kb, theory, raw) {
        Ok(given) => given,
        Err(e) => return Err(e),
    };
    let Ok(domains) = domains_from(alloc, types) else {
        return Err(KbError::Memory);
    };
    match fill(alloc, &kb.vocab, domains, &entries) {
        Ok(partial) => Ok(partial),
        Err(_) => Err(KbError::Memory),
    }
}

/// The same, with the number of ground atoms over the structure's domains and the weight of the theory with this
/// number; or the earliest refusal of the stage of data or, where that refuses nothing, of the stage of sizes. No
/// element is listed, and no atom is made known, before all were counted.
pub fn read_data(
    alloc: Global,
    kb: &TypedKb,
    theory: usize,
    raw: &RawStructure,
) -> Result<(Partial, Measure), KbError>
    ensures ok { IfOk result (λ r. IsMeasuredData (typed_view kb.now) theory (structure_view raw.now) r.0
        (measure_view r.1)) }
    ensures err { IfErr result (DataOrSizesFail (typed_view kb.now) theory (structure_view raw.now)) }
{
    let (entries, types) = match accepted(alloc, kb, theory, raw) {
        Ok(given) => given,
        Err(e) => return Err(e),
    };
    let sizes = match sizes_of(alloc, kb, theory, &types) {
        Ok(sizes) => sizes,
        Err(e) => return Err(e),
    };
    let Ok(domains) = domains_from(alloc, types) else {
        return Err(KbError::Memory);
    };
    match fill(alloc, &kb.vocab, domains, &entries) {
        Ok(partial) => Ok((partial, sizes)),
        Err(_) => Err(KbError::Memory),
    }
}
