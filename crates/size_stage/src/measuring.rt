//! The stage of sizes.
ghost use Rattle.std.specs.Prelude.{◌≡◌, fold, map, slice_get, IfErr, IfOk, OnOk, Some};
ghost use Rattle.std.specs.List.{AllByRecursion};
ghost use Rattle.size_stage.specs.Counted.{elements_of, IsCountable};
ghost use Rattle.size_stage.specs.Measures.{FailsWith, measure_view};
ghost use Rattle.size_stage.specs.Ranges.{range_view, ranges_in};
ghost use Rattle.stage_definitions.specs.SizesStage.{capped, size_noted, size_uses, weight_in, AreSizesOf};
ghost use Rattle.stage_definitions.specs.TypedFiles.{TypedTheoryTree};
ghost use Rattle.type_derivation.specs.TypedViews.{typed_view};

use crate::domain_integers::domain_ranges;
use crate::domains::Domains;
use crate::measures::Measure;
use crate::notes::{note_blocks, note_symbols, note_theory, note_weight};
use crate::ranges::Range;
use crate::type_sizes::{counts_of, ranges_of};
use crate::weights::{atoms, weight};
use data_domains::types::TypeData;
use grammar::KbError;
use kb_logic::{DomainList, Memory};
use stage_definitions::Earliest;
use std::alloc::Global;
use type_derivation::TypedKb;

fn note_all(
    alloc: Global,
    kb: &TypedKb,
    theory: usize,
    domains: &Domains<'_, '_>,
    ranges: &[Range],
    earliest: &mut Earliest,
) -> Result<(), Memory>
    requires known { map range_view ranges.now ≡ ranges_in domains.now }
    ensures { OnOk result (earliest.new.first ≡ fold size_noted earliest.old.first (size_uses (typed_view kb.now) theory
        domains.now)) }
{
    note_symbols(
        earliest,
        kb.places.symbols.as_slice(),
        domains,
        kb.vocab.symbols.as_slice(),
    );
    note_theory(alloc, kb, theory, domains, ranges, earliest)?;
    note_blocks(alloc, kb, domains, ranges, earliest)?;
    note_weight(kb, theory, domains, earliest);
    Ok(())
}

/// The weight of the theory with this number, where there is one.
fn theory_weight(kb: &TypedKb, theory: usize, domains: &Domains<'_, '_>) -> u64
    ensures { (t : TypedTheoryTree) → slice_get (typed_view kb.now).theories theory ≡ Some t → result
        ≡ capped (weight_in
        (typed_view kb.now) domains.now t) }
{
    match kb.theories.get(theory) {
        Some(named) => weight(&kb.vocab, domains, &named.value, kb.terms.as_slice()),
        None => 0,
    }
}

/// The same over domains of which the numbers of elements and the ranges are known.
fn measure_over(
    alloc: Global,
    kb: &TypedKb,
    theory: usize,
    domains: &Domains<'_, '_>,
    ranges: &[Range],
) -> Result<Measure, KbError>
    requires known { map range_view ranges.now ≡ ranges_in domains.now }
    ensures ok { IfOk result (λ m. AreSizesOf (typed_view kb.now) theory domains.now (measure_view m)) }
    ensures err { IfErr result (FailsWith (typed_view kb.now) theory domains.now) }
{
    let mut earliest = Earliest::new();
    match note_all(alloc, kb, theory, domains, ranges, &mut earliest) {
        Ok(()) => match earliest.first {
            None => Ok(Measure {
                atoms: atoms(&kb.vocab, domains),
                weight: theory_weight(kb, theory, domains),
            }),
            Some(fault) => Err(KbError::Refused(fault)),
        },
        Err(_) => Err(KbError::Memory),
    }
}

/// The number of ground atoms over these domains and the weight of the theory with this number, or the earliest
/// refusal of the stage of sizes.
pub fn measure(
    alloc: Global,
    kb: &TypedKb,
    theory: usize,
    domains: &DomainList,
) -> Result<Measure, KbError>
    ensures ok { IfOk result (λ m. AreSizesOf (typed_view kb.now) theory domains.now (measure_view m)) }
    ensures err { IfErr result (FailsWith (typed_view kb.now) theory domains.now) }
{
    let Ok(ranges) = domain_ranges(alloc, domains) else {
        return Err(KbError::Memory);
    };
    measure_over(alloc, kb, theory, &Domains::listed(domains), &ranges)
}

/// The same over the elements of types, which are counted by their sets and not listed.
pub fn measure_types(
    alloc: Global,
    kb: &TypedKb,
    theory: usize,
    types: &[TypeData<'_>],
) -> Result<Measure, KbError>
    requires { AllByRecursion IsCountable types.now }
    ensures ok { IfOk result (λ m. AreSizesOf (typed_view kb.now) theory (map elements_of types.now) (measure_view m)) }
    ensures err { IfErr result (FailsWith (typed_view kb.now) theory (map elements_of types.now)) }
{
    let Ok(counts) = counts_of(alloc, types) else {
        return Err(KbError::Memory);
    };
    let Ok(ranges) = ranges_of(alloc, types) else {
        return Err(KbError::Memory);
    };
    measure_over(alloc, kb, theory, &Domains::counted(types, counts), &ranges)
}
