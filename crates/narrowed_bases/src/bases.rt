//! The data of a knowledge base, narrowed before it is grounded.
ghost use Rattle.std.specs.Prelude.{◌≡◌, ◌≤◌, ◌<◌, ◌^◌, length, IfOk, IfErr};
ghost use Rattle.kb_logic.specs.Bounds.{TheoryIsBounded};
ghost use Rattle.stage_definitions.specs.FileBases.{base_of_file, theory_at};
ghost use Rattle.type_derivation.specs.TypedViews.{typed_view};
ghost use Rattle.def_ground.specs.Groundings.{IsGroundTheory, TermsAreBounded};
ghost use Rattle.open_sizes.specs.Fits.{WeighingFits};
ghost use Rattle.open_sizes.specs.OpenWeights.{open_weight, terms_in};
ghost use Rattle.stage_definitions.specs.SizesStage.{open_limit};
ghost use Rattle.narrowed_bases.specs.Narrowings.{IsNarrowing, IsLight, IsTooOpen};
ghost use Rattle.narrowed_bases.specs.declared.errors.NarrowError.TheVariants.{TooLarge};
ghost use Rattle.narrowed_bases.specs.declared.narrowings.Narrowing.TheVariants.{Narrowed};

use crate::errors::NarrowError;
use crate::narrowings::Narrowing;
use crate::theories::{open_weight_at, theory_of, weight_at};
use open_sizes::laws::{open_is_less, small_bases_fit};
use partial_structures::Partial;
use quantifier_bounds::BoundFault;
use refinement::refine;
use std::alloc::Global;
use type_derivation::TypedKb;

/// The greatest weight of what narrowed data leave open, and of a knowledge base whose data are not narrowed.
const OPEN_LIMIT: u64 = 4_000_000;

/// The narrowed data, where what they leave open is within its limit.
fn weighed(
    alloc: Global,
    kb: &TypedKb,
    theory: usize,
    known: Partial,
) -> Result<Narrowing, NarrowError>
    requires theory { theory < length kb.now.theories }
    requires few { length known.symbols ≤ 2 ^ 32 }
    requires fits { WeighingFits known (theory_at (typed_view kb.now) theory)
        (terms_in (base_of_file (typed_view kb.now) theory known)) }
    ensures same { IfOk result (λ n. n ≡ Narrowed known) }
    ensures light { IfOk result (λ n. open_weight (base_of_file (typed_view kb.now) theory known) known ≤ open_limit) }
    ensures heavy { IfErr result (λ e. (e ≡ TooLarge)
        × (open_limit < open_weight (base_of_file (typed_view kb.now) theory known) known)) }
{
    if open_weight_at(alloc, kb, theory, &known) > OPEN_LIMIT {
        return Err(NarrowError::TooLarge);
    }
    Ok(Narrowing::Narrowed(known))
}

/// What the data of the theory with this number are narrowed to: nothing is done where the whole weight is small.
///
/// The theory and the terms are well typed over the domains of the data, and the bounds of all terms lie from -10^15 to
/// 10^15.
pub fn narrow(
    alloc: Global,
    kb: &TypedKb,
    theory: usize,
    known: &Partial,
) -> Result<Narrowing, NarrowError>
    requires theory { theory < length kb.now.theories }
    requires few { length kb.now.vocab.symbols ≤ 2 ^ 32 }
    requires typed { IsGroundTheory (base_of_file (typed_view kb.now) theory known.now) }
    requires bounded { TheoryIsBounded kb.now.vocab known.now.domains (theory_at (typed_view kb.now) theory) }
    requires asked { TermsAreBounded (base_of_file (typed_view kb.now) theory known.now) }
    ensures narrowing { IfOk result (λ n. IsNarrowing (base_of_file (typed_view kb.now) theory known.now) n) }
    ensures light { IfOk result (λ n. IsLight (base_of_file (typed_view kb.now) theory known.now)) }
    ensures err { IfErr result (λ e. IsTooOpen (base_of_file (typed_view kb.now) theory known.now) e) }
{
    open_is_less();
    small_bases_fit();
    if weight_at(kb, theory, known) <= OPEN_LIMIT {
        return Ok(Narrowing::Plain);
    }
    match refine(alloc, theory_of(kb, theory), known) {
        Ok(narrowed) => weighed(alloc, kb, theory, narrowed),
        Err(BoundFault::Contradiction) => Ok(Narrowing::Contradiction),
        Err(BoundFault::Memory) => Err(NarrowError::Memory),
    }
}
