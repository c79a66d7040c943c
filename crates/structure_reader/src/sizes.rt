//! The stage of sizes, over a partial structure, and over types whose elements are not listed yet.
ghost use Rattle.std.specs.Prelude.{List, IfErr, IfOk};
ghost use Rattle.std.specs.List.{AllByRecursion};
ghost use Rattle.data_domains.specs.TypeSets.{AreTypesOf};
ghost use Rattle.size_stage.specs.Counted.{IsCountable};
ghost use Rattle.size_stage.specs.Measures.{FailsWith, measure_view};
ghost use Rattle.stage_definitions.specs.DataDomains.{domains_of};
ghost use Rattle.stage_definitions.specs.DataEntries.{Said};
ghost use Rattle.stage_definitions.specs.SizesStage.{AreSizesOf};
ghost use Rattle.type_derivation.specs.TypedViews.{typed_view};

use data_domains::types::TypeData;
use grammar::KbError;
use partial_structures::Partial;
use size_stage::Measure;
use std::alloc::Global;
use type_derivation::TypedKb;

/// The number of ground atoms over the structure's domains and the weight of the theory with this number, or the
/// earliest refusal of the stage of sizes.
pub fn measure(alloc: Global, kb: &TypedKb, theory: usize, s: &Partial) -> Result<Measure, KbError>
    ensures ok { IfOk result (λ m. AreSizesOf (typed_view kb.now) theory s.now.domains (measure_view m)) }
    ensures err { IfErr result (FailsWith (typed_view kb.now) theory s.now.domains) }
{
    size_stage::measure(alloc, kb, theory, s.domains())
}

/// The same over the domains that some entries give types, which are counted and not listed.
pub fn sizes_of(
    alloc: Global,
    kb: &TypedKb,
    theory: usize,
    types: &[TypeData<'_>],
) -> Result<Measure, KbError>
    requires { AllByRecursion IsCountable types.now }
    ensures ok { IfOk result (λ m. (es : List Said) → AreTypesOf kb.now.vocab.types es types.now
        → AreSizesOf (typed_view kb.now) theory (domains_of kb.now.vocab.types es) (measure_view m)) }
    ensures err { IfErr result (λ e. (es : List Said) → AreTypesOf kb.now.vocab.types es types.now
        → FailsWith (typed_view kb.now) theory (domains_of kb.now.vocab.types es) e) }
{
    size_stage::measure_types(alloc, kb, theory, types)
}
