//! The theories of a file, and what they weigh.
ghost use Rattle.std.specs.Prelude.{◌≡◌, ◌≤◌, ◌<◌, ◌^◌, length, map};
ghost use Rattle.kb_logic.specs.Bases.{NamedTerm};
ghost use Rattle.kb_logic.specs.Views.{theory_view};
ghost use Rattle.stage_definitions.specs.FileBases.{base_of_file, theory_at};
ghost use Rattle.stage_definitions.specs.SizesStage.{capped};
ghost use Rattle.type_derivation.specs.TypedViews.{typed_view};
ghost use Rattle.open_sizes.specs.Fits.{WeighingFits};
ghost use Rattle.open_sizes.specs.OpenWeights.{base_weight, open_weight as weight_of_open, terms_in};

use kb_logic::Theory;
use open_sizes::open_weight;
use partial_structures::Partial;
use size_stage::weight;
use std::alloc::Global;
use type_derivation::TypedKb;

/// The theory with this number.
pub fn theory_of(kb: &TypedKb, theory: usize) -> &Theory
    requires { theory < length kb.now.theories }
    ensures { theory_view result.now ≡ theory_at (typed_view kb.now) theory }
{
    &kb.theories.as_slice()[theory].value
}

/// The weight of the theory with all terms that may be asked for, or the greatest number of 64 bits.
pub fn weight_at(kb: &TypedKb, theory: usize, known: &Partial) -> u64
    requires { theory < length kb.now.theories }
    ensures { result ≡ capped (base_weight (base_of_file (typed_view kb.now) theory known.now)) }
{
    weight(
        &kb.vocab,
        known.domains(),
        theory_of(kb, theory),
        kb.terms.as_slice(),
    )
}

/// The weight of what is open of them where this is known, or the greatest number of 64 bits.
pub fn open_weight_at(alloc: Global, kb: &TypedKb, theory: usize, known: &Partial) -> u64
    requires theory { theory < length kb.now.theories }
    requires few { length known.now.symbols ≤ 2 ^ 32 }
    requires fits { WeighingFits known.now (theory_at (typed_view kb.now) theory)
        (terms_in (base_of_file (typed_view kb.now) theory known.now)) }
    ensures { result
        ≡ capped (weight_of_open (base_of_file (typed_view kb.now) theory known.now) known.now) }
{
    open_weight(
        alloc,
        &kb.vocab,
        known,
        theory_of(kb, theory),
        kb.terms.as_slice(),
    )
}
