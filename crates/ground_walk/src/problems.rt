//! The ground problem of sentences over what is known.
ghost use Rattle.std.specs.Prelude.{◌≡◌, ◌≤◌, ◌^◌, [], length, map, IfOk};
ghost use Rattle.std.specs.List.{AllByRecursion};
ghost use Rattle.kb_logic.specs.Views.{formula_view};
ghost use Rattle.term_values.specs.KnownBases.{IsGroundBase};
ghost use Rattle.def_ground.specs.Problems.{problem_of as problem_of_sentences};
ghost use Rattle.ground_walk.specs.Groundable.{HasVars, IsGroundable, KnowsAtoms};

use crate::sentences::push_sentence;
use crate::starts::start;
use ground_core::{Memory, Problem};
use kb_logic::Formula;
use std::alloc::Global;
use term_values::GroundData;

/// The ground problem of the sentences.
pub fn problem_of(
    alloc: Global,
    base: &GroundData<'_>,
    sentences: &[Formula],
) -> Result<Problem, Memory>
    requires given { IsGroundBase base.now }
    requires known { KnowsAtoms base.now }
    requires few { length base.now.vocabulary.symbols ≤ 2 ^ 32 }
    requires fits { AllByRecursion (λ f. IsGroundable base.now f []) (map formula_view sentences.now) }
    ensures made { IfOk result (λ p. p ≡ problem_of_sentences base.now (map formula_view sentences.now)) }
    ensures room { IfOk result (λ p. HasVars base.now p) }
{
    let mut problem = start(alloc, base)?;
    for sentence in sentences {
        push_sentence(alloc, base, sentence, &mut problem)?;
    }
    Ok(problem)
}
