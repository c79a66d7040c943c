//! What one walk finds of a formula.
ghost use Rattle.std.specs.Prelude.{◌≡◌, ◌+◌, List};
ghost use Rattle.kb_logic.specs.declared.elements.Elem.{Elem};
ghost use Rattle.kb_logic.specs.declared.vocabularies.Vocabulary.{Vocabulary};
ghost use Rattle.kb_logic.specs.KnownAtoms.{KnownAtoms};
ghost use Rattle.kb_logic.specs.Trees.{equivalence, FormulaTree, implication, negation};
ghost use Rattle.certain_truth.specs.Certainty.{truth_if};
ghost use Rattle.certain_truth.specs.Evaluation.{joined as joined_truth};
ghost use Rattle.stage_definitions.specs.SizesStage.{capped};
ghost use Rattle.open_sizes.specs.OpenWeights.{where_open};
ghost use Rattle.open_sizes.specs.Weighings.{is_all, IsWeighed};

use crate::connectives::{Joining, alike, is_all, is_open, join, negate, truth_of};
use partial_structures::Truth;
use size_stage::capped::plus;

/// What is certain of a formula or of several, and their open occurrences.
#[derive(Clone, Copy)]
pub(crate) struct Weighed {
    pub truth: Truth,
    pub count: u64,
}

/// What is certain of parts or instances before the first one, and the occurrence of the formula whose they are.
pub(crate) fn none_yet(joining: Joining) -> Weighed
    ensures truth { result.truth ≡ truth_if (is_all joining) }
    ensures count { result.count ≡ 1 }
{
    Weighed {
        truth: truth_of(is_all(joining)),
        count: 1,
    }
}

/// Of what is certain nothing is open.
pub(crate) fn settled(of: Weighed) -> Weighed
    ensures truth { result.truth ≡ of.truth }
    ensures count { result.count ≡ where_open of.truth of.count }
{
    let count = if is_open(of.truth) { of.count } else { 0 };
    Weighed {
        truth: of.truth,
        count,
    }
}

/// What is certain, of which nothing is open.
pub(crate) fn certain(truth: Truth) -> Weighed
    ensures truth { result.truth ≡ truth }
    ensures count { result.count ≡ 0 }
{
    Weighed { truth, count: 0 }
}

/// With one part or instance more.
pub(crate) fn joined(joining: Joining, before: Weighed, more: Weighed) -> Weighed
    ensures truth { result.truth ≡ joined_truth (is_all joining) before.truth more.truth }
    ensures count { result.count ≡ capped (before.count + more.count) }
{
    Weighed {
        truth: join(is_all(joining), before.truth, more.truth),
        count: plus(before.count, more.count),
    }
}

/// The negation of a formula.
pub(crate) fn denied(part: Weighed) -> Weighed
    ensures { (v : Vocabulary) (k : KnownAtoms) (f : FormulaTree) (e : List Elem) → IsWeighed v k f e part
        → IsWeighed v k (negation f) e result }
{
    settled(Weighed {
        truth: negate(part.truth),
        count: plus(1, part.count),
    })
}

/// The implication of two formulas.
pub(crate) fn implied(left: Weighed, right: Weighed) -> Weighed
    ensures { (v : Vocabulary) (k : KnownAtoms) (f g : FormulaTree) (e : List Elem) → IsWeighed v k f e left
        → IsWeighed v k g e right → IsWeighed v k (implication f g) e result }
{
    settled(Weighed {
        truth: join(false, negate(left.truth), right.truth),
        count: plus(plus(1, left.count), right.count),
    })
}

/// The equivalence of two formulas.
pub(crate) fn equated(left: Weighed, right: Weighed) -> Weighed
    ensures { (v : Vocabulary) (k : KnownAtoms) (f g : FormulaTree) (e : List Elem) → IsWeighed v k f e left
        → IsWeighed v k g e right → IsWeighed v k (equivalence f g) e result }
{
    settled(Weighed {
        truth: alike(left.truth, right.truth),
        count: plus(plus(1, left.count), right.count),
    })
}
