//! What is weighed over, and what is asked of it.
ghost use Rattle.std.specs.Prelude.{◌≡◌, length, map, is_some};
ghost use Rattle.kb_logic.specs.Structures.{choices};
ghost use Rattle.kb_logic.specs.Trees.{terms_of};
ghost use Rattle.kb_logic.specs.Views.{formula_view, term_view};
ghost use Rattle.kb_logic.specs.Weights.{application_count, applications_count};
ghost use Rattle.plain_evaluation.specs.Environments.{env_view};
ghost use Rattle.certain_truth.specs.Certainty.{certain_truth, known_value};
ghost use Rattle.certain_truth.specs.KnownArithmetic.{CertaintyFits, ValueFits};
ghost use Rattle.stage_definitions.specs.SizesStage.{capped};

use certain_truth::{certain_formula, known_term};
use kb_logic::{Bound, Formula, Term, Vocabulary};
use partial_structures::{Partial, Truth};
use plain_evaluation::environments::Env;
use size_stage::applications::{in_term, in_terms};
use size_stage::counts::assignments;
use size_stage::domains::Domains;

/// A vocabulary, and what is known of the atoms over it.
#[derive(Clone, Copy)]
pub(crate) struct Setting<'a> {
    pub vocabulary: &'a Vocabulary,
    pub known: &'a Partial,
}

/// What is certain of the formula.
pub(crate) fn certain_in<'a>(setting: Setting<'a>, of: &'a Formula, env: &'a Env<'a>) -> Truth
    requires { CertaintyFits setting.known.now (formula_view of.now) (env_view env.now) }
    ensures { result ≡ certain_truth setting.entry.known.now (formula_view of.now) (env_view env.now) }
{
    certain_formula(&*setting.known, &*of, &*env)
}

/// Whether the term's value is known.
pub(crate) fn is_known<'a>(setting: Setting<'a>, of: &'a Term, env: &'a Env<'a>) -> bool
    requires { ValueFits setting.known.now (term_view of.now) (env_view env.now) }
    ensures { result ≡ is_some (known_value setting.entry.known.now (term_view of.now) (env_view env.now)) }
{
    known_term(&*setting.known, &*of, &*env).is_some()
}

/// The product of the sizes of the value types of the term's applications.
pub(crate) fn applications(setting: Setting<'_>, of: &Term) -> u64
    ensures { result ≡ capped (application_count setting.entry.vocabulary.now setting.entry.known.now.domains
        (term_view of.now)) }
{
    in_term(
        setting.vocabulary,
        &Domains::listed(setting.known.domains()),
        of,
    )
}

/// As `applications`, of all terms.
pub(crate) fn all_applications(setting: Setting<'_>, of: &[Term]) -> u64
    ensures { result ≡ capped (applications_count setting.entry.vocabulary.now setting.entry.known.now.domains
        (terms_of (map term_view of.now))) }
{
    in_terms(
        setting.vocabulary,
        &Domains::listed(setting.known.domains()),
        of,
    )
}

/// How many assignments these variables have.
pub(crate) fn choices_of(setting: Setting<'_>, bounds: &[Bound]) -> u64
    ensures { result ≡ capped (length (choices setting.entry.known.now.domains bounds.now)) }
{
    assignments(&Domains::listed(setting.known.domains()), bounds)
}
