//! The weight of what is open in a theory and in the terms that may be asked for.
ghost use Rattle.std.specs.Prelude.{◌≡◌, ◌≤◌, ◌^◌, [], length, map, sum_by};
ghost use Rattle.std.specs.List.{AllByRecursion};
ghost use Rattle.kb_logic.specs.Views.{definition_view, formula_view, rule_view, term_view, theory_view};
ghost use Rattle.kb_logic.specs.Trees.{DefinitionTree};
ghost use Rattle.certain_truth.specs.KnownArithmetic.{CertaintyFits, ValueFits};
ghost use Rattle.stage_definitions.specs.SizesStage.{capped};
ghost use Rattle.type_derivation.specs.TypedViews.{named_term_view};
ghost use Rattle.open_sizes.specs.Fits.{BodyFits, WeighingFits};
ghost use Rattle.open_sizes.specs.OpenWeights.{open_in_asked, open_in_body, open_in_definition, open_in_rule};
ghost use Rattle.open_sizes.specs.OpenWeights.{open_occurrences, open_weight_of};

use crate::atoms::unknown;
use crate::occurrences::in_asked;
use crate::outermost::{in_instances, in_sentence};
use crate::setting::{Setting, choices_of};
use kb_logic::{Definition, Formula, Rule, Term, Theory, Vocabulary};
use partial_structures::Partial;
use size_stage::capped::{plus, times};
use std::alloc::Global;
use type_derivation::Named;

fn sentences(alloc: Global, setting: Setting<'_>, all: &[Formula]) -> u64
    requires { AllByRecursion (λ f. CertaintyFits setting.known.now f []) (map formula_view all.now) }
    ensures { result ≡ capped (sum_by (λ f. open_occurrences setting.entry.vocabulary.now setting.entry.known.now f [])
        (map formula_view all.now)) }
{
    let mut count = 0u64;
    for one in all {
        count = plus(count, in_sentence(alloc, setting, one));
    }
    count
}

fn body(alloc: Global, setting: Setting<'_>, rule: &Rule) -> u64
    requires { BodyFits setting.known.now (rule_view rule.now) }
    ensures { result ≡ capped (open_in_body setting.entry.vocabulary.now setting.entry.known.now (rule_view rule.now)) }
{
    if rule.has_body {
        in_instances(alloc, setting, rule.vars.as_slice(), &rule.body)
    } else {
        0
    }
}

fn in_rule(alloc: Global, setting: Setting<'_>, rule: &Rule) -> u64
    requires { BodyFits setting.known.now (rule_view rule.now) }
    ensures { result ≡ capped (open_in_rule setting.entry.vocabulary.now setting.entry.known.now (rule_view rule.now)) }
{
    let heads = choices_of(setting, rule.vars.as_slice());
    plus(plus(1, heads), body(alloc, setting, rule))
}

fn rules(alloc: Global, setting: Setting<'_>, all: &[Rule]) -> u64
    requires { AllByRecursion (BodyFits setting.known.now) (map rule_view all.now) }
    ensures { result ≡ capped (sum_by (open_in_rule setting.entry.vocabulary.now setting.entry.known.now)
        (map rule_view all.now)) }
{
    let mut count = 0u64;
    for one in all {
        count = plus(count, in_rule(alloc, setting, one));
    }
    count
}

fn definitions(alloc: Global, setting: Setting<'_>, all: &[Definition]) -> u64
    requires { AllByRecursion (λ d. AllByRecursion (BodyFits setting.known.now) d.rules)
        (map definition_view all.now) }
    ensures { result ≡ capped (sum_by (open_in_definition setting.entry.vocabulary.now setting.entry.known.now)
        (map definition_view all.now)) }
{
    let mut count = 0u64;
    for one in all {
        count = plus(count, rules(alloc, setting, one.rules.as_slice()));
    }
    count
}

fn asked(setting: Setting<'_>, all: &[Named<Term>]) -> u64
    requires { AllByRecursion (λ t. ValueFits setting.known.now t []) (map (λ t. t.term) (map named_term_view all.now)) }
    ensures { result ≡ capped (sum_by (open_in_asked setting.entry.vocabulary.now setting.entry.known.now)
        (map (λ t. t.term) (map named_term_view all.now))) }
{
    let mut count = 0u64;
    for one in all {
        count = plus(count, in_asked(setting, &one.value));
    }
    count
}

/// The open occurrences in a sentence, or the greatest number of 64 bits.
pub fn open_in_sentence(
    alloc: Global,
    vocabulary: &Vocabulary,
    known: &Partial,
    sentence: &Formula,
) -> u64
    requires { CertaintyFits known.now (formula_view sentence.now) [] }
    ensures { result ≡ capped (open_occurrences vocabulary.now known.now (formula_view sentence.now) []) }
{
    in_sentence(alloc, Setting { vocabulary, known }, sentence)
}

/// The open occurrences in a definition, or the greatest number of 64 bits.
pub fn open_in_definition(
    alloc: Global,
    vocabulary: &Vocabulary,
    known: &Partial,
    definition: &Definition,
) -> u64
    requires { AllByRecursion (BodyFits known.now) (map rule_view definition.now.rules) }
    ensures { result ≡ capped (open_in_definition vocabulary.now known.now (definition_view definition.now)) }
{
    let setting = Setting { vocabulary, known };
    rules(alloc, setting, definition.rules.as_slice())
}

/// The open occurrences in a term that may be asked for, or the greatest number of 64 bits.
pub fn open_in_asked(vocabulary: &Vocabulary, known: &Partial, term: &Term) -> u64
    requires { ValueFits known.now (term_view term.now) [] }
    ensures { result ≡ capped (open_in_asked vocabulary.now known.now (term_view term.now)) }
{
    in_asked(Setting { vocabulary, known }, term)
}

/// The weight of what is open in the theory and in the terms that may be asked for, where this is known of the
/// atoms: at most the greatest number of 64 bits. Memory is taken for the rows of known tables and for what is known of
/// one symbol's atoms; where there is none, all instances and atoms are walked.
///
/// The vocabulary is the one over whose atoms it is known.
pub fn open_weight(
    alloc: Global,
    vocabulary: &Vocabulary,
    known: &Partial,
    theory: &Theory,
    terms: &[Named<Term>],
) -> u64
    requires few { length known.now.symbols ≤ 2 ^ 32 }
    requires fits { WeighingFits known.now (theory_view theory.now) (map (λ t. t.term) (map named_term_view terms.now)) }
    ensures { result ≡ capped (open_weight_of vocabulary.now known.now (theory_view theory.now) (map (λ t. t.term)
        (map named_term_view terms.now))) }
{
    let setting = Setting { vocabulary, known };
    let in_sentences = sentences(alloc, setting, theory.sentences.as_slice());
    let in_definitions = definitions(alloc, setting, theory.definitions.as_slice());
    let in_terms = asked(setting, terms);
    let all = plus(plus(in_sentences, in_definitions), in_terms);
    plus(unknown(alloc, known), times(4, all))
}
