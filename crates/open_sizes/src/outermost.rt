//! The open occurrences in sentences and in the bodies of rules, of whose instances only those are walked to which the
//! rows of a known table lead.
ghost use Rattle.std.specs.Prelude.{◌≡◌, ◌+◌, ◌++◌, [], false, fold, sum_by};
ghost use Rattle.std.specs.List.{AllByRecursion};
ghost use Rattle.kb_logic.specs.Structures.{choices};
ghost use Rattle.kb_logic.specs.Views.{formula_view};
ghost use Rattle.plain_evaluation.specs.Environments.{env_view};
ghost use Rattle.certain_truth.specs.Certainty.{certain_truth};
ghost use Rattle.certain_truth.specs.Evaluation.{joined as joined_truth};
ghost use Rattle.certain_truth.specs.KnownArithmetic.{CertaintyFits};
ghost use Rattle.row_ranges.specs.Leads.{IsInOrder, Leads};
ghost use Rattle.known_guards.specs.Guards.{IsRuledOut};
ghost use Rattle.stage_definitions.specs.SizesStage.{capped};
ghost use Rattle.open_sizes.specs.OpenWeights.{open_occurrences};
ghost use Rattle.open_sizes.specs.Weighings.{is_all, is_over, IsWeighed};

use crate::connectives::{Joining, is_all, is_over};
use crate::occurrences::{formula, instances};
use crate::setting::Setting;
use crate::weighed::{Weighed, denied, none_yet, settled};
use kb_logic::{Bound, Formula};
use known_guards::ranges_for;
use partial_structures::Truth;
use plain_evaluation::environments::{Env, extend};
use row_ranges::{RowPlace, first_variable};
use std::alloc::Global;

/// A formula whose instances are joined, and how.
#[derive(Clone, Copy)]
struct Joined<'a> {
    joining: Joining,
    of: &'a Formula,
}

/// As `instances`, where those to which none of the rows leads change nothing.
fn led<'a>(
    setting: Setting<'a>,
    whole: Joined<'a>,
    bounds: &'a [Bound],
    env: &'a Env<'a>,
    place: RowPlace<'_>,
    before: Weighed,
) -> Weighed
    requires fits { AllByRecursion (λ a. CertaintyFits setting.known.now (formula_view whole.of.now)
        (env_view env.now ++ a)) (choices setting.known.now.domains bounds.now) }
    requires led { Leads (IsRuledOut setting.known.now (is_all whole.joining) (formula_view whole.of.now))
        setting.known.now.domains place.keys.now place.key place.steps.now bounds.now (env_view env.now) }
    requires order { IsInOrder setting.known.now.domains place.keys.now place.key place.steps.now bounds.now }
    requires small { before.count ≡ capped before.count }
    ensures truth { result.truth ≡ fold (λ t a. joined_truth (is_all whole.entry.joining) t (certain_truth
        setting.entry.known.now (formula_view whole.entry.of.now) (env_view env.now ++ a))) before.truth
        (choices setting.entry.known.now.domains bounds.now) }
    ensures count { is_over whole.entry.joining result.truth ≡ false → result.count ≡ fold (λ n a. capped (n
        + open_occurrences setting.entry.vocabulary.now setting.entry.known.now (formula_view whole.entry.of.now)
        (env_view env.now ++ a))) before.count (choices setting.entry.known.now.domains bounds.now) }
    ensures small { result.count ≡ capped result.count }
{
    if bounds.is_empty() || place.is_free() {
        return instances(setting, whole.joining, bounds, whole.of, env, before);
    }
    let (block, others) = first_variable(setting.known.domains().as_slice(), bounds);
    let mut so_far = before;
    let mut index = place.next(0, block.count);
    while index < block.count {
        if is_over(whole.joining, so_far.truth) {
            return so_far;
        }
        let inner = extend(env, block, index);
        so_far = led(setting, whole, others, &inner, place.below(index), so_far);
        index = place.next(index + 1, block.count);
    }
    so_far
}

/// As `instances`, under no other variable.
fn outer_instances<'a>(
    alloc: Global,
    setting: Setting<'a>,
    joining: Joining,
    bounds: &'a [Bound],
    of: &'a Formula,
    before: Weighed,
) -> Weighed
    requires fits { AllByRecursion (CertaintyFits setting.known.now (formula_view of.now))
        (choices setting.known.now.domains bounds.now) }
    requires small { before.count ≡ capped before.count }
    ensures truth { result.truth ≡ fold (λ t a. joined_truth (is_all joining) t (certain_truth setting.entry.known.now
        (formula_view of.now) a)) before.truth (choices setting.entry.known.now.domains bounds.now) }
    ensures count { is_over joining result.truth ≡ false → result.count ≡ fold (λ n a. capped (n + open_occurrences
        setting.entry.vocabulary.now setting.entry.known.now (formula_view of.now) a)) before.count
        (choices setting.entry.known.now.domains bounds.now) }
{
    let env = Env::Given(&[]);
    if let Ok(Some(ranges)) = ranges_for(alloc, setting.known, is_all(joining), bounds, of) {
        return led(
            setting,
            Joined { joining, of },
            bounds,
            &env,
            ranges.place(),
            before,
        );
    }
    instances(setting, joining, bounds, of, &env, before)
}

/// What is certain of a sentence, and its open occurrences.
fn sentence<'a>(alloc: Global, setting: Setting<'a>, of: &'a Formula) -> Weighed
    requires { CertaintyFits setting.known.now (formula_view of.now) [] }
    ensures { IsWeighed setting.entry.vocabulary.now setting.entry.known.now (formula_view of.now) [] result }
{
    match of {
        Formula::Not(inner) => denied(sentence(alloc, setting, inner)),
        Formula::All(bounds, inner) => {
            let before = none_yet(Joining::Conjunction);
            settled(outer_instances(alloc, setting, Joining::Conjunction, bounds, inner, before))
        }
        Formula::Any(bounds, inner) => {
            let before = none_yet(Joining::Disjunction);
            settled(outer_instances(alloc, setting, Joining::Disjunction, bounds, inner, before))
        }
        _ => formula(setting, of, &Env::Given(&[])),
    }
}

/// The open occurrences in a sentence.
pub(crate) fn in_sentence<'a>(alloc: Global, setting: Setting<'a>, of: &'a Formula) -> u64
    requires { CertaintyFits setting.known.now (formula_view of.now) [] }
    ensures { result ≡ capped (open_occurrences setting.entry.vocabulary.now setting.entry.known.now
        (formula_view of.now) []) }
{
    sentence(alloc, setting, of).count
}

/// The open occurrences in a formula under all assignments of its variables.
pub(crate) fn in_instances<'a>(
    alloc: Global,
    setting: Setting<'a>,
    bounds: &'a [Bound],
    of: &'a Formula,
) -> u64
    requires { AllByRecursion (CertaintyFits setting.known.now (formula_view of.now))
        (choices setting.known.now.domains bounds.now) }
    ensures { result ≡ capped (sum_by (open_occurrences setting.entry.vocabulary.now setting.entry.known.now
        (formula_view of.now)) (choices setting.entry.known.now.domains bounds.now)) }
{
    let before = Weighed {
        truth: Truth::No,
        count: 0,
    };
    outer_instances(alloc, setting, Joining::Survey, bounds, of, before).count
}
