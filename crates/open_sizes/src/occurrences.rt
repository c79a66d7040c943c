//! What is certain of formulas, and the open occurrences in them and in terms, in one walk.
ghost use Rattle.std.specs.Prelude.{◌≡◌, ◌+◌, ◌++◌, [], false, fold, map, sum_by};
ghost use Rattle.std.specs.List.{AllByRecursion};
ghost use Rattle.kb_logic.specs.Structures.{choices};
ghost use Rattle.kb_logic.specs.Trees.{formulas_of, summands_of, terms_of};
ghost use Rattle.kb_logic.specs.Views.{formula_view, signed_view, term_view};
ghost use Rattle.kb_logic.specs.Weights.{applications_count};
ghost use Rattle.plain_evaluation.specs.Environments.{env_view};
ghost use Rattle.certain_truth.specs.Certainty.{certain_truth};
ghost use Rattle.certain_truth.specs.Evaluation.{parts_of};
ghost use Rattle.certain_truth.specs.Evaluation.{joined as joined_truth};
ghost use Rattle.certain_truth.specs.KnownArithmetic.{CertaintyFits, OperandsFit, PartsFit, ValueFits, ValuesFit};
ghost use Rattle.stage_definitions.specs.SizesStage.{capped};
ghost use Rattle.open_sizes.specs.OpenWeights.{open_in_asked, open_in_parts, open_in_summands, open_in_term};
ghost use Rattle.open_sizes.specs.OpenWeights.{open_in_terms, open_occurrences, where_open};
ghost use Rattle.open_sizes.specs.Weighings.{is_all, is_over, IsWeighed};

use crate::connectives::{Joining, is_false, is_open, is_over};
use crate::setting::{Setting, all_applications, applications, certain_in, choices_of, is_known};
use crate::weighed::{Weighed, certain, denied, equated, implied, joined, none_yet, settled};
use kb_logic::{Bound, Formula, Signed, Term};
use partial_structures::Truth;
use plain_evaluation::environments::{Env, extend, split_in};
use size_stage::capped::{plus, times};

/// The open occurrences in a term.
#[cycle(occurrences)]
fn term<'a>(setting: Setting<'a>, of: &'a Term, env: &'a Env<'a>) -> u64
    requires { ValueFits setting.known.now (term_view of.now) (env_view env.now) }
    ensures { result ≡ capped (open_in_term setting.entry.vocabulary.now setting.entry.known.now (term_view of.now)
        (env_view env.now)) }
{
    match of {
        Term::Apply(_, args) => terms(setting, args, env),
        Term::Sum(parts) => summands(setting, parts, env),
        Term::Product(factors) => terms(setting, factors, env),
        Term::Agg(_, bounds, condition, weight) => {
            if is_known(setting, of, env) {
                return 0;
            }
            let own = times(choices_of(setting, bounds), applications(setting, weight));
            gathered(setting, bounds, condition, weight, env, own)
        }
        Term::Var(_) => 0,
        Term::Int(_) => 0,
        Term::Made(_, _) => 0,
    }
}

#[cycle(occurrences)]
fn terms<'a>(setting: Setting<'a>, all: &'a [Term], env: &'a Env<'a>) -> u64
    requires { ValuesFit setting.known.now (terms_of (map term_view all.now)) (env_view env.now) }
    ensures { result ≡ capped (open_in_terms setting.entry.vocabulary.now setting.entry.known.now
        (terms_of (map term_view all.now)) (env_view env.now)) }
{
    let mut count = 0u64;
    for one in all {
        count = plus(count, term(setting, one, env));
    }
    count
}

#[cycle(occurrences)]
fn summands<'a>(setting: Setting<'a>, parts: &'a [Signed], env: &'a Env<'a>) -> u64
    requires { OperandsFit setting.known.now (summands_of (map signed_view parts.now)) (env_view env.now) }
    ensures { result ≡ capped (open_in_summands setting.entry.vocabulary.now setting.entry.known.now
        (summands_of (map signed_view parts.now)) (env_view env.now)) }
{
    let mut count = 0u64;
    for part in parts {
        count = plus(count, term(setting, &part.term, env));
    }
    count
}

/// The open occurrences in an aggregate's condition and weight under each assignment, more than before.
#[cycle(occurrences)]
fn gathered<'a>(
    setting: Setting<'a>,
    bounds: &'a [Bound],
    condition: &'a Formula,
    weight: &'a Term,
    env: &'a Env<'a>,
    before: u64,
) -> u64
    requires { AllByRecursion (λ a. CertaintyFits setting.known.now (formula_view condition.now) (env_view env.now ++ a)
        × ValueFits setting.known.now (term_view weight.now) (env_view env.now ++ a))
        (choices setting.known.now.domains bounds.now) }
    ensures { result ≡ fold (λ n a. capped (n + (open_occurrences setting.entry.vocabulary.now setting.entry.known.now
        (formula_view condition.now) (env_view env.now ++ a) + open_in_term setting.entry.vocabulary.now
        setting.entry.known.now (term_view weight.now) (env_view env.now ++ a)))) before
        (choices setting.entry.known.now.domains bounds.now) }
{
    if bounds.is_empty() {
        let condition = formula(setting, condition, env);
        let more = plus(condition.count, term(setting, weight, env));
        return plus(before, more);
    }
    let (block, others) = split_in(setting.known.domains().as_slice(), bounds);
    let mut count = before;
    for number in 0..block.count {
        let inner = extend(env, block, number);
        count = gathered(setting, others, condition, weight, &inner, count);
    }
    count
}

/// What is certain of a formula, and its open occurrences.
#[cycle(occurrences)]
pub(crate) fn formula<'a>(setting: Setting<'a>, of: &'a Formula, env: &'a Env<'a>) -> Weighed
    requires { CertaintyFits setting.known.now (formula_view of.now) (env_view env.now) }
    ensures { IsWeighed setting.entry.vocabulary.now setting.entry.known.now (formula_view of.now) (env_view env.now)
        result }
{
    match of {
        Formula::True => certain(Truth::Yes),
        Formula::False => certain(Truth::No),
        Formula::Atom(_, args) => atom(setting, certain_in(setting, of, env), args, env),
        Formula::Compare(_, left, right) => {
            let truth = certain_in(setting, of, env);
            if !is_open(truth) {
                return certain(truth);
            }
            let own = times(applications(setting, left), applications(setting, right));
            let sides = plus(
                plus(own, term(setting, left, env)),
                term(setting, right, env),
            );
            Weighed {
                truth,
                count: sides,
            }
        }
        Formula::Not(inner) => denied(formula(setting, inner, env)),
        Formula::And(parts) => settled(formulas(setting, Joining::Conjunction, parts, env)),
        Formula::Or(parts) => settled(formulas(setting, Joining::Disjunction, parts, env)),
        Formula::Implies(left, right) => {
            let first = formula(setting, left, env);
            if is_false(first.truth) {
                return certain(Truth::Yes);
            }
            implied(first, formula(setting, right, env))
        }
        Formula::Iff(left, right) => {
            let first = formula(setting, left, env);
            equated(first, formula(setting, right, env))
        }
        Formula::All(bounds, inner) => {
            let before = none_yet(Joining::Conjunction);
            settled(instances(setting, Joining::Conjunction, bounds, inner, env, before))
        }
        Formula::Any(bounds, inner) => {
            let before = none_yet(Joining::Disjunction);
            settled(instances(setting, Joining::Disjunction, bounds, inner, env, before))
        }
        Formula::Number(_, _, bounds, inner) => {
            numbered(setting, certain_in(setting, of, env), bounds, inner, env)
        }
    }
}

/// Of an atom of which so much is certain.
#[cycle(occurrences)]
fn atom<'a>(setting: Setting<'a>, truth: Truth, args: &'a [Term], env: &'a Env<'a>) -> Weighed
    requires { ValuesFit setting.known.now (terms_of (map term_view args.now)) (env_view env.now) }
    ensures truth { result.truth ≡ truth }
    ensures count { result.count ≡ capped (where_open truth (applications_count setting.entry.vocabulary.now
        setting.entry.known.now.domains (terms_of (map term_view args.now)) + open_in_terms
        setting.entry.vocabulary.now setting.entry.known.now (terms_of (map term_view args.now)) (env_view env.now))) }
{
    if !is_open(truth) {
        return certain(truth);
    }
    let count = plus(all_applications(setting, args), terms(setting, args, env));
    Weighed { truth, count }
}

/// Of a number quantifier of which so much is certain.
#[cycle(occurrences)]
fn numbered<'a>(
    setting: Setting<'a>,
    truth: Truth,
    bounds: &'a [Bound],
    of: &'a Formula,
    env: &'a Env<'a>,
) -> Weighed
    requires { AllByRecursion (λ a. CertaintyFits setting.known.now (formula_view of.now) (env_view env.now ++ a))
        (choices setting.known.now.domains bounds.now) }
    ensures truth { result.truth ≡ truth }
    ensures count { result.count ≡ capped (where_open truth (1 + sum_by (λ a. open_occurrences
        setting.entry.vocabulary.now setting.entry.known.now (formula_view of.now) (env_view env.now ++ a))
        (choices setting.entry.known.now.domains bounds.now))) }
{
    if !is_open(truth) {
        return certain(truth);
    }
    let before = none_yet(Joining::Survey);
    let all = instances(setting, Joining::Survey, bounds, of, env, before);
    Weighed {
        truth,
        count: all.count,
    }
}

/// Of parts of a conjunction or a disjunction, up to one that settles it.
#[cycle(occurrences)]
fn formulas<'a>(
    setting: Setting<'a>,
    joining: Joining,
    all: &'a [Formula],
    env: &'a Env<'a>,
) -> Weighed
    requires { PartsFit setting.known.now (formulas_of (map formula_view all.now)) (env_view env.now) }
    ensures truth { result.truth ≡ parts_of (is_all joining) setting.entry.known.now
        (formulas_of (map formula_view all.now)) (env_view env.now) }
    ensures count { is_over joining result.truth ≡ false → result.count ≡ capped (1 + open_in_parts
        setting.entry.vocabulary.now setting.entry.known.now (formulas_of (map formula_view all.now))
        (env_view env.now)) }
{
    let mut so_far = none_yet(joining);
    for one in all {
        if is_over(joining, so_far.truth) {
            return so_far;
        }
        so_far = joined(joining, so_far, formula(setting, one, env));
    }
    so_far
}

/// Of the formula under each assignment, more than before, up to one that settles it.
#[cycle(occurrences)]
pub(crate) fn instances<'a>(
    setting: Setting<'a>,
    joining: Joining,
    bounds: &'a [Bound],
    of: &'a Formula,
    env: &'a Env<'a>,
    before: Weighed,
) -> Weighed
    requires fits { AllByRecursion (λ a. CertaintyFits setting.known.now (formula_view of.now) (env_view env.now ++ a))
        (choices setting.known.now.domains bounds.now) }
    requires small { before.count ≡ capped before.count }
    ensures truth { result.truth ≡ fold (λ t a. joined_truth (is_all joining) t (certain_truth
        setting.entry.known.now (formula_view of.now) (env_view env.now ++ a))) before.truth
        (choices setting.entry.known.now.domains bounds.now) }
    ensures count { is_over joining result.truth ≡ false → result.count ≡ fold (λ n a. capped (n + open_occurrences
        setting.entry.vocabulary.now setting.entry.known.now (formula_view of.now) (env_view env.now ++ a)))
        before.count (choices setting.entry.known.now.domains bounds.now) }
    ensures small { result.count ≡ capped result.count }
{
    if bounds.is_empty() {
        return joined(joining, before, formula(setting, of, env));
    }
    let (block, others) = split_in(setting.known.domains().as_slice(), bounds);
    let mut so_far = before;
    for number in 0..block.count {
        if is_over(joining, so_far.truth) {
            return so_far;
        }
        let inner = extend(env, block, number);
        so_far = instances(setting, joining, others, of, &inner, so_far);
    }
    so_far
}

/// The open occurrences in a term that may be asked for.
pub(crate) fn in_asked<'a>(setting: Setting<'a>, of: &'a Term) -> u64
    requires { ValueFits setting.known.now (term_view of.now) [] }
    ensures { result ≡ capped (open_in_asked setting.entry.vocabulary.now setting.entry.known.now (term_view of.now)) }
{
    let env = Env::Given(&[]);
    if is_known(setting, of, &env) {
        return 0;
    }
    plus(applications(setting, of), term(setting, of, &env))
}
