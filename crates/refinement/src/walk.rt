//! A pass over the sentences, instance by instance, in which each change is followed at once.
ghost use Rattle.std.specs.Prelude.{◌≡◌, ◌++◌, [], map, true};
ghost use Rattle.std.specs.List.{AllByRecursion};
ghost use Rattle.kb_logic.specs.Structures.{choices};
ghost use Rattle.kb_logic.specs.Views.{formula_view};
ghost use Rattle.plain_evaluation.specs.Environments.{env_view};
ghost use Rattle.bound_laws.specs.Closures.{Obeys};
ghost use Rattle.row_ranges.specs.Leads.{IsInOrder, Leads};
ghost use Rattle.refinement.specs.Following.{SentencesFit, ObeysSentences, IsPart, AreParts, IsSettled, NarrowsWithin};

use crate::facts::Work;
use crate::following::{Course, follow_all, noted_instance};
use kb_logic::values::domain_in;
use kb_logic::{Bound, ElemList, Formula};
use known_guards::ranges_for;
use partial_structures::Partial;
use plain_evaluation::environments::{Env, extend, split_in};
use quantifier_bounds::{BoundFault, either, nth};
use row_ranges::{RowPlace, first_variable};

/// The instance must be true, and what becomes known is followed. Whether that was anything.
fn instance<'a>(
    known: &mut Partial,
    course: Course<'a>,
    work: &mut Work,
    formula: &'a Formula,
    env: &'a Env<'a>,
) -> Result<bool, BoundFault>
    requires symbols { course.setting.symbols.now ≡ known.old.symbols }
    requires domains { course.setting.domains.now ≡ known.old.domains }
    requires fits { SentencesFit course.setting.symbols.now course.setting.domains.now
        (map formula_view course.sentences.now) }
    requires part { IsPart course.setting.symbols.now course.setting.domains.now
        (map formula_view course.sentences.now) (formula_view formula.now) (env_view env.now) }
    ensures { NarrowsWithin known.old known.new result
        (ObeysSentences (map formula_view course.entry.sentences.now))
        (λ q. Obeys q true (formula_view formula.now) (env_view env.now)) }
{
    let changed = noted_instance(known, course, work, formula, env)?;
    if changed {
        follow_all(known, course, work)?;
    }
    Ok(changed)
}

/// Each instance of the sentence must be true.
fn instances<'a>(
    known: &mut Partial,
    course: Course<'a>,
    work: &mut Work,
    formula: &'a Formula,
    bounds: &'a [Bound],
    env: &'a Env<'a>,
) -> Result<bool, BoundFault>
    requires symbols { course.setting.symbols.now ≡ known.old.symbols }
    requires domains { course.setting.domains.now ≡ known.old.domains }
    requires fits { SentencesFit course.setting.symbols.now course.setting.domains.now
        (map formula_view course.sentences.now) }
    requires parts { AreParts course.setting.symbols.now course.setting.domains.now
        (map formula_view course.sentences.now) (formula_view formula.now) bounds.now (env_view env.now) }
    ensures { NarrowsWithin known.old known.new result
        (ObeysSentences (map formula_view course.entry.sentences.now))
        (λ q. AllByRecursion (λ a. Obeys q true (formula_view formula.now) (env_view env.now ++ a))
        (choices course.entry.setting.domains.now bounds.now)) }
{
    if bounds.is_empty() {
        return instance(known, course, work, formula, env);
    }
    let (block, others) = split_in(course.setting.domains, bounds);
    let mut changed = false;
    for turn in 0..block.count {
        let inner = extend(env, block, nth(course.setting.falling, turn, block.count));
        let more = instances(known, course, work, formula, others, &inner)?;
        changed = either(changed, more);
    }
    Ok(changed)
}

/// A formula of which instances are walked, and where the walk stands among the rows of a table that leads to them.
#[derive(Clone, Copy)]
struct Guided<'a, 'b> {
    formula: &'a Formula,
    place: RowPlace<'b>,
}

/// Each instance of the sentence that the rows lead to must be true.
fn guided_instances<'a, 'b>(
    known: &mut Partial,
    course: Course<'a>,
    work: &mut Work,
    guided: Guided<'a, 'b>,
    bounds: &'a [Bound],
    env: &'a Env<'a>,
) -> Result<bool, BoundFault>
    requires symbols { course.setting.symbols.now ≡ known.old.symbols }
    requires domains { course.setting.domains.now ≡ known.old.domains }
    requires fits { SentencesFit course.setting.symbols.now course.setting.domains.now
        (map formula_view course.sentences.now) }
    requires parts { AreParts course.setting.symbols.now course.setting.domains.now
        (map formula_view course.sentences.now) (formula_view guided.formula.now) bounds.now (env_view env.now) }
    requires led { Leads (IsSettled known.old (formula_view guided.formula.now)) course.setting.domains.now
        guided.place.keys.now guided.place.key guided.place.steps.now bounds.now (env_view env.now) }
    requires order { IsInOrder course.setting.domains.now guided.place.keys.now guided.place.key
        guided.place.steps.now bounds.now }
    ensures { NarrowsWithin known.old known.new result
        (ObeysSentences (map formula_view course.entry.sentences.now))
        (λ q. AllByRecursion (λ a. Obeys q true (formula_view guided.entry.formula.now) (env_view env.now ++ a))
        (choices course.entry.setting.domains.now bounds.now)) }
{
    if bounds.is_empty() || guided.place.is_free() {
        return instances(known, course, work, guided.formula, bounds, env);
    }
    let (block, others) = first_variable(course.setting.domains, bounds);
    let mut changed = false;
    known.consistency();
    let mut index = guided.place.next(0, block.count);
    while index < block.count {
        let inner = extend(env, block, index);
        let place = guided.place.below(index);
        let below = Guided { place, ..guided };
        let more = guided_instances(known, course, work, below, others, &inner)?;
        changed = either(changed, more);
        known.consistency();
        index = guided.place.next(index + 1, block.count);
    }
    Ok(changed)
}

// What a known table rules out is certainly true, and stays so. So where its rows are few they alone are walked.
/// Each instance of the sentence must be true.
fn all_instances<'a>(
    known: &mut Partial,
    course: Course<'a>,
    work: &mut Work,
    formula: &'a Formula,
    bounds: &'a [Bound],
) -> Result<bool, BoundFault>
    requires symbols { course.setting.symbols.now ≡ known.old.symbols }
    requires domains { course.setting.domains.now ≡ known.old.domains }
    requires fits { SentencesFit course.setting.symbols.now course.setting.domains.now
        (map formula_view course.sentences.now) }
    requires parts { AreParts course.setting.symbols.now course.setting.domains.now
        (map formula_view course.sentences.now) (formula_view formula.now) bounds.now [] }
    ensures { NarrowsWithin known.old known.new result
        (ObeysSentences (map formula_view course.entry.sentences.now))
        (λ q. AllByRecursion (λ a. Obeys q true (formula_view formula.now) a)
        (choices course.entry.setting.domains.now bounds.now)) }
{
    let Some(ranges) = ranges_for(course.setting.alloc, &*known, true, bounds, formula)? else {
        return instances(known, course, work, formula, bounds, &Env::Given(&[]));
    };
    let place = ranges.place();
    let guided = Guided { formula, place };
    guided_instances(known, course, work, guided, bounds, &Env::Given(&[]))
}

/// The sentence must be true.
fn sentence_must<'a>(
    known: &mut Partial,
    course: Course<'a>,
    work: &mut Work,
    sentence: &'a Formula,
) -> Result<bool, BoundFault>
    requires symbols { course.setting.symbols.now ≡ known.old.symbols }
    requires domains { course.setting.domains.now ≡ known.old.domains }
    requires fits { SentencesFit course.setting.symbols.now course.setting.domains.now
        (map formula_view course.sentences.now) }
    requires part { IsPart course.setting.symbols.now course.setting.domains.now
        (map formula_view course.sentences.now) (formula_view sentence.now) [] }
    ensures { NarrowsWithin known.old known.new result
        (ObeysSentences (map formula_view course.entry.sentences.now))
        (λ q. Obeys q true (formula_view sentence.now) []) }
{
    match sentence {
        Formula::All(bounds, inner) => all_instances(known, course, work, inner, bounds),
        _ => instance(known, course, work, &*sentence, &Env::Given(&[])),
    }
}

/// Each sentence must be true.
pub(crate) fn sentences_walked<'a>(
    known: &mut Partial,
    course: Course<'a>,
    work: &mut Work,
) -> Result<bool, BoundFault>
    requires symbols { course.setting.symbols.now ≡ known.old.symbols }
    requires domains { course.setting.domains.now ≡ known.old.domains }
    requires fits { SentencesFit course.setting.symbols.now course.setting.domains.now
        (map formula_view course.sentences.now) }
    ensures { NarrowsWithin known.old known.new result
        (ObeysSentences (map formula_view course.entry.sentences.now))
        (ObeysSentences (map formula_view course.entry.sentences.now)) }
{
    let mut changed = false;
    for at in 0..course.sentences.len() {
        let more = sentence_must(known, course, work, &course.sentences[at])?;
        changed = either(changed, more);
    }
    Ok(changed)
}

/// How many instances the sentence has, or the most that fit.
fn size(domains: &[ElemList], sentence: &Formula) -> u64 {
    let Formula::All(bounds, _) = sentence else {
        return 1;
    };
    let mut count = 1u64;
    for bound in bounds {
        count = count.saturating_mul(domain_in(domains, bound.ty).len() as u64);
    }
    count
}

// Following takes at most a quarter as many steps as a pass has instances, since where nothing follows from what a pass
// makes known they are spent in vain, and some more, so that it is worth while where a pass is short.
/// How many steps following may take in a pass.
pub(crate) fn fuel(domains: &[ElemList], sentences: &[Formula]) -> u64 {
    let mut fuel = 1000u64;
    for sentence in sentences {
        fuel = fuel.saturating_add(size(domains, sentence) / 4);
    }
    fuel
}
