//! Following what became known, from fact to fact.
//!
//! Of the sentences in which a fact's symbol occurs only those instances are walked in which an occurrence is about the
//! fact. Each of them is an instance of a pass too, so following has only to be sound: it may end at any time, and then
//! what it has left is found by the next pass.
ghost use Rattle.std.specs.Prelude.{◌≡◌, map, true};
ghost use Rattle.kb_logic.specs.Views.{formula_view};
ghost use Rattle.plain_evaluation.specs.Environments.{env_view};
ghost use Rattle.refinement.specs.Following.{SentencesFit, ObeysSentences, IsPart, AreParts, WasFollowed};
ghost use Rattle.refinement.specs.Following.{NarrowsWithin};
ghost use Rattle.bound_laws.specs.Closures.{Obeys};

use crate::facts::{Fact, Work};
use crate::notes::{Instance, note};
use crate::occurrences::Occurrence;
use crate::starts::{Match, Start, end_of, starts, stretch_of};
use kb_logic::{Bound, Formula};
use partial_structures::Partial;
use plain_evaluation::environments::{Env, extend};
use quantifier_bounds::{BoundFault, Setting, front, must};

/// What no step of a pass over the sentences changes.
#[derive(Clone, Copy)]
pub(crate) struct Course<'a> {
    pub setting: Setting<'a>,
    pub sentences: &'a [Formula],
    pub occurrences: &'a [Vec<Occurrence>],
}

/// A sentence that holds for all elements of its variables, and which of them they are given.
#[derive(Clone, Copy)]
struct Way<'a> {
    inner: &'a Formula,
    starts: &'a [Start],
}

/// Whether something may follow at the occurrence.
fn is_against(fact: &Fact, occurrence: &Occurrence) -> bool {
    match (fact.holds, occurrence.against) {
        (Some(holds), Some(against)) => holds == against,
        _ => true,
    }
}

/// The instance must be true. Whether that made anything known, which is then noted.
pub(crate) fn noted_instance<'a>(
    known: &mut Partial,
    course: Course<'a>,
    work: &mut Work,
    formula: &'a Formula,
    env: &'a Env<'a>,
) -> Result<bool, BoundFault>
    requires symbols { course.setting.symbols.now ≡ known.old.symbols }
    requires domains { course.setting.domains.now ≡ known.old.domains }
    requires part { IsPart course.setting.symbols.now course.setting.domains.now
        (map formula_view course.sentences.now) (formula_view formula.now) (env_view env.now) }
    ensures { NarrowsWithin known.old known.new result
        (ObeysSentences (map formula_view course.entry.sentences.now))
        (λ q. Obeys q true (formula_view formula.now) (env_view env.now)) }
{
    let changed = must(known, course.setting, formula, true, env)?;
    if changed && work.fuel > 0 {
        let instance = Instance {
            alloc: course.setting.alloc,
            known: &*known,
            env,
        };
        note(instance, formula, Some(true), work)?;
    }
    Ok(changed)
}

/// The instances of the sentence in which the last variables are given what they are to be.
fn led<'a>(
    known: &mut Partial,
    course: Course<'a>,
    work: &mut Work,
    way: Way<'a>,
    bounds: &'a [Bound],
    env: &'a Env<'a>,
) -> Result<(), BoundFault>
    requires symbols { course.setting.symbols.now ≡ known.old.symbols }
    requires domains { course.setting.domains.now ≡ known.old.domains }
    requires parts { AreParts course.setting.symbols.now course.setting.domains.now
        (map formula_view course.sentences.now) (formula_view way.inner.now) bounds.now (env_view env.now) }
    ensures { WasFollowed known.old known.new result (ObeysSentences (map formula_view course.entry.sentences.now)) }
{
    work.spend(1);
    if bounds.is_empty() {
        noted_instance(known, course, work, way.inner, env)?;
        return Ok(());
    }
    let given = stretch_of(way.starts, bounds.len());
    let (block, others) = front(course.setting.domains, bounds, given.len);
    for number in given.first..end_of(given, block.count) {
        if work.fuel == 0 {
            return Ok(());
        }
        led(
            known,
            course,
            work,
            way,
            others,
            &extend(env, block, number),
        )?;
    }
    Ok(())
}

/// The instances of the sentence in which the occurrence is about the fact.
fn follow_at<'a>(
    known: &mut Partial,
    course: Course<'a>,
    work: &mut Work,
    fact: &Fact,
    occurrence: &Occurrence,
) -> Result<(), BoundFault>
    requires symbols { course.setting.symbols.now ≡ known.old.symbols }
    requires domains { course.setting.domains.now ≡ known.old.domains }
    requires fits { SentencesFit course.setting.symbols.now course.setting.domains.now
        (map formula_view course.sentences.now) }
    ensures { WasFollowed known.old known.new result (ObeysSentences (map formula_view course.entry.sentences.now)) }
{
    if !is_against(fact, occurrence) {
        return Ok(());
    }
    let Some(sentence) = course.sentences.get(occurrence.sentence) else {
        return Ok(());
    };
    let Formula::All(bounds, inner) = sentence else {
        return Ok(());
    };
    let asked = Match {
        alloc: course.setting.alloc,
        domains: course.setting.domains,
        occurrence,
        fact,
    };
    let Some(starts) = starts(asked, bounds, work)? else {
        return Ok(());
    };
    let way = Way {
        inner,
        starts: &starts,
    };
    led(known, course, work, way, bounds, &Env::Given(&[]))
}

/// The instances that are about the fact.
fn follow<'a>(
    known: &mut Partial,
    course: Course<'a>,
    work: &mut Work,
    fact: &Fact,
) -> Result<(), BoundFault>
    requires symbols { course.setting.symbols.now ≡ known.old.symbols }
    requires domains { course.setting.domains.now ≡ known.old.domains }
    requires fits { SentencesFit course.setting.symbols.now course.setting.domains.now
        (map formula_view course.sentences.now) }
    ensures { WasFollowed known.old known.new result (ObeysSentences (map formula_view course.entry.sentences.now)) }
{
    let Some(occurrences) = course.occurrences.get(fact.symbol as usize) else {
        return Ok(());
    };
    for at in 0..occurrences.len() {
        follow_at(known, course, work, fact, &occurrences[at])?;
    }
    Ok(())
}

/// Follows the facts and what they lead to, until none is left or no more steps may be taken.
pub(crate) fn follow_all<'a>(
    known: &mut Partial,
    course: Course<'a>,
    work: &mut Work,
) -> Result<(), BoundFault>
    requires symbols { course.setting.symbols.now ≡ known.old.symbols }
    requires domains { course.setting.domains.now ≡ known.old.domains }
    requires fits { SentencesFit course.setting.symbols.now course.setting.domains.now
        (map formula_view course.sentences.now) }
    ensures { WasFollowed known.old known.new result (ObeysSentences (map formula_view course.entry.sentences.now)) }
{
    for _turn in 0..work.fuel {
        if work.fuel == 0 {
            break;
        }
        let Some(fact) = work.facts.pop() else {
            return Ok(());
        };
        work.spend(1);
        follow(known, course, work, &fact)?;
    }
    work.facts.clear();
    Ok(())
}
