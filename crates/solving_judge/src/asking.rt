//! Questions to the kept solver, to one made anew and to brute force, and whether they agree.
ghost use Rattle.std.specs.Prelude.{◌≡◌, ◌↔◌, ◌∷◌, List, length, IsTrue, IfOk};
ghost use Rattle.kb_logic.specs.declared.structures.Literal.{Literal};
ghost use Rattle.lit_core.specs.declared.literals.Lit.{Lit as LitRow};
ghost use Rattle.lit_core.specs.Literals.{valuation};
ghost use Rattle.ground_core.specs.declared.solving.Verdict.TheVariants as verdict;
ghost use Rattle.ground_core.specs.Problems.{ProblemState};
ghost use Rattle.ground_core.specs.Solving.{Answers, IsSublist};
ghost use Rattle.solving_judge.specs.declared.asking.Outcome.TheVariants.{Sat};
ghost use Rattle.solving_judge.specs.Answering.{IsFound};
ghost use Rattle.solving_judge.specs.Sayings.{IsFirstValue, problem_changed};
ghost use Rattle.solving_judge.specs.Telling.{Tells, Told};

use crate::additions::{Answer, Event, Found};
use crate::faults::Fault;
use crate::holding::{are_right, is_first_value};
use crate::problems::{Spoken, made};
use crate::sides::{Force, Kept};
use kb_logic::ExtInt;
use lit_core::{Lit, Values};
use std::alloc::Global;

/// Those who are asked, what was added, and the values that the kept solver and brute force found last.
#[derive(Drop)]
pub struct Sides {
    pub kept: Kept,
    pub force: Force,
    pub events: Vec<Event>,
    pub found: Option<Values>,
    pub first: Option<Values>,
}

/// What is wrong with an answer.
#[derive(Clone, Copy)]
pub enum Wrong {
    /// Brute force answers otherwise.
    Verdict,
    /// The values are not as was said and added, or do not make the assumptions true.
    Values,
    /// The first term comes to something else.
    Term,
    /// The core does not stand among the assumptions.
    Core,
    /// Brute force does not refute the core.
    Refutation,
    /// More is learnt than the limit allows.
    Limit,
    /// It stopped before the limit.
    Stop,
    /// It answers under a limit, and not under a greater one.
    Limits,
    /// A solver made anew answers otherwise.
    Anew,
}

/// What a question gave.
#[derive(Clone, Copy)]
pub enum Outcome {
    Sat,
    /// So many of the assumptions are blamed.
    Unsat(usize),
    /// The limit was reached.
    Spent,
    Wrong(Wrong),
}

/// Those who are asked of a problem.
pub fn sides_of(alloc: Global, spoken: &Spoken) -> Result<Sides, Fault> {
    Ok(Sides {
        kept: kept_of(alloc, spoken)?,
        force: Force::new(alloc, made(alloc, spoken)?)?,
        events: Vec::new(alloc),
        found: None,
        first: None,
    })
}

/// A solver of the problem to which nothing was added.
pub fn kept_of(alloc: Global, spoken: &Spoken) -> Result<Kept, Fault> {
    let problem = made(alloc, spoken)?;
    Kept::new(alloc, spoken.rule, &problem)
}

/// A solver of the problem as it is now.
fn anew(alloc: Global, spoken: &Spoken, events: &[Event]) -> Result<Kept, Fault> {
    let mut kept = kept_of(alloc, spoken)?;
    for event in events {
        kept.apply(event)?;
    }
    Ok(kept)
}

/// The literals, without the first one where it is this one.
fn without_first(lits: &[Lit], lit: Lit) -> &[Lit]
    ensures { (others : List LitRow) → IsSublist result.now others ↔ IsSublist lits.now (lit ∷ others) }
{
    match lits.split_first() {
        Some((first, further)) if *first == lit => further,
        _ => lits,
    }
}

/// Whether the literals stand among the others in the same order.
fn is_sublist(lits: &[Lit], others: &[Lit]) -> bool
    ensures { IsTrue result ↔ IsSublist lits.now others.now }
{
    let mut rest = lits;
    for other in others {
        rest = without_first(rest, *other);
    }
    rest.is_empty()
}

/// What a core gives: it stands among the assumptions, and brute force refutes it.
fn of_core(force: &mut Force, core: &[Lit], assume: &[Lit]) -> Result<Outcome, Fault>
    ensures told { IfOk result (λ o. (said : ProblemState) → Tells said force.old assume.now o) }
    ensures problem { force.new ≡ force.old }
{
    if !is_sublist(core, assume) {
        return Ok(Outcome::Wrong(Wrong::Core));
    }
    match force.ask(core)?.found {
        Found::Core(_) => Ok(Outcome::Unsat(core.len())),
        _ => Ok(Outcome::Wrong(Wrong::Refutation)),
    }
}

/// What values give: they are as was said and added, and so is what the first term comes to.
fn of_values(
    spoken: &Spoken,
    events: &[Event],
    values: &Values,
    value: Option<ExtInt>,
    assume: &[Lit],
) -> Outcome
    ensures right { (given : List Literal) → length given ≡ spoken.now.atoms → (result ≡ Sat) ↔ (Answers
        (problem_changed given spoken.now.said.items events.now) assume.now (verdict.Sat values.now)
        × IsFirstValue (problem_changed given spoken.now.said.items events.now) (valuation values.now) value) }
    ensures told { (given : List Literal) (tried : ProblemState) → length given ≡ spoken.now.atoms
        → Tells (problem_changed given spoken.now.said.items events.now) tried assume.now result }
{
    if !are_right(values, spoken.atoms, &spoken.said, events, assume) {
        return Outcome::Wrong(Wrong::Values);
    }
    if !is_first_value(values, &spoken.said, value) {
        return Outcome::Wrong(Wrong::Term);
    }
    Outcome::Sat
}

/// What an answer gives beside the one of brute force.
fn compared(
    spoken: &Spoken,
    sides: &mut Sides,
    assume: &[Lit],
    limit: Option<u64>,
    answer: &Answer,
    right: &Answer,
) -> Result<Outcome, Fault>
    ensures told { IfOk result (Told spoken.now sides.old assume.now) }
    ensures events { sides.new.events ≡ sides.old.events }
    ensures force { sides.new.force ≡ sides.old.force }
{
    if limit.is_some_and(|most| most < answer.spent) {
        return Ok(Outcome::Wrong(Wrong::Limit));
    }
    match (&answer.found, &right.found) {
        (Found::Values(values, value), Found::Values(_, _)) => {
            Ok(of_values(spoken, &sides.events, values, *value, assume))
        }
        (Found::Core(core), Found::Core(_)) => of_core(&mut sides.force, core.as_slice(), assume),
        (Found::Nothing, _) if limit == Some(answer.spent) => Ok(Outcome::Spent),
        (Found::Nothing, _) => Ok(Outcome::Wrong(Wrong::Stop)),
        _ => Ok(Outcome::Wrong(Wrong::Verdict)),
    }
}

/// What comes of an outcome beside the one of a solver made anew.
fn joined(outcome: Outcome, other: Outcome) -> Outcome
    ensures { (said tried : ProblemState) (assumed : List LitRow) → Tells said tried assumed outcome
        → Tells said tried assumed other → Tells said tried assumed result }
{
    match (outcome, other) {
        (Outcome::Wrong(_), _) => outcome,
        (_, Outcome::Wrong(_)) => other,
        (Outcome::Spent, _) => outcome,
        (Outcome::Sat, Outcome::Sat) => outcome,
        (Outcome::Unsat(_), Outcome::Unsat(_)) => outcome,
        _ => Outcome::Wrong(Wrong::Anew),
    }
}

/// What a solver that is made anew gives beside brute force.
fn given_anew(
    alloc: Global,
    spoken: &Spoken,
    sides: &mut Sides,
    assume: &[Lit],
    limit: Option<u64>,
    right: &Answer,
) -> Result<Outcome, Fault>
    ensures told { IfOk result (Told spoken.now sides.old assume.now) }
    ensures events { sides.new.events ≡ sides.old.events }
    ensures force { sides.new.force ≡ sides.old.force }
{
    let mut kept = anew(alloc, spoken, &sides.events)?;
    let answer = kept.ask(assume, limit)?;
    compared(spoken, sides, assume, limit, &answer, right)
}

/// What an answer gives beside brute force and a solver made anew.
fn judged(
    alloc: Global,
    spoken: &Spoken,
    sides: &mut Sides,
    assume: &[Lit],
    limit: Option<u64>,
    answer: &Answer,
    right: &Answer,
) -> Result<Outcome, Fault>
    ensures told { IfOk result (Told spoken.now sides.old assume.now) }
    ensures events { sides.new.events ≡ sides.old.events }
    ensures force { sides.new.force ≡ sides.old.force }
{
    let outcome = compared(spoken, sides, assume, limit, answer, right)?;
    let other = given_anew(alloc, spoken, sides, assume, None, right)?;
    Ok(joined(outcome, other))
}

/// Keeps the values that were found.
pub fn keep(last: &mut Option<Values>, answer: Answer) {
    if let Found::Values(values, _) = answer.found {
        *last = Some(values);
    }
}

/// Asks all three what the kept solver answered.
fn confirmed(
    alloc: Global,
    spoken: &Spoken,
    sides: &mut Sides,
    assume: &[Lit],
    limit: Option<u64>,
    answer: Answer,
) -> Result<Outcome, Fault>
    ensures told { IfOk result (Told spoken.now sides.old assume.now) }
    ensures events { sides.new.events ≡ sides.old.events }
    ensures force { sides.new.force ≡ sides.old.force }
{
    let right = sides.force.ask(assume)?;
    let outcome = judged(alloc, spoken, sides, assume, limit, &answer, &right);
    keep(&mut sides.found, answer);
    keep(&mut sides.first, right);
    outcome
}

/// Asks all three.
pub fn question(
    alloc: Global,
    spoken: &Spoken,
    sides: &mut Sides,
    assume: &[Lit],
    limit: Option<u64>,
) -> Result<Outcome, Fault>
    ensures told { IfOk result (Told spoken.now sides.old assume.now) }
    ensures events { sides.new.events ≡ sides.old.events }
    ensures force { sides.new.force ≡ sides.old.force }
{
    let answer = sides.kept.ask(assume, limit)?;
    confirmed(alloc, spoken, sides, assume, limit, answer)
}

/// Adds something to both that are kept, or gives it up.
pub fn change(sides: &mut Sides, event: Event) -> Result<(), Fault> {
    sides.events.reserve(1)?;
    sides.kept.apply(&event)?;
    sides.force.apply(&event)?;
    sides.events.push_reserved(event);
    Ok(())
}

/// Excludes the values that were found last, by brute force or by the kept solver.
pub fn exclude(alloc: Global, sides: &mut Sides, by_force: bool) -> Result<(), Fault> {
    let values = if by_force { &sides.first } else { &sides.found };
    let copy = match values {
        Some(values) => values.copy(alloc)?,
        None => return Err(Fault::Values),
    };
    change(sides, Event::Exclusion(copy))
}

/// What is wrong with the answers of solvers made anew under each limit up to this one: each is that of brute force, or
/// the search stops at its limit, and under a greater limit than one under which it answers it does so, too.
fn wrong_within(
    alloc: Global,
    spoken: &Spoken,
    sides: &mut Sides,
    most: u64,
    assume: &[Lit],
    right: &Answer,
) -> Result<Option<Wrong>, Fault>
    ensures events { sides.new.events ≡ sides.old.events }
    ensures force { sides.new.force ≡ sides.old.force }
{
    let mut ended = false;
    for limit in 0..most.saturating_add(1) {
        match given_anew(alloc, spoken, sides, assume, Some(limit), right)? {
            Outcome::Wrong(why) => return Ok(Some(why)),
            Outcome::Spent if ended => return Ok(Some(Wrong::Limits)),
            Outcome::Spent => {}
            Outcome::Sat => ended = true,
            Outcome::Unsat(_) => ended = true,
        }
    }
    Ok(None)
}

/// What brute force answers, where nothing is wrong under any limit up to this one.
pub fn limits(
    alloc: Global,
    spoken: &Spoken,
    sides: &mut Sides,
    most: u64,
    assume: &[Lit],
) -> Result<Outcome, Fault>
    ensures told { IfOk result (Told spoken.now sides.old assume.now) }
    ensures events { sides.new.events ≡ sides.old.events }
    ensures force { sides.new.force ≡ sides.old.force }
{
    let right = sides.force.ask(assume)?;
    match wrong_within(alloc, spoken, sides, most, assume, &right)? {
        Some(why) => Ok(Outcome::Wrong(why)),
        None => compared(spoken, sides, assume, None, &right, &right),
    }
}
