//! Plays the lines of a case.
use crate::drawing::drawn;
use crate::lines::{Draw, Line, Step};
use crate::listing::{count, turns};
use crate::stores::{blamed, learnt, refutation};
use crate::texts::{learnt_text, numbers_text, outcome_text, refuted_text, tally_text};
use lit_core::Lit;
use solving_judge::additions::Event;
use solving_judge::asking::{Outcome, Sides, change, exclude, limits, question, sides_of};
use solving_judge::faults::Fault;
use solving_judge::problems::Spoken;
use solving_judge::rules::Rule;
use std::alloc::Global;

/// The most atoms of a problem, since brute force tries all values of them.
const MOST_ATOMS: u32 = 24;

/// A case: what is said, and those who are asked once something is.
#[derive(Drop)]
pub struct Play {
    spoken: Spoken,
    sides: Option<Sides>,
}

impl Play {
    /// Nothing is said.
    pub fn new(alloc: Global) -> Play {
        Play {
            spoken: Spoken {
                rule: Rule::Greatest,
                atoms: 0,
                said: Vec::new(alloc),
            },
            sides: None,
        }
    }
}

/// The number of the selector that is new.
fn selector_text(alloc: Global, sides: &Sides) -> Result<String, Fault> {
    let selector = sides.kept.vars();
    Ok(format!(in alloc; "{selector}")?)
}

/// A text of one word.
fn word(alloc: Global, text: &str) -> Result<String, Fault> {
    Ok(String::from_str(alloc, text)?)
}

/// What is asked of a question's outcome: how many assumptions are blamed, or the verdict alone.
fn asked(
    alloc: Global,
    spoken: &Spoken,
    sides: &mut Sides,
    lits: &[Lit],
    limit: Option<u64>,
    blame: bool,
) -> Result<String, Fault> {
    let outcome = question(alloc, spoken, sides, lits, limit)?;
    Ok(outcome_text(alloc, outcome, blame)?)
}

fn limits_text(
    alloc: Global,
    spoken: &Spoken,
    sides: &mut Sides,
    most: u64,
    lits: &[Lit],
) -> Result<String, Fault> {
    let outcome = limits(alloc, spoken, sides, most, lits)?;
    Ok(outcome_text(alloc, outcome, false)?)
}

fn count_text(alloc: Global, spoken: &Spoken) -> Result<String, Fault> {
    match count(alloc, spoken)? {
        Some(models) => Ok(format!(in alloc; "{models} models")?),
        None => Ok(String::from_str(alloc, "wrong: no model, or too many")?),
    }
}

/// The first literal is made false by the others, which are decided.
fn core_text(alloc: Global, spoken: &Spoken, lits: &[Lit]) -> Result<String, Fault> {
    let Some((lit, decisions)) = lits.split_first() else {
        return Err(Fault::Literal);
    };
    match blamed(alloc, spoken, *lit, decisions)? {
        Some(refuted) => Ok(refuted_text(alloc, &refuted)?),
        None => word(alloc, "nothing"),
    }
}

fn learn_text(alloc: Global, spoken: &Spoken, decisions: &[Lit]) -> Result<String, Fault> {
    match learnt(alloc, spoken, decisions)? {
        Some(analysis) => Ok(learnt_text(alloc, &analysis)?),
        None => word(alloc, "nothing"),
    }
}

fn root_text(alloc: Global, spoken: &Spoken) -> Result<String, Fault> {
    match refutation(alloc, spoken)? {
        Some(hints) => Ok(numbers_text(alloc, &hints)?),
        None => word(alloc, "nothing"),
    }
}

fn turns_text(alloc: Global, spoken: &Spoken, times: u64) -> Result<String, Fault> {
    let counts = turns(alloc, spoken, times)?;
    Ok(numbers_text(alloc, &counts)?)
}

/// What a step prints that needs no solver that is kept.
fn lone_text(alloc: Global, spoken: &Spoken, step: &Step) -> Result<String, Fault> {
    match step {
        Step::Count => count_text(alloc, spoken),
        Step::Turns(times) => turns_text(alloc, spoken, *times),
        Step::Learn(lits) => learn_text(alloc, spoken, lits),
        Step::Core(lits) => core_text(alloc, spoken, lits),
        Step::Root => root_text(alloc, spoken),
        _ => word(alloc, "nothing"),
    }
}

/// What a step prints.
fn step_text(
    alloc: Global,
    spoken: &Spoken,
    sides: &mut Sides,
    step: &Step,
) -> Result<String, Fault> {
    match step {
        Step::Solve(lits) => asked(alloc, spoken, sides, lits, None, false),
        Step::Blame(lits) => asked(alloc, spoken, sides, lits, None, true),
        Step::Within(most, lits) => asked(alloc, spoken, sides, lits, Some(*most), false),
        Step::Limits(most, lits) => limits_text(alloc, spoken, sides, *most, lits),
        Step::Bound(term, below) => {
            change(sides, Event::Bound(*term, *below))?;
            selector_text(alloc, sides)
        }
        Step::Exclude(by_force) => {
            exclude(alloc, sides, *by_force)?;
            selector_text(alloc, sides)
        }
        Step::Retire(var) => {
            change(sides, Event::Retired(*var))?;
            word(alloc, "done")
        }
        Step::Forget => {
            sides.kept.forget();
            word(alloc, "done")
        }
        Step::Prepare => {
            sides.kept.prepare()?;
            word(alloc, "done")
        }
        _ => lone_text(alloc, spoken, step),
    }
}

/// Makes those who are asked at the first step.
fn begin(alloc: Global, play: &mut Play) -> Result<(), Fault> {
    if play.sides.is_none() {
        let sides = sides_of(alloc, &play.spoken)?;
        play.sides = Some(sides);
    }
    Ok(())
}

/// Plays a step; who is asked is made at the first one.
fn stepped(alloc: Global, play: &mut Play, step: &Step) -> Result<String, Fault> {
    begin(alloc, play)?;
    match &mut play.sides {
        Some(sides) => step_text(alloc, &play.spoken, sides, step),
        None => word(alloc, "nothing"),
    }
}

fn drawn_text(alloc: Global, rule: Rule, draw: Draw) -> Result<String, Fault> {
    if draw.atoms == 0 || draw.atoms > MOST_ATOMS {
        return Err(Fault::Size);
    }
    let tally = drawn(alloc, rule, draw)?;
    Ok(tally_text(alloc, tally)?)
}

/// Refuses what is said once something was asked.
fn unasked(play: &Play) -> Result<(), Fault> {
    match &play.sides {
        Some(_) => Err(Fault::Late),
        None => Ok(()),
    }
}

/// Plays a line, and hands back what it prints.
pub fn played(alloc: Global, play: &mut Play, line: Line) -> Result<Option<String>, Fault> {
    match line {
        Line::Empty => Ok(None),
        Line::Case => Ok(None),
        Line::Rule(rule) => {
            unasked(play)?;
            play.spoken.rule = rule;
            Ok(None)
        }
        Line::Atoms(atoms) => {
            unasked(play)?;
            if atoms > MOST_ATOMS {
                return Err(Fault::Size);
            }
            play.spoken.atoms = atoms;
            Ok(None)
        }
        Line::Said(said) => {
            unasked(play)?;
            play.spoken.said.push(said)?;
            Ok(None)
        }
        Line::Step(step) => Ok(Some(stepped(alloc, play, &step)?)),
        Line::Random(draw) => Ok(Some(drawn_text(alloc, play.spoken.rule, draw)?)),
    }
}
