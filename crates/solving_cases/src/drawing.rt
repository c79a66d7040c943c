//! Problems and questions that are drawn from a number.
ghost use Rattle.std.specs.Prelude.{◌≤◌};

use crate::lines::Draw;
use ground_core::Part;
use kb_logic::{AggKind, ExtInt};
use lit_core::{Lit, Var};
use solving_fixtures::yes;
use solving_judge::additions::Event;
use solving_judge::asking::{Outcome, Sides, Wrong, change, exclude, question, sides_of};
use solving_judge::faults::Fault;
use solving_judge::problems::{Said, Spoken};
use solving_judge::rules::Rule;
use std::alloc::{AllocError, Global};

/// How many additions brute force is given beside the atoms.
const MOST_ADDITIONS: u64 = 6;

/// Numbers that look random: those of a linear congruence of 64 bits, of which the upper half is used.
#[derive(Clone, Copy)]
struct Source {
    state: u64,
}

impl Source {
    /// A number below this one, and 0 where that is 0.
    fn below(&mut self, count: u64) -> u64
        ensures { result ≤ count }
    {
        self.state = self
            .state
            .wrapping_mul(6_364_136_223_846_793_005)
            .wrapping_add(1_442_695_040_888_963_407);
        let number = self.state >> 33;
        if count == 0 { 0 } else { number % count }
    }

    /// A literal of one of the atoms.
    fn lit(&mut self, atoms: u32) -> Lit {
        let number = self.below(u64::from(atoms));
        Lit {
            var: Var(number.saturating_add(1)),
            positive: self.below(2) == 0,
        }
    }

    fn lits(&mut self, alloc: Global, atoms: u32, count: u64) -> Result<Vec<Lit>, AllocError> {
        let mut lits = Vec::new(alloc);
        for _ in 0..count {
            lits.push(self.lit(atoms))?;
        }
        Ok(lits)
    }
}

/// What the rounds gave.
#[derive(Clone, Copy)]
pub struct Tally {
    pub sat: u64,
    pub unsat: u64,
    /// Under a limit, where the search may end without an answer.
    pub limited: u64,
    pub wrong: Option<Wrong>,
}

/// A kind of terms.
fn drawn_kind(source: &mut Source) -> AggKind {
    match source.below(4) {
        0 => AggKind::Count,
        1 => AggKind::Min,
        2 => AggKind::Max,
        _ => AggKind::Sum,
    }
}

/// A bound: one in eight is infinite.
fn drawn_least(source: &mut Source) -> ExtInt {
    match source.below(16) {
        0 => ExtInt::NegInf,
        1 => ExtInt::PosInf,
        _ => ExtInt::Num(source.below(15) as i64 - 7),
    }
}

/// A constraint over the variables below the next one. A variable may stand in it twice, with either sign.
fn drawn_constraint(alloc: Global, source: &mut Source, vars: u32) -> Result<Said, AllocError> {
    let kind = drawn_kind(source);
    let least = drawn_least(source);
    let mut parts = Vec::new(alloc);
    for _ in 0..source.below(6) {
        let lit = source.lit(vars);
        let weight = source.below(9) as i64 - 4;
        parts.push(Part { lit, weight })?;
    }
    Ok(Said::Sum(kind, least, parts))
}

/// Draws constraints, and after each a clause that has its result.
fn draw_constraints(
    alloc: Global,
    source: &mut Source,
    draw: Draw,
    said: &mut Vec<Said>,
) -> Result<(), AllocError> {
    let mut vars = draw.atoms;
    for _ in 0..draw.sums {
        said.push(drawn_constraint(alloc, source, vars)?)?;
        vars = vars.saturating_add(1);
        let mut lits = source.lits(alloc, vars, 1)?;
        lits.push(Lit {
            var: Var(u64::from(vars)),
            positive: source.below(2) == 0,
        })?;
        said.push(Said::Clause(lits))?;
    }
    Ok(())
}

/// The sum of the atoms with drawn weights.
fn drawn_sum(alloc: Global, source: &mut Source, atoms: u32) -> Result<Said, AllocError> {
    let mut parts = Vec::new(alloc);
    for atom in 0..atoms {
        let weight = source.below(9) as i64 - 4;
        parts.push(Part {
            lit: yes(u64::from(atom) + 1),
            weight,
        })?;
    }
    Ok(Said::Term(AggKind::Sum, 0, parts))
}

fn spoken_of(alloc: Global, source: &mut Source, rule: Rule, draw: Draw) -> Result<Spoken, Fault> {
    let mut said = Vec::new(alloc);
    for _ in 0..draw.clauses {
        said.push(Said::Clause(source.lits(alloc, draw.atoms, 3)?))?;
    }
    draw_constraints(alloc, source, draw, &mut said)?;
    said.push(drawn_sum(alloc, source, draw.atoms)?)?;
    Ok(Spoken {
        rule,
        atoms: draw.atoms,
        said,
    })
}

/// Assumes the selectors that are not retired.
fn assume_all(sides: &Sides, first: u64, lits: &mut Vec<Lit>) -> Result<(), Fault> {
    for var in first..sides.kept.vars().saturating_add(1) {
        if !is_retired(&sides.events, var) {
            lits.push(yes(var))?;
        }
    }
    Ok(())
}

fn is_retired(events: &[Event], var: u64) -> bool {
    for event in events {
        if let Event::Retired(gone) = event {
            if *gone == var {
                return true;
            }
        }
    }
    false
}

/// Changes what is asked before a question: the selector of what is added is assumed.
fn prepare(
    alloc: Global,
    sides: &mut Sides,
    first: u64,
    source: &mut Source,
    lits: &mut Vec<Lit>,
) -> Result<Option<u64>, Fault> {
    let added = sides.kept.vars().saturating_add(1).saturating_sub(first);
    match source.below(8) {
        1 => return Ok(Some(source.below(41))),
        2 if added < MOST_ADDITIONS => {
            let below = source.below(13) as i64 - 6;
            change(sides, Event::Bound(0, below))?;
            lits.push(yes(sides.kept.vars()))?;
        }
        3 if added < MOST_ADDITIONS && sides.first.is_some() => {
            exclude(alloc, sides, true)?;
            lits.push(yes(sides.kept.vars()))?;
        }
        4 if added > 0 => {
            let var = first.saturating_add(source.below(added));
            change(sides, Event::Retired(var))?;
        }
        5 => sides.kept.forget(),
        6 => assume_all(sides, first, lits)?,
        7 => sides.kept.prepare()?,
        _ => {}
    }
    Ok(None)
}

fn counted(tally: &mut Tally, outcome: Outcome, limited: bool) {
    match outcome {
        Outcome::Wrong(why) => tally.wrong = Some(why),
        _ if limited => tally.limited = tally.limited.saturating_add(1),
        Outcome::Sat => tally.sat = tally.sat.saturating_add(1),
        Outcome::Unsat(_) => tally.unsat = tally.unsat.saturating_add(1),
        Outcome::Spent => tally.wrong = Some(Wrong::Stop),
    }
}

/// One question, with what is changed before it; selectors have the numbers from the first one on.
fn round(
    alloc: Global,
    spoken: &Spoken,
    sides: &mut Sides,
    first: u64,
    source: &mut Source,
    tally: &mut Tally,
) -> Result<(), Fault> {
    let count = source.below(3).saturating_add(1);
    let mut lits = source.lits(alloc, spoken.atoms, count)?;
    let limit = prepare(alloc, sides, first, source, &mut lits)?;
    let outcome = question(alloc, spoken, sides, &lits, limit)?;
    counted(tally, outcome, limit.is_some());
    Ok(())
}

/// So many questions.
fn rounds(
    alloc: Global,
    spoken: &Spoken,
    sides: &mut Sides,
    source: &mut Source,
    count: u64,
) -> Result<Tally, Fault> {
    let mut tally = Tally {
        sat: 0,
        unsat: 0,
        limited: 0,
        wrong: None,
    };
    let first = sides.kept.vars().saturating_add(1);
    for _ in 0..count {
        round(alloc, spoken, sides, first, source, &mut tally)?;
    }
    Ok(tally)
}

/// Draws a problem and questions about it, and asks these.
pub fn drawn(alloc: Global, rule: Rule, draw: Draw) -> Result<Tally, Fault> {
    let mut source = Source { state: draw.seed };
    let spoken = spoken_of(alloc, &mut source, rule, draw)?;
    let mut sides = sides_of(alloc, &spoken)?;
    rounds(alloc, &spoken, &mut sides, &mut source, draw.rounds)
}
