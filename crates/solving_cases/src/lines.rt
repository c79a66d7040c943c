//! What a line says.
use crate::words::{lit_of, lits_of, numbers_of, parts_of, words_of};
use kb_logic::{AggKind, ExtInt};
use lit_core::Lit;
use solving_judge::faults::Fault;
use solving_judge::problems::Said;
use solving_judge::rules::{Rule, rule_of};
use std::alloc::Global;

/// A question, or a change of what is asked.
#[derive(Drop)]
pub enum Step {
    Solve(Vec<Lit>),
    Blame(Vec<Lit>),
    Within(u64, Vec<Lit>),
    Limits(u64, Vec<Lit>),
    Bound(u32, i64),
    /// Whether the values are those of brute force.
    Exclude(bool),
    Retire(u64),
    Forget,
    Prepare,
    Count,
    Turns(u64),
    Learn(Vec<Lit>),
    Core(Vec<Lit>),
    Root,
}

/// Numbers from which a problem and questions are drawn.
#[derive(Clone, Copy)]
pub struct Draw {
    pub seed: u64,
    pub atoms: u32,
    pub clauses: u64,
    pub rounds: u64,
    pub sums: u64,
}

/// What a line says.
#[derive(Drop)]
pub enum Line {
    Empty,
    Case,
    Rule(Rule),
    Atoms(u32),
    Said(Said),
    Step(Step),
    Random(Draw),
}

fn natural(number: i64) -> Result<u64, Fault> {
    match u64::try_from(number) {
        Ok(number) => Ok(number),
        Err(_) => Err(Fault::Number),
    }
}

fn small(number: i64) -> Result<u32, Fault> {
    match u32::try_from(number) {
        Ok(number) => Ok(number),
        Err(_) => Err(Fault::Number),
    }
}

/// The kind of terms of this name.
fn kind_of(word: &str) -> Option<AggKind> {
    match word {
        "sum" => Some(AggKind::Sum),
        "cardinality" => Some(AggKind::Count),
        "minimum" => Some(AggKind::Min),
        "maximum" => Some(AggKind::Max),
        _ => None,
    }
}

fn term_line(alloc: Global, kind: AggKind, numbers: &[i64]) -> Result<Line, Fault> {
    let [base, parts @ ..] = numbers else {
        return Err(Fault::Number);
    };
    Ok(Line::Said(Said::Term(kind, *base, parts_of(alloc, parts)?)))
}

/// The bound that the word is.
fn least_of(word: &str) -> Result<ExtInt, Fault> {
    match word {
        "-inf" => Ok(ExtInt::NegInf),
        "inf" => Ok(ExtInt::PosInf),
        _ => match word.parse::<i64>() {
            Ok(number) => Ok(ExtInt::Num(number)),
            Err(_) => Err(Fault::Number),
        },
    }
}

/// A constraint: the name of a kind, a bound, and parts.
fn sum_line(alloc: Global, words: &[String]) -> Result<Line, Fault> {
    let [kind, least, parts @ ..] = words else {
        return Err(Fault::Number);
    };
    let Some(kind) = kind_of(kind.as_str()) else {
        return Err(Fault::Word);
    };
    let least = least_of(least.as_str())?;
    let numbers = numbers_of(alloc, parts)?;
    Ok(Line::Said(Said::Sum(kind, least, parts_of(alloc, &numbers)?)))
}

fn same_line(numbers: &[i64]) -> Result<Line, Fault> {
    match numbers {
        [a, b] => Ok(Line::Said(Said::Same(lit_of(*a), lit_of(*b)))),
        _ => Err(Fault::Number),
    }
}

fn limited_line(alloc: Global, all: bool, numbers: &[i64]) -> Result<Line, Fault> {
    let [most, lits @ ..] = numbers else {
        return Err(Fault::Number);
    };
    let most = natural(*most)?;
    let lits = lits_of(alloc, lits)?;
    Ok(Line::Step(if all {
        Step::Limits(most, lits)
    } else {
        Step::Within(most, lits)
    }))
}

fn bound_line(numbers: &[i64]) -> Result<Line, Fault> {
    match numbers {
        [term, below] => Ok(Line::Step(Step::Bound(small(*term)?, *below))),
        _ => Err(Fault::Number),
    }
}

fn draw_line(numbers: &[i64]) -> Result<Line, Fault> {
    let [seed, atoms, clauses, rounds, sums @ ..] = numbers else {
        return Err(Fault::Number);
    };
    Ok(Line::Random(Draw {
        seed: natural(*seed)?,
        atoms: small(*atoms)?,
        clauses: natural(*clauses)?,
        rounds: natural(*rounds)?,
        sums: if sums.is_empty() { 0 } else { one(sums)? },
    }))
}

fn one(numbers: &[i64]) -> Result<u64, Fault> {
    match numbers {
        [number] => natural(*number),
        _ => Err(Fault::Number),
    }
}

fn plain_line(line: Line, numbers: &[i64]) -> Result<Line, Fault> {
    if numbers.is_empty() {
        Ok(line)
    } else {
        Err(Fault::Number)
    }
}

/// What a line says of solving.
fn step_line(alloc: Global, word: &str, numbers: &[i64]) -> Result<Line, Fault> {
    match word {
        "solve" => Ok(Line::Step(Step::Solve(lits_of(alloc, numbers)?))),
        "blame" => Ok(Line::Step(Step::Blame(lits_of(alloc, numbers)?))),
        "within" => limited_line(alloc, false, numbers),
        "limits" => limited_line(alloc, true, numbers),
        "bound" => bound_line(numbers),
        "retire" => Ok(Line::Step(Step::Retire(one(numbers)?))),
        "turns" => Ok(Line::Step(Step::Turns(one(numbers)?))),
        "exclude" => plain_line(Line::Step(Step::Exclude(false)), numbers),
        "exclude-first" => plain_line(Line::Step(Step::Exclude(true)), numbers),
        "forget" => plain_line(Line::Step(Step::Forget), numbers),
        "prepare" => plain_line(Line::Step(Step::Prepare), numbers),
        "count" => plain_line(Line::Step(Step::Count), numbers),
        "learn" => Ok(Line::Step(Step::Learn(lits_of(alloc, numbers)?))),
        "core" => Ok(Line::Step(Step::Core(lits_of(alloc, numbers)?))),
        "root" => plain_line(Line::Step(Step::Root), numbers),
        "random" => draw_line(numbers),
        _ => Err(Fault::Word),
    }
}

/// What a line of a word and numbers says.
fn number_line(alloc: Global, word: &str, numbers: &[i64]) -> Result<Line, Fault> {
    if let Some(kind) = kind_of(word) {
        return term_line(alloc, kind, numbers);
    }
    match word {
        "atoms" => Ok(Line::Atoms(u32::try_from(one(numbers)?).unwrap_or(u32::MAX))),
        "clause" => Ok(Line::Said(Said::Clause(lits_of(alloc, numbers)?))),
        "all" => Ok(Line::Said(Said::Gate(true, lits_of(alloc, numbers)?))),
        "any" => Ok(Line::Said(Said::Gate(false, lits_of(alloc, numbers)?))),
        "same" => same_line(numbers),
        _ => step_line(alloc, word, numbers),
    }
}

fn rule_line(words: &[String]) -> Result<Line, Fault> {
    let [name] = words else {
        return Err(Fault::Rule);
    };
    match rule_of(name.as_str()) {
        Some(rule) => Ok(Line::Rule(rule)),
        None => Err(Fault::Rule),
    }
}

/// What a line says.
pub fn line_of(alloc: Global, text: &str) -> Result<Line, Fault> {
    let words = words_of(alloc, text)?;
    let Some((word, further)) = words.split_first() else {
        return Ok(Line::Empty);
    };
    match word.as_str() {
        "case" => Ok(Line::Case),
        "rule" => rule_line(further),
        "at-least" => sum_line(alloc, further),
        other => {
            let numbers = numbers_of(alloc, further)?;
            number_line(alloc, other, &numbers)
        }
    }
}
