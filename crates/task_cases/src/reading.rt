//! Reads a problem and what is asked of it.
ghost use Rattle.std.specs.Prelude.{◌≡◌, [], IfOk};

use ground_core::{Memory, Part, Problem};
use kb_logic::{AggKind, ExtInt};
use lit_core::{Lit, Var};
use solving_fixtures::{problem_of, say, say_sum};
use std::alloc::Global;
use std::mem;

/// Which call is made.
#[derive(Clone, Copy)]
pub enum Task {
    Solve,
    Forced,
    /// The forced literals again, with the model of a search before.
    Seen,
    Several,
    Least,
    Conflict,
    Support,
}

/// What is asked.
#[derive(Drop)]
pub struct Asked {
    pub task: Task,
    pub assumed: Vec<Lit>,
    /// The literals of which it is asked whether they are forced, or the one whose reason is asked for.
    pub lits: Vec<Lit>,
    /// How many models are asked for.
    pub most: u32,
    /// Whether the solver is prepared for many searches first.
    pub prepare: bool,
}

/// What the numbers that come next are.
#[derive(Clone, Copy)]
enum Section {
    Clauses,
    Assumed,
    Asked,
    Most,
    /// The bound of a constraint.
    Least(AggKind),
    /// Its weights and literals.
    Summed(AggKind, ExtInt),
    /// Those of the term.
    Weighted,
}

/// A problem, and what is asked of it.
#[derive(Drop)]
pub struct Input {
    pub problem: Problem,
    /// What kind of term is minimised.
    pub kind: AggKind,
    /// Its parts.
    pub parts: Vec<Part>,
    pub asked: Asked,
    clause: Vec<Lit>,
    /// The parts of the constraint that is being read.
    summed: Vec<Part>,
    weight: Option<i64>,
    section: Section,
}

/// The literal that the number other than 0 is.
fn lit_of(number: i64) -> Lit {
    Lit {
        var: Var(number.unsigned_abs()),
        positive: 0 < number,
    }
}

/// Takes a number of a clause, which 0 ends.
fn take_of_clause(alloc: Global, input: &mut Input, number: i64) -> Result<(), Memory>
    ensures bounds { input.new.problem.bounds ≡ input.old.problem.bounds }
    ensures terms { input.new.problem.terms ≡ input.old.problem.terms }
    ensures retired { input.new.problem.retired ≡ input.old.problem.retired }
{
    if number != 0 {
        input.clause.push(lit_of(number))?;
        return Ok(());
    }
    say(alloc, &mut input.problem, input.clause.as_slice())?;
    input.clause.clear();
    Ok(())
}

/// Takes a weight, or the literal that has the weight before it: then there is a part more.
fn take_weighted(
    parts: &mut Vec<Part>,
    weight: &mut Option<i64>,
    number: i64,
) -> Result<(), Memory> {
    match *weight {
        None => *weight = Some(number),
        Some(before) => {
            *weight = None;
            parts.push(Part {
                lit: lit_of(number),
                weight: before,
            })?;
        }
    }
    Ok(())
}

/// Says the constraint that was read, if there is one.
fn end_sum(alloc: Global, input: &mut Input) -> Result<(), Memory>
    ensures bounds { input.new.problem.bounds ≡ input.old.problem.bounds }
    ensures terms { input.new.problem.terms ≡ input.old.problem.terms }
    ensures retired { input.new.problem.retired ≡ input.old.problem.retired }
{
    match input.section {
        Section::Summed(kind, least) => {
            input.section = Section::Clauses;
            let parts = mem::replace(&mut input.summed, Vec::new(alloc));
            say_sum(&mut input.problem, kind, parts, least)
        }
        _ => Ok(()),
    }
}

/// Takes a number.
fn take_number(alloc: Global, input: &mut Input, number: i64) -> Result<(), Memory>
    ensures bounds { input.new.problem.bounds ≡ input.old.problem.bounds }
    ensures terms { input.new.problem.terms ≡ input.old.problem.terms }
    ensures retired { input.new.problem.retired ≡ input.old.problem.retired }
{
    match input.section {
        Section::Clauses => take_of_clause(alloc, input, number),
        Section::Assumed => Ok(input.asked.assumed.push(lit_of(number))?),
        Section::Asked => Ok(input.asked.lits.push(lit_of(number))?),
        Section::Weighted => take_weighted(&mut input.parts, &mut input.weight, number),
        Section::Summed(_, _) => take_weighted(&mut input.summed, &mut input.weight, number),
        Section::Least(kind) => {
            input.section = Section::Summed(kind, ExtInt::Num(number));
            Ok(())
        }
        Section::Most => {
            input.asked.most = u32::try_from(number).unwrap_or(0);
            Ok(())
        }
    }
}

/// The call that a word asks for, and what the numbers after it are. None for other words.
fn called(word: &str) -> Option<(Task, Section)> {
    match word {
        "solve" => Some((Task::Solve, Section::Asked)),
        "forced" => Some((Task::Forced, Section::Asked)),
        "seen" => Some((Task::Seen, Section::Asked)),
        "several" => Some((Task::Several, Section::Most)),
        "least" => Some((Task::Least, Section::Weighted)),
        "conflict" => Some((Task::Conflict, Section::Asked)),
        "support" => Some((Task::Support, Section::Asked)),
        _ => None,
    }
}

/// The kind of aggregates of this name.
fn kind_of(word: &str) -> Option<AggKind> {
    match word {
        "count" => Some(AggKind::Count),
        "sum" => Some(AggKind::Sum),
        "min" => Some(AggKind::Min),
        "max" => Some(AggKind::Max),
        _ => None,
    }
}

/// Takes the kind of the term after `least`, or of a constraint.
fn take_kind(input: &mut Input, kind: AggKind)
    ensures { input.new.problem ≡ input.old.problem }
{
    match input.section {
        Section::Weighted => input.kind = kind,
        _ => input.section = Section::Least(kind),
    }
}

/// Takes an infinite bound.
fn take_infinite(input: &mut Input, least: ExtInt)
    ensures { input.new.problem ≡ input.old.problem }
{
    if let Section::Least(kind) = input.section {
        input.section = Section::Summed(kind, least);
    }
}

/// Takes a word that is neither a number nor a call. Words that are not known say nothing.
fn take_other(input: &mut Input, word: &str)
    ensures { input.new.problem ≡ input.old.problem }
{
    if let Some(kind) = kind_of(word) {
        take_kind(input, kind);
        return;
    }
    match word {
        "clauses" => input.section = Section::Clauses,
        "assume" => input.section = Section::Assumed,
        "prepare" => input.asked.prepare = true,
        "inf" => take_infinite(input, ExtInt::PosInf),
        "-inf" => take_infinite(input, ExtInt::NegInf),
        _ => {}
    }
}

/// Takes a word that is no number. It ends a constraint.
fn take_word(alloc: Global, input: &mut Input, word: &str) -> Result<(), Memory>
    ensures bounds { input.new.problem.bounds ≡ input.old.problem.bounds }
    ensures terms { input.new.problem.terms ≡ input.old.problem.terms }
    ensures retired { input.new.problem.retired ≡ input.old.problem.retired }
{
    end_sum(alloc, input)?;
    match called(word) {
        Some((task, section)) => {
            input.asked.task = task;
            input.section = section;
        }
        None => take_other(input, word),
    }
    Ok(())
}

/// Takes a word.
fn take(alloc: Global, input: &mut Input, word: &str) -> Result<(), Memory>
    ensures bounds { input.new.problem.bounds ≡ input.old.problem.bounds }
    ensures terms { input.new.problem.terms ≡ input.old.problem.terms }
    ensures retired { input.new.problem.retired ≡ input.old.problem.retired }
{
    match word.parse::<i64>() {
        Ok(number) => take_number(alloc, input, number),
        Err(_) => take_word(alloc, input, word),
    }
}

/// What the line asks: first the number of ground atoms, then `clauses` with clauses that 0 ends, `assume` with
/// literals, `prepare` where the solver is to be prepared for many searches, and the name of a call with its numbers.
/// `sum`, `count`, `min` or `max` with a bound and weights, each before its literal, says that the next variable is true
/// where they come to at least the bound; the next word ends it. A clause over other variables is left out.
pub fn read(alloc: Global, line: &str) -> Result<Input, Memory>
    ensures bounds { IfOk result (λ input. input.problem.bounds ≡ []) }
    ensures unnamed { IfOk result (λ input. (input.problem.terms ≡ []) × (input.problem.retired ≡ [])) }
{
    let (front, rest) = line.split_once(' ').unwrap_or((line, ""));
    let atoms = front.parse::<u32>().unwrap_or(0);
    let mut input = Input {
        problem: problem_of(alloc, atoms)?,
        kind: AggKind::Sum,
        parts: Vec::new(alloc),
        asked: Asked {
            task: Task::Solve,
            assumed: Vec::new(alloc),
            lits: Vec::new(alloc),
            most: 0,
            prepare: false,
        },
        clause: Vec::new(alloc),
        summed: Vec::new(alloc),
        weight: None,
        section: Section::Clauses,
    };
    for word in rest.split_whitespace() {
        take(alloc, &mut input, word)?;
    }
    Ok(input)
}
