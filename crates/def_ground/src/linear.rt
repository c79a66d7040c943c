//! Aggregates as weighted literals, one instance after another.
ghost use Rattle.std.specs.Prelude.{◌≡◌, ◌≤◌, ◌<◌, ◌+ℤ◌, pos, Some, [], ◌∷◌, fold, length, slice_get, take, IfOk};
ghost use Rattle.std.specs.Prelude.{IfSome};
ghost use Rattle.std.specs.Prelude.{OnOk};
ghost use Rattle.std.specs.List.{AllByRecursion};
ghost use Rattle.kb_logic.specs.declared.syntax.AggKind.TheVariants as kind;
ghost use Rattle.kb_logic.specs.Denotations.{number};
ghost use Rattle.kb_logic.specs.Values.{value_view};
ghost use Rattle.ground_core.specs.declared.parts.Part.{Part as PartRow};
ghost use Rattle.ground_core.specs.Problems.{ProblemState, AreLitsOf, IsLitOf, ArePartsOf};
ghost use Rattle.def_ground.specs.Answers.{AnswerWithin, Makes, Grows};
ghost use Rattle.def_ground.specs.Forms.{no_parts_yet};
ghost use Rattle.def_ground.specs.Guards.{guarded_by};
ghost use Rattle.def_ground.specs.Linear.{merged as merged_parts, inserted, comes_last as is_last, put_part};
ghost use Rattle.def_ground.specs.Linear.{weighed, weighed_under, listed_under, row_step};
ghost use Rattle.def_ground.specs.LinearViews.{linear_view, LinearGrows, with_guards as literals_under};
ghost use Rattle.def_ground.specs.LinearViews.{answer_under as answer_of, own_part};

use crate::answers::Answer;
use crate::checked::{difference, product, sum};
use crate::gates::gate;
use ground_core::{LitList, Memory, Part, PartList, Problem};
use kb_logic::AggKind;
use kb_logic::values::Value;
use lit_core::Lit;
use std::alloc::Global;
use std::mem;
use term_values::Rows;

/// A number, and literals that count with their weights where they are true.
#[derive(Drop)]
pub struct Linear {
    pub base: i64,
    pub parts: PartList,
}

/// How an instance of an aggregate counts whose condition comes to the answer.
#[derive(Clone, Copy)]
pub struct Weighing {
    pub kind: AggKind,
    pub factor: i64,
    pub answer: Answer,
}

/// Whether every part's variable comes before this one.
#[tactic(auto, using(crate::proofs::LinearCalls::last_decides))]
fn comes_last(parts: &[Part], var: u64) -> bool
    ensures { result ≡ is_last var parts.now }
{
    match parts.last() {
        Some(part) => part.lit.var.0 < var,
        None => true,
    }
}

/// The place of the first part whose variable does not come before this one.
fn place_of(parts: &[Part], var: u64) -> usize
    ensures within { result ≤ length parts.now }
    ensures before { AllByRecursion (λ (p : PartRow). p.lit.var.0 < var) (take result parts.now) }
    ensures here { IfSome (slice_get parts.now result) (λ p. var ≤ p.lit.var.0) }
{
    for place in 0..parts.len() {
        if var <= parts[place].lit.var.0 {
            return place;
        }
    }
    parts.len()
}

/// Two parts of one variable as one, and the number that it takes beside it.
fn merged(part: Part, other: Part) -> Result<(i64, Part), Memory>
    ensures base { IfOk result (λ r. r.0 ≡ (merged_parts part other).base) }
    ensures parts { IfOk result (λ r. (merged_parts part other).parts ≡ r.1 ∷ []) }
{
    let lit = other.lit;
    if part.lit.positive == lit.positive {
        let weight = sum(other.weight, part.weight)?;
        Ok((0, Part { lit, weight }))
    } else {
        let weight = difference(other.weight, part.weight)?;
        Ok((part.weight, Part { lit, weight }))
    }
}

/// The part at the place, if it is of this variable.
fn part_of_variable(parts: &[Part], place: usize, var: u64) -> Option<Part>
    ensures { result ≡ own_part (slice_get parts.now place) var }
{
    match parts.get(place) {
        Some(part) => {
            if part.lit.var.0 == var {
                Some(*part)
            } else {
                None
            }
        }
        None => None,
    }
}

/// Puts a part among those of other variables, or together with that of its own. The number that it takes beside them.
fn insert(part: Part, parts: &mut Vec<Part>) -> Result<i64, Memory>
    ensures base { IfOk result (λ b. b ≡ (inserted part parts.old.items).base) }
    ensures parts { OnOk result (parts.new.items ≡ (inserted part parts.old.items).parts) }
{
    let place = place_of(parts.as_slice(), part.lit.var.0);
    match part_of_variable(parts.as_slice(), place, part.lit.var.0) {
        Some(other) => {
            let (base, one) = merged(part, other)?;
            prove!(place < parts.len());
            parts[place] = one;
            Ok(base)
        }
        None => {
            parts.insert(place, part)?;
            Ok(0)
        }
    }
}

impl Linear {
    /// No part yet.
    pub fn new(alloc: Global) -> Linear
        ensures { (p : ProblemState) → linear_view result p ≡ no_parts_yet p }
    {
        Linear {
            base: 0,
            parts: PartList::new(alloc),
        }
    }

    // Mostly the next part has the greatest variable so far, and then the others are not looked at.
    /// Adds a part, in rising order of variables.
    fn put(&mut self, alloc: Global, part: Part) -> Result<(), Memory>
        ensures base { OnOk result (self.new.base ≡ self.old.base +ℤ (put_part part self.old.parts).base) }
        ensures parts { OnOk result (self.new.parts ≡ (put_part part self.old.parts).parts) }
    {
        if comes_last(self.parts.as_slice(), part.lit.var.0) {
            return self.parts.push(part);
        }
        let mut parts = mem::replace(&mut self.parts, PartList::new(alloc)).into_vec();
        let more = insert(part, &mut parts)?;
        self.parts = PartList::from_vec(parts);
        self.base = sum(self.base, more)?;
        Ok(())
    }
}

/// The guards, behind the answer's literal where it is one.
fn with_guards(alloc: Global, answer: Answer, guards: &[Lit]) -> Result<LitList, Memory>
    ensures { IfOk result (λ ls. ls ≡ literals_under answer guards.now) }
{
    match answer {
        Answer::Constant(_) => Ok(LitList::from_vec(guards.to_vec(alloc)?)),
        Answer::Literal(lit) => {
            let mut lits = Vec::with_capacity(alloc, guards.len().saturating_add(1))?;
            lits.push(lit)?;
            lits.extend_from_slice(guards)?;
            Ok(LitList::from_vec(lits))
        }
    }
}

/// An answer under guards, as one answer.
fn answer_under(
    alloc: Global,
    answer: Answer,
    guards: &[Lit],
    problem: &mut Problem,
) -> Result<Answer, Memory>
    requires answer { AnswerWithin problem.old.vars answer }
    requires guards { AreLitsOf problem.old.vars guards.now }
    ensures made { IfOk result (λ a. Makes (answer_of answer guards.now problem.old) a problem.new) }
    ensures grows { IfOk result (λ a. Grows problem.old problem.new a) }
{
    match (answer, guards) {
        (_, []) => Ok(answer),
        (Answer::Constant(false), _) => Ok(answer),
        _ => gate(true, with_guards(alloc, answer, guards)?, problem),
    }
}

/// Adds the weight under an answer.
fn weigh(alloc: Global, weight: i64, answer: Answer, linear: &mut Linear) -> Result<(), Memory>
    ensures { OnOk result ((q : ProblemState) (p : ProblemState) → linear_view linear.new q
        ≡ weighed weight (record { answer = answer; problem = q }) (linear_view linear.old p)) }
{
    match answer {
        Answer::Constant(true) => {
            linear.base = sum(linear.base, weight)?;
            Ok(())
        }
        Answer::Constant(false) => Ok(()),
        Answer::Literal(lit) => linear.put(alloc, Part { lit, weight }),
    }
}

/// Adds the weight under an answer and guards.
pub(crate) fn weigh_under(
    alloc: Global,
    weight: i64,
    answer: Answer,
    guards: &[Lit],
    linear: &mut Linear,
    problem: &mut Problem,
) -> Result<(), Memory>
    requires answer { AnswerWithin problem.old.vars answer }
    requires guards { AreLitsOf problem.old.vars guards.now }
    requires parts { ArePartsOf problem.old.vars linear.old.parts }
    ensures made { OnOk result (linear_view linear.new problem.new
        ≡ weighed_under weight answer guards.now (linear_view linear.old problem.old)) }
    ensures grows { OnOk result (LinearGrows problem.old problem.new linear.new.parts) }
{
    let answer = answer_under(alloc, answer, guards, problem)?;
    weigh(alloc, weight, answer, linear)
}

/// A literal that is true where the answer and the guards are.
pub fn guarded_literal(
    alloc: Global,
    answer: Answer,
    guards: &[Lit],
    problem: &mut Problem,
) -> Result<Lit, Memory>
    requires answer { AnswerWithin problem.old.vars answer }
    requires guards { AreLitsOf problem.old.vars guards.now }
    ensures lit { IfOk result (λ l. l ≡ (guarded_by (literals_under answer guards.now) problem.old).lit) }
    ensures problem { IfOk result
        (λ l. problem.new ≡ (guarded_by (literals_under answer guards.now) problem.old).problem) }
    ensures within { IfOk result (λ l. IsLitOf problem.new.vars l) }
    ensures grows { IfOk result (λ l. problem.old.vars ≤ problem.new.vars) }
{
    match (answer, guards) {
        (Answer::Constant(_), [lit]) => Ok(*lit),
        (Answer::Literal(lit), []) => Ok(lit),
        _ => problem.add_gate(true, with_guards(alloc, answer, guards)?),
    }
}

/// Adds a part for the weight under an answer and guards.
fn list_under(
    alloc: Global,
    weight: i64,
    answer: Answer,
    guards: &[Lit],
    linear: &mut Linear,
    problem: &mut Problem,
) -> Result<(), Memory>
    requires answer { AnswerWithin problem.old.vars answer }
    requires guards { AreLitsOf problem.old.vars guards.now }
    requires parts { ArePartsOf problem.old.vars linear.old.parts }
    ensures made { OnOk result (linear_view linear.new problem.new
        ≡ listed_under weight answer guards.now (linear_view linear.old problem.old)) }
    ensures grows { OnOk result (LinearGrows problem.old problem.new linear.new.parts) }
{
    if let Answer::Constant(false) = answer {
        return Ok(());
    }
    let lit = guarded_literal(alloc, answer, guards, problem)?;
    linear.parts.push(Part { lit, weight })
}

/// Adds one row of an instance's weight.
fn push_row(
    alloc: Global,
    how: Weighing,
    guards: &[Lit],
    value: Value<'_>,
    linear: &mut Linear,
    problem: &mut Problem,
) -> Result<(), Memory>
    requires answer { AnswerWithin problem.old.vars how.answer }
    requires guards { AreLitsOf problem.old.vars guards.now }
    requires parts { ArePartsOf problem.old.vars linear.old.parts }
    ensures made { OnOk result (linear_view linear.new problem.new
        ≡ row_step how.kind how.factor how.answer (linear_view linear.old problem.old)
        (guards.now, value_view value.entry)) }
    ensures grows { OnOk result (LinearGrows problem.old problem.new linear.new.parts) }
{
    let Value::Num(weight) = value else {
        return Ok(());
    };
    match how.kind {
        AggKind::Count | AggKind::Sum => {
            let weight = product(how.factor, weight)?;
            weigh_under(alloc, weight, how.answer, guards, linear, problem)
        }
        AggKind::Min | AggKind::Max => list_under(
            alloc, weight, how.answer, guards, linear, problem,
        ),
    }
}

/// Adds an instance whose weight has these rows.
pub fn push_weighed(
    alloc: Global,
    how: Weighing,
    rows: &Rows<'_>,
    linear: &mut Linear,
    problem: &mut Problem,
) -> Result<(), Memory>
    requires answer { AnswerWithin problem.old.vars how.answer }
    requires rows { AllByRecursion (λ r. AreLitsOf problem.old.vars r.0) rows.now }
    requires parts { ArePartsOf problem.old.vars linear.old.parts }
    ensures made { OnOk result (linear_view linear.new problem.new
        ≡ fold (row_step how.kind how.factor how.answer) (linear_view linear.old problem.old) rows.now) }
    ensures grows { OnOk result (LinearGrows problem.old problem.new linear.new.parts) }
{
    for row in 0..rows.len() {
        push_row(
            alloc,
            how,
            rows.guards(row),
            rows.value(row),
            linear,
            problem,
        )?;
    }
    Ok(())
}

/// Adds an instance that is counted.
pub fn push_counted(
    alloc: Global,
    factor: i64,
    answer: Answer,
    linear: &mut Linear,
    problem: &mut Problem,
) -> Result<(), Memory>
    requires answer { AnswerWithin problem.old.vars answer }
    requires parts { ArePartsOf problem.old.vars linear.old.parts }
    ensures made { OnOk result (linear_view linear.new problem.new
        ≡ row_step kind.Count factor answer (linear_view linear.old problem.old) ([], number (pos 1))) }
    ensures grows { OnOk result (LinearGrows problem.old problem.new linear.new.parts) }
{
    let how = Weighing {
        kind: AggKind::Count,
        factor,
        answer,
    };
    push_row(alloc, how, &[], Value::Num(1), linear, problem)
}
