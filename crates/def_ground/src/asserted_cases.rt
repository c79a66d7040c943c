//! Cases and equivalences that are asserted: each is a clause or two, and no variable is made for the whole.
ghost use Rattle.std.specs.Prelude.{◌≡◌, ◌≤◌, ◌++◌, ◌∷◌, [], map, OnOk, IfOk};
ghost use Rattle.std.specs.List.{AllByRecursion};
ghost use Rattle.ground_core.specs.Problems.{IsLitOf, AreLitsOf};
ghost use Rattle.def_ground.specs.Answers.{AnswerWithin};
ghost use Rattle.def_ground.specs.Cases.{with_clauses};
ghost use Rattle.def_ground.specs.CaseSentences.{or_clause, assert_cases, alike_clauses, assert_alike};
ghost use Rattle.def_ground.specs.CaseViews.{case_view};
ghost use Rattle.def_ground.specs.Forms.{signed_result, same_of};
ghost use Rattle.def_ground.specs.Meanings.{IsCaseOf};

use crate::answers::Answer;
use crate::cases::{Case, without_variable};
use crate::gates::same;
use crate::shown_cases::push_each_case;
use ground_core::{Memory, Problem};
use lit_core::{Clause, Lit};
use std::alloc::Global;

/// The clause of the literals and one more.
fn longer_clause(alloc: Global, lits: &[Lit], lit: Lit) -> Result<Clause, Memory>
    ensures { IfOk result (λ c. c ≡ lits.now ++ lit ∷ []) }
{
    let mut clause = Clause::from_slice(alloc, lits)?;
    clause.push(lit)?;
    Ok(clause)
}

/// Says that one of the literals is true, or the answer is.
pub fn push_answer(
    alloc: Global,
    answer: Answer,
    lits: &[Lit],
    problem: &mut Problem,
) -> Result<(), Memory>
    requires answer { AnswerWithin problem.old.vars answer }
    requires lits { AreLitsOf problem.old.vars lits.now }
    ensures made { OnOk result (problem.new ≡ or_clause lits.now (record { answer = answer; problem = problem.old })) }
    ensures vars { OnOk result (problem.new.vars ≡ problem.old.vars) }
{
    match answer {
        Answer::Constant(true) => Ok(()),
        Answer::Constant(false) => problem.add_clause(Clause::from_slice(alloc, lits)?),
        Answer::Literal(lit) => problem.add_clause(longer_clause(alloc, lits, lit)?),
    }
}

/// Says that what the cases come to is true, or where the sign is false that it is not, or that one of the literals is
/// true.
pub fn push_cases(
    alloc: Global,
    sign: bool,
    lits: &[Lit],
    cases: &[Case<'_>],
    problem: &mut Problem,
) -> Result<(), Memory>
    requires lits { AreLitsOf problem.old.vars lits.now }
    requires cases { AllByRecursion (IsCaseOf problem.old.vars) (map case_view cases.now) }
    ensures made { OnOk result (problem.new ≡ assert_cases sign lits.now (map case_view cases.now) problem.old) }
    ensures vars { OnOk result (problem.new.vars ≡ problem.old.vars) }
{
    match without_variable(cases) {
        Some(answer) => push_answer(alloc, answer.signed(sign), lits, problem),
        None => push_each_case(alloc, sign, lits, cases, problem),
    }
}

/// The clause of the literals and two more.
fn clause_with_two(alloc: Global, lits: &[Lit], first: Lit, second: Lit) -> Result<Clause, Memory>
    ensures { IfOk result (λ c. c ≡ lits.now ++ first ∷ second ∷ []) }
{
    let mut clause = Clause::from_slice(alloc, lits)?;
    clause.push(first)?;
    clause.push(second)?;
    Ok(clause)
}

/// Says that two literals have one value, or that one of the others is true.
#[tactic(auto, using(crate::proofs::WithClauses::with_more))]
fn push_alike_lits(
    alloc: Global,
    lits: &[Lit],
    first: Lit,
    second: Lit,
    problem: &mut Problem,
) -> Result<(), Memory>
    requires lits { AreLitsOf problem.old.vars lits.now }
    requires first { IsLitOf problem.old.vars first }
    requires second { IsLitOf problem.old.vars second }
    ensures { OnOk result (problem.new ≡ with_clauses problem.old (alike_clauses lits.now first second)) }
{
    problem.add_clause(clause_with_two(alloc, lits, first.negated(), second)?)?;
    problem.add_clause(clause_with_two(alloc, lits, first, second.negated())?)
}

/// Says what two answers come to as one, or its opposite where the sign is false, or that one of the literals is true.
fn push_same(
    alloc: Global,
    sign: bool,
    first: Answer,
    second: Answer,
    lits: &[Lit],
    problem: &mut Problem,
) -> Result<(), Memory>
    requires first { AnswerWithin problem.old.vars first }
    requires second { AnswerWithin problem.old.vars second }
    requires lits { AreLitsOf problem.old.vars lits.now }
    ensures made { OnOk result
        (problem.new ≡ or_clause lits.now (signed_result sign (same_of first second problem.old))) }
    ensures grows { OnOk result (problem.old.vars ≤ problem.new.vars) }
{
    let answer = same(alloc, first, second, problem)?;
    push_answer(alloc, answer.signed(sign), lits, problem)
}

/// Says that two answers have one value, or where the sign is false that they have not, or that one of the literals is
/// true.
pub fn push_alike(
    alloc: Global,
    sign: bool,
    first: Answer,
    second: Answer,
    lits: &[Lit],
    problem: &mut Problem,
) -> Result<(), Memory>
    requires first { AnswerWithin problem.old.vars first }
    requires second { AnswerWithin problem.old.vars second }
    requires lits { AreLitsOf problem.old.vars lits.now }
    ensures made { OnOk result (problem.new ≡ assert_alike sign first second lits.now problem.old) }
    ensures grows { OnOk result (problem.old.vars ≤ problem.new.vars) }
{
    match first {
        Answer::Constant(_) => push_same(alloc, sign, first, second, lits, problem),
        Answer::Literal(l) => match second {
            Answer::Constant(_) => push_same(alloc, sign, first, second, lits, problem),
            Answer::Literal(m) => {
                if sign {
                    push_alike_lits(alloc, lits, l, m, problem)
                } else {
                    push_alike_lits(alloc, lits, l, m.negated(), problem)
                }
            }
        },
    }
}
