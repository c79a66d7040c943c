//! What cases come to.
ghost use Rattle.std.specs.Prelude.{◌≡◌, map, IfOk};
ghost use Rattle.std.specs.List.{AllByRecursion};
ghost use Rattle.ground_core.specs.Growth.{next_lit};
ghost use Rattle.def_ground.specs.declared.answers.Answer.TheVariants.{Literal};
ghost use Rattle.def_ground.specs.Answers.{Makes, Grows};
ghost use Rattle.def_ground.specs.Cases.{with_cases, cases_of};
ghost use Rattle.def_ground.specs.CaseViews.{case_view};
ghost use Rattle.def_ground.specs.Meanings.{IsCaseOf};

use crate::answers::Answer;
use crate::cases::{Case, without_variable};
use crate::shown_cases::push_each_case;
use ground_core::{Memory, Problem};
use std::alloc::Global;

/// A new variable that has in each case the case's value.
#[tactic(auto, using(crate::proofs::WithClauses::with_more))]
fn add_cases(alloc: Global, cases: &[Case<'_>], problem: &mut Problem) -> Result<Answer, Memory>
    requires { AllByRecursion (IsCaseOf problem.old.vars) (map case_view cases.now) }
    ensures { IfOk result (λ a. (a ≡ Literal (next_lit problem.old))
        × (problem.new ≡ with_cases problem.old (map case_view cases.now))) }
{
    let out = problem.add_var()?;
    push_each_case(alloc, true, &[out.negated()], cases, problem)?;
    push_each_case(alloc, false, &[out], cases, problem)?;
    Ok(Answer::Literal(out))
}

/// What the cases come to: a constant, a literal, or else a new variable.
pub fn answer_of_cases(
    alloc: Global,
    cases: &[Case<'_>],
    problem: &mut Problem,
) -> Result<Answer, Memory>
    requires { AllByRecursion (IsCaseOf problem.old.vars) (map case_view cases.now) }
    ensures made { IfOk result (λ a. Makes (cases_of (map case_view cases.now) problem.old) a problem.new) }
    ensures grows { IfOk result (λ a. Grows problem.old problem.new a) }
{
    match without_variable(cases) {
        Some(answer) => Ok(answer),
        None => add_cases(alloc, cases, problem),
    }
}
