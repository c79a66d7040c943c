//! Aggregates that are compared with the rows of terms: a threshold for each row.
ghost use Rattle.std.specs.Prelude.{◌≡◌, ◌≤◌, [], fold, map, IfOk};
ghost use Rattle.std.specs.List.{AllByRecursion};
ghost use Rattle.kb_logic.specs.Values.{value_view};
ghost use Rattle.ground_core.specs.Problems.{AreLitsOf, ArePartsOf};
ghost use Rattle.def_ground.specs.Answers.{Makes, Grows};
ghost use Rattle.def_ground.specs.CaseViews.{case_view};
ghost use Rattle.def_ground.specs.LinearViews.{linear_view};
ghost use Rattle.def_ground.specs.Meanings.{IsCaseOf};
ghost use Rattle.def_ground.specs.Thresholds.{compared_with_row, threshold_step};
ghost use Rattle.def_ground.specs.Thresholds.{compared_with_rows as comparison_with_rows};

use crate::answers::Answer;
use crate::case_answers::answer_of_cases;
use crate::cases::{Case, case_of};
use crate::linear::Linear;
use crate::thresholds::compared_at;
use ground_core::{Memory, Problem};
use kb_logic::values::Value;
use kb_logic::{AggKind, Cmp};
use std::alloc::Global;
use term_values::Rows;

/// How an aggregate compares with the value of a row. With one that is no number it compares in no way.
fn compared_with_value(
    alloc: Global,
    kind: AggKind,
    cmp: Cmp,
    linear: &Linear,
    value: Value<'_>,
    problem: &mut Problem,
) -> Result<Answer, Memory>
    requires parts { ArePartsOf problem.old.vars linear.now.parts }
    ensures made { IfOk result (λ a. Makes (compared_with_row kind cmp (linear_view linear.now problem.old)
        (value_view value.entry)) a problem.new) }
    ensures grows { IfOk result (λ a. Grows problem.old problem.new a) }
{
    match value {
        Value::Num(number) => compared_at(alloc, kind, cmp, linear, number, problem),
        _ => Ok(Answer::Constant(false)),
    }
}

/// A case for each row.
fn threshold_cases<'r>(
    alloc: Global,
    kind: AggKind,
    cmp: Cmp,
    linear: &Linear,
    rows: &'r Rows<'_>,
    problem: &mut Problem,
) -> Result<Vec<Case<'r>>, Memory>
    requires parts { ArePartsOf problem.old.vars linear.now.parts }
    requires rows { AllByRecursion (λ r. AreLitsOf problem.old.vars r.0) rows.now }
    ensures cases { IfOk result (λ cs. map case_view cs.items
        ≡ (fold (threshold_step kind cmp (linear_view linear.now problem.old))
        (record { cases = []; problem = problem.old }) rows.now).cases) }
    ensures problem { IfOk result (λ cs. problem.new
        ≡ (fold (threshold_step kind cmp (linear_view linear.now problem.old))
        (record { cases = []; problem = problem.old }) rows.now).problem) }
    ensures within { IfOk result (λ cs. AllByRecursion (IsCaseOf problem.new.vars) (map case_view cs.items)) }
    ensures grows { IfOk result (λ cs. problem.old.vars ≤ problem.new.vars) }
{
    let mut cases = Vec::with_capacity(alloc, rows.len())?;
    for row in 0..rows.len() {
        let answer = compared_with_value(alloc, kind, cmp, linear, rows.value(row), problem)?;
        cases.push(case_of(alloc, rows.guards(row), answer)?)?;
    }
    Ok(cases)
}

/// How an aggregate compares with a term of these rows. Where there is none, no valuation has a structure.
pub fn compared_with_rows(
    alloc: Global,
    kind: AggKind,
    cmp: Cmp,
    linear: &Linear,
    rows: &Rows<'_>,
    problem: &mut Problem,
) -> Result<Answer, Memory>
    requires parts { ArePartsOf problem.old.vars linear.now.parts }
    requires rows { AllByRecursion (λ r. AreLitsOf problem.old.vars r.0) rows.now }
    ensures made { IfOk result (λ a. Makes (comparison_with_rows kind cmp (linear_view linear.now problem.old)
        rows.now) a problem.new) }
    ensures grows { IfOk result (λ a. Grows problem.old problem.new a) }
{
    if rows.len() == 0 {
        return Ok(Answer::Constant(true));
    }
    let cases = threshold_cases(alloc, kind, cmp, linear, rows, problem)?;
    answer_of_cases(alloc, cases.as_slice(), problem)
}
