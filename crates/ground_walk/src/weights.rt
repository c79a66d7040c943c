//! The weights of an aggregate's instances.
ghost use Rattle.std.specs.Prelude.{◌≡◌, fold, OnOk};
ghost use Rattle.plain_evaluation.specs.Environments.{env_view};
ghost use Rattle.ground_core.specs.Problems.{ArePartsOf};
ghost use Rattle.term_values.specs.KnownBases.{IsGroundBase};
ghost use Rattle.def_ground.specs.Answers.{AnswerWithin};
ghost use Rattle.def_ground.specs.Linear.{row_step, rows_of_kind};
ghost use Rattle.def_ground.specs.LinearViews.{linear_view, LinearGrows};
ghost use Rattle.ground_walk.specs.Groundable.{HasVars};
ghost use Rattle.ground_walk.specs.Weighing.{weight_view, weight_rows, WeightFits};

use crate::scopes::Scope;
use def_ground::{Answer, Linear, Weighing, push_counted, push_weighed};
use ground_core::{Memory, Problem};
use kb_logic::{AggKind, Term};

/// How an aggregate weighs its instances, and the term that is an instance's weight. A number quantifier, which counts
/// them, has none.
#[derive(Clone, Copy)]
pub(crate) struct Weights<'a> {
    pub kind: AggKind,
    pub factor: i64,
    pub term: Option<&'a Term>,
}

/// Adds an instance by the rows of its weight, under what its condition comes to.
fn add_weighed<'a>(
    scope: Scope<'a>,
    weights: Weights<'a>,
    answer: Answer,
    linear: &mut Linear,
    problem: &mut Problem,
) -> Result<(), Memory>
    requires given { IsGroundBase scope.base.now }
    requires room { HasVars scope.base.now problem.old }
    requires fits { WeightFits scope.base.now (weight_view weights) (env_view scope.env.now) }
    requires answer { AnswerWithin problem.old.vars answer }
    requires parts { ArePartsOf problem.old.vars linear.old.parts }
    ensures made { OnOk result (linear_view linear.new problem.new
        ≡ fold (row_step weights.entry.kind weights.entry.factor answer) (linear_view linear.old problem.old)
        (weight_rows scope.entry.base.now (weight_view weights.entry) (env_view scope.entry.env.now))) }
    ensures grows { OnOk result (LinearGrows problem.old problem.new linear.new.parts) }
{
    let Some(term) = weights.term else {
        return Ok(());
    };
    let rows = scope.base.rows(scope.alloc, term, scope.env)?;
    let how = Weighing {
        kind: weights.kind,
        factor: weights.factor,
        answer,
    };
    push_weighed(scope.alloc, how, &rows, linear, problem)
}

/// Adds an instance, under what its condition comes to.
pub(crate) fn add_instance<'a>(
    scope: Scope<'a>,
    weights: Weights<'a>,
    answer: Answer,
    linear: &mut Linear,
    problem: &mut Problem,
) -> Result<(), Memory>
    requires given { IsGroundBase scope.base.now }
    requires room { HasVars scope.base.now problem.old }
    requires fits { WeightFits scope.base.now (weight_view weights) (env_view scope.env.now) }
    requires answer { AnswerWithin problem.old.vars answer }
    requires parts { ArePartsOf problem.old.vars linear.old.parts }
    ensures made { OnOk result (linear_view linear.new problem.new
        ≡ fold (row_step weights.entry.kind weights.entry.factor answer) (linear_view linear.old problem.old)
        (rows_of_kind weights.entry.kind (weight_rows scope.entry.base.now (weight_view weights.entry)
        (env_view scope.entry.env.now)))) }
    ensures grows { OnOk result (LinearGrows problem.old problem.new linear.new.parts) }
{
    match weights.kind {
        AggKind::Count => push_counted(scope.alloc, weights.factor, answer, linear, problem),
        AggKind::Sum => add_weighed(scope, weights, answer, linear, problem),
        AggKind::Min => add_weighed(scope, weights, answer, linear, problem),
        AggKind::Max => add_weighed(scope, weights, answer, linear, problem),
    }
}
