//! The least value of a term that may be asked for.
ghost use Rattle.std.specs.Prelude.{ℕ, ◌<◌, ◌+◌, length, IfOk, IfErr};
ghost use Rattle.kb_logic.specs.Bases.{Base};
ghost use Rattle.ground_core.specs.Solving.{IsBudgetOf, HaltedAt};
ghost use Rattle.ground_core.specs.Calls.{CallEnds};
ghost use Rattle.model_minimiser.specs.Minima.{Spans};
ghost use Rattle.ground_task.specs.Tasks.{IsTaskOf, IsTask, ShowsNone};
ghost use Rattle.ground_task.specs.Choices.{AreOver};
ghost use Rattle.task_queries.specs.Queries.{AnswersLeast};

use crate::found::Least;
use ground_core::{Budget, Grow, Halt, Solve};
use ground_task::Task;
use kb_logic::Literal;
use model_minimiser::least as least_of;
use std::alloc::Global;

/// The least value of the term with this number in the models under the choices, and a model in which it has it; None
/// where there is no model. The bounds that the searches stood under are retired in the end, also where the call halts.
pub fn least<S: Grow>(
    alloc: Global,
    task: &mut Task<S>,
    choices: &[Literal],
    term: u32,
    budget: &mut Budget,
) -> Result<Option<Least>, Halt>
    requires task { IsTask task.old.numbers (S.state task.old.solver).problem }
    requires choices { AreOver task.old.numbers choices.now }
    requires term { term < length (S.state task.old.solver).problem.terms }
    requires budget { IsBudgetOf (S.state task.old.solver).learnt budget.old }
    ensures answer { IfOk result (λ a. (base : Base)
        → IsTaskOf base task.old.numbers (S.state task.old.solver).problem → AnswersLeast base choices.now term a) }
    ensures refuted { IfOk result (ShowsNone task.old.numbers choices.now (S.state task.new.solver).cores) }
    ensures task { (base : Base) → IsTaskOf base task.old.numbers (S.state task.old.solver).problem
        → IsTaskOf base task.new.numbers (S.state task.new.solver).problem }
    ensures halt { IfErr result (HaltedAt budget.new) }
    ensures ends { (n : ℕ) → Spans (S.state task.old.solver).problem term n → CallEnds (n + 3)
        (S.state task.old.solver) (S.state task.new.solver) budget.old budget.new }
    ensures later { S.goes_on task.old.solver task.new.solver }
{
    task.known();
    let Ok(lits) = task.lits_of(alloc, choices) else {
        return Err(Halt::Memory);
    };
    let minimum = match least_of(alloc, task, lits.as_slice(), term, budget) {
        Ok(Some(minimum)) => minimum,
        Ok(None) => return Ok(None),
        Err(halt) => return Err(halt),
    };
    match task.structure_of(alloc, &minimum.values) {
        Ok(model) => Ok(Some(Least {
            value: minimum.value,
            model,
        })),
        Err(_) => Err(Halt::Memory),
    }
}
