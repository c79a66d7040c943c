//! Why there is no model.
ghost use Rattle.std.specs.Prelude.{◌+◌, length, IfOk, IfErr};
ghost use Rattle.kb_logic.specs.Bases.{Base};
ghost use Rattle.ground_core.specs.Solving.{IsBudgetOf, HaltedAt};
ghost use Rattle.ground_core.specs.Calls.{CallEnds};
ghost use Rattle.ground_task.specs.Tasks.{IsTaskOf, IsTask};
ghost use Rattle.ground_task.specs.Choices.{AreOver};
ghost use Rattle.task_queries.specs.Queries.{AnswersConflict};

use ground_core::{Budget, Halt, Solve};
use ground_task::Task;
use kb_logic::{Literal, LiteralList};
use std::alloc::Global;
use support_explainer::conflict as conflict_of;

/// Some of the choices under which there is no model, in their order, where none of them can be spared; None where
/// there is a model under all of them.
pub fn conflict<S: Solve>(
    alloc: Global,
    task: &mut Task<S>,
    choices: &[Literal],
    budget: &mut Budget,
) -> Result<Option<LiteralList>, Halt>
    requires task { IsTask task.old.numbers (S.state task.old.solver).problem }
    requires choices { AreOver task.old.numbers choices.now }
    requires budget { IsBudgetOf (S.state task.old.solver).learnt budget.old }
    ensures answer { IfOk result (λ a. (base : Base)
        → IsTaskOf base task.old.numbers (S.state task.old.solver).problem → AnswersConflict base choices.now a) }
    ensures task { (base : Base) → IsTaskOf base task.old.numbers (S.state task.old.solver).problem
        → IsTaskOf base task.new.numbers (S.state task.new.solver).problem }
    ensures halt { IfErr result (HaltedAt budget.new) }
    ensures ends { CallEnds (length choices.now + 2) (S.state task.old.solver) (S.state task.new.solver)
        budget.old budget.new }
    ensures later { S.goes_on task.old.solver task.new.solver }
{
    task.known();
    let Ok(lits) = task.lits_of(alloc, choices) else {
        return Err(Halt::Memory);
    };
    match conflict_of(alloc, task, lits.as_slice(), budget) {
        Ok(Some(core)) => {
            match task.chosen_among(alloc, choices, lits.as_slice(), core.as_slice()) {
                Ok(some) => Ok(Some(some)),
                Err(_) => Err(Halt::Memory),
            }
        }
        Ok(None) => Ok(None),
        Err(halt) => Err(halt),
    }
}
