//! Why a literal is true in all models.
ghost use Rattle.std.specs.Prelude.{◌+◌, length, IfOk, IfErr};
ghost use Rattle.kb_logic.specs.Bases.{Base};
ghost use Rattle.kb_logic.specs.Models.{IsAtomOver, atom_of};
ghost use Rattle.ground_core.specs.Solving.{IsBudgetOf, HaltedAt};
ghost use Rattle.ground_core.specs.Calls.{CallEnds};
ghost use Rattle.ground_task.specs.Tasks.{IsTaskOf, IsTask};
ghost use Rattle.ground_task.specs.Choices.{AreOver};
ghost use Rattle.task_queries.specs.Queries.{AnswersSupport, ShowsInconsistent};

use crate::found::Reason;
use ground_core::{Budget, Halt, Solve};
use ground_task::Task;
use kb_logic::Literal;
use std::alloc::Global;
use support_explainer::reason::Support;
use support_explainer::support as support_of;

/// Why the literal is true in all models under the choices, if it is.
pub fn support<S: Solve>(
    alloc: Global,
    task: &mut Task<S>,
    choices: &[Literal],
    literal: &Literal,
    budget: &mut Budget,
) -> Result<Reason, Halt>
    requires task { IsTask task.old.numbers (S.state task.old.solver).problem }
    requires choices { AreOver task.old.numbers choices.now }
    requires literal { IsAtomOver task.old.numbers.vocabulary.symbols task.old.numbers.domains (atom_of literal.now) }
    requires budget { IsBudgetOf (S.state task.old.solver).learnt budget.old }
    ensures answer { IfOk result (λ a. (base : Base)
        → IsTaskOf base task.old.numbers (S.state task.old.solver).problem
        → AnswersSupport base choices.now literal.now a) }
    ensures refuted { IfOk result (ShowsInconsistent task.old.numbers choices.now (S.state task.new.solver).cores) }
    ensures task { (base : Base) → IsTaskOf base task.old.numbers (S.state task.old.solver).problem
        → IsTaskOf base task.new.numbers (S.state task.new.solver).problem }
    ensures halt { IfErr result (HaltedAt budget.new) }
    ensures ends { CallEnds (length choices.now + 2) (S.state task.old.solver) (S.state task.new.solver)
        budget.old budget.new }
    ensures later { S.goes_on task.old.solver task.new.solver }
{
    task.known();
    let Ok(lits) = task.lits_of(alloc, choices) else {
        return Err(Halt::Memory);
    };
    let target = task.lit_of(literal);
    match support_of(alloc, task, lits.as_slice(), target, budget) {
        Ok(Support::By(core)) => {
            match task.chosen_among(alloc, choices, lits.as_slice(), core.as_slice()) {
                Ok(some) => Ok(Reason::By(some)),
                Err(_) => Err(Halt::Memory),
            }
        }
        Ok(Support::Free(_)) => Ok(Reason::Free),
        Ok(Support::Inconsistent) => Ok(Reason::Inconsistent),
        Err(halt) => Err(halt),
    }
}
