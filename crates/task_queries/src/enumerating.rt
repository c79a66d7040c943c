//! Several models.
ghost use Rattle.std.specs.Prelude.{◌≡◌, ◌≤◌, ◌+◌, map, IfOk, IfErr};
ghost use Rattle.kb_logic.specs.Bases.{Base};
ghost use Rattle.lit_core.specs.Literals.{valuation};
ghost use Rattle.ground_core.specs.Solving.{IsBudgetOf, HaltedAt};
ghost use Rattle.ground_core.specs.Calls.{CallEnds};
ghost use Rattle.term_values.specs.GroundBases.{structure_of};
ghost use Rattle.ground_task.specs.Tasks.{IsTaskOf, IsTask, ShowsNone};
ghost use Rattle.ground_task.specs.Choices.{AreOver};
ghost use Rattle.task_queries.specs.Queries.{AnswersModels};

use crate::found::{Models, StructureList};
use ground_core::{Budget, Grow, Halt, Solve};
use ground_task::Task;
use kb_logic::{Literal, Memory};
use lit_core::Values;
use model_expansion::several;
use std::alloc::Global;

/// The structures of the values, in their order.
fn structures_of<S: Solve>(
    alloc: Global,
    task: &Task<S>,
    found: &[Values],
) -> Result<StructureList, Memory>
    ensures { IfOk result (λ ms. ms ≡ map (λ v. structure_of task.now.numbers (valuation v)) found.now) }
{
    let mut list = StructureList::new(alloc);
    for values in found {
        list.push(task.structure_of(alloc, values)?)?;
    }
    Ok(list)
}

/// Up to `most` models under the choices, no two of them the same, and whether they are all; None where there is none.
/// The exclusions of the models found are retired in the end, also where the call halts.
pub fn models<S: Grow>(
    alloc: Global,
    task: &mut Task<S>,
    choices: &[Literal],
    most: u32,
    budget: &mut Budget,
) -> Result<Option<Models>, Halt>
    requires task { IsTask task.old.numbers (S.state task.old.solver).problem }
    requires choices { AreOver task.old.numbers choices.now }
    requires most { 1 ≤ most }
    requires budget { IsBudgetOf (S.state task.old.solver).learnt budget.old }
    ensures answer { IfOk result (λ a. (base : Base)
        → IsTaskOf base task.old.numbers (S.state task.old.solver).problem → AnswersModels base choices.now most a) }
    ensures refuted { IfOk result (ShowsNone task.old.numbers choices.now (S.state task.new.solver).cores) }
    ensures task { (base : Base) → IsTaskOf base task.old.numbers (S.state task.old.solver).problem
        → IsTaskOf base task.new.numbers (S.state task.new.solver).problem }
    ensures halt { IfErr result (HaltedAt budget.new) }
    ensures ends { CallEnds (most + 1) (S.state task.old.solver) (S.state task.new.solver)
        budget.old budget.new }
    ensures later { S.goes_on task.old.solver task.new.solver }
{
    task.known();
    let Ok(lits) = task.lits_of(alloc, choices) else {
        return Err(Halt::Memory);
    };
    let found = match several(alloc, task, lits.as_slice(), most, budget) {
        Ok(found) => found,
        Err(halt) => return Err(halt),
    };
    if found.found.is_empty() {
        return Ok(None);
    }
    match structures_of(alloc, task, found.found.as_slice()) {
        Ok(list) => Ok(Some(Models {
            list,
            all: found.complete,
        })),
        Err(_) => Err(Halt::Memory),
    }
}
