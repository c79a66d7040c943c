//! Questions that found models answer, and the question that finds one.
ghost use Rattle.std.specs.Prelude.{◌≡◌, All, List, IfOk, IfErr, IfSome};
ghost use Rattle.kb_logic.specs.Bases.{Base, IsModelUnder};
ghost use Rattle.kb_logic.specs.Structures.{EachWith};
ghost use Rattle.lit_core.specs.declared.literals.Lit.{Lit};
ghost use Rattle.ground_core.specs.Solving.{IsBudgetOf, HaltedAt};
ghost use Rattle.ground_core.specs.Calls.{CallEnds, Stays};
ghost use Rattle.atom_numbers.specs.Numbers.{HasNumber};
ghost use Rattle.consequences.specs.Forced.{IsSeen};
ghost use Rattle.ground_task.specs.Tasks.{IsTaskOf, ShowsNone};
ghost use Rattle.ground_task.specs.Choices.{AreOver};
ghost use Rattle.found_models.specs.Found.{those_under};
ghost use Rattle.found_models.specs.Models.{AreFoundModels, IsTaskWith, IsKept, IsNewest, IsAnswer};

use crate::models::FoundModels;
use atom_numbers::FoundStructure;
use ground_core::{Budget, Halt, Solve, Verdict};
use ground_task::Task;
use kb_logic::{Literal, Memory};
use lit_core::Values;
use model_expansion::expand;
use std::alloc::Global;

/// The newest of the found models that make the choices true, without a search.
pub fn known_model<S: Solve>(
    alloc: Global,
    task: &Task<S>,
    found: &FoundModels,
    choices: &[Literal],
) -> Result<Option<FoundStructure>, Memory>
    requires task { IsTaskWith task.now.numbers (S.state task.now.solver).problem found.now }
    requires choices { AreOver task.now.numbers choices.now }
    ensures newest { IfOk result (λ it. (lits : List Lit) → EachWith (HasNumber task.now.numbers) choices.now lits
        → IsNewest task.now.numbers lits found.now.models it) }
    ensures model { IfOk result (λ it. (base : Base)
        → IsTaskOf base task.now.numbers (S.state task.now.solver).problem → AreFoundModels base found.now
        → IfSome it (IsModelUnder base choices.now)) }
{
    let lits = task.lits_of(alloc, choices)?;
    match found.newest(lits.as_slice()) {
        Some(values) => Ok(Some(task.structure_of(alloc, values)?)),
        None => Ok(None),
    }
}

/// The found models that make the choices true.
pub fn models_under<S: Solve>(
    alloc: Global,
    task: &Task<S>,
    found: &FoundModels,
    choices: &[Literal],
) -> Result<Vec<Values>, Memory>
    requires task { IsTaskWith task.now.numbers (S.state task.now.solver).problem found.now }
    requires choices { AreOver task.now.numbers choices.now }
    ensures all { IfOk result (λ some. (lits : List Lit) → EachWith (HasNumber task.now.numbers) choices.now lits
        → some.items ≡ those_under lits found.now.models) }
    ensures seen { IfOk result (λ some. (lits : List Lit) → EachWith (HasNumber task.now.numbers) choices.now lits
        → All (IsSeen (S.state task.now.solver).problem lits) some.items) }
{
    let lits = task.lits_of(alloc, choices)?;
    found.all_under(alloc, lits.as_slice())
}

/// A model that makes the choices true, by one search, and None where there is none. What is answered was kept: where
/// there is no memory for that, there is no answer.
pub fn new_model<S: Solve>(
    alloc: Global,
    task: &mut Task<S>,
    found: &mut FoundModels,
    choices: &[Literal],
    budget: &mut Budget,
) -> Result<Option<FoundStructure>, Halt>
    requires task { IsTaskWith task.old.numbers (S.state task.old.solver).problem found.old }
    requires choices { AreOver task.old.numbers choices.now }
    requires budget { IsBudgetOf (S.state task.old.solver).learnt budget.old }
    ensures answer { IfOk result (λ it. (base : Base)
        → IsTaskOf base task.old.numbers (S.state task.old.solver).problem → IsAnswer base choices.now it) }
    ensures refuted { IfOk result (ShowsNone task.old.numbers choices.now (S.state task.new.solver).cores) }
    ensures found { (base : Base) → IsTaskOf base task.old.numbers (S.state task.old.solver).problem
        → AreFoundModels base found.old → AreFoundModels base found.new }
    ensures task { (base : Base) → IsTaskOf base task.old.numbers (S.state task.old.solver).problem
        → IsTaskOf base task.new.numbers (S.state task.new.solver).problem }
    ensures halt { IfErr result (HaltedAt budget.new) }
    ensures stays { Stays (S.state task.old.solver) (S.state task.new.solver) }
    ensures ends { CallEnds 1 (S.state task.old.solver) (S.state task.new.solver) budget.old budget.new }
    ensures later { S.goes_on task.old.solver task.new.solver }
    ensures kept { IfOk result (IsKept task.old.numbers found.old found.new) }
{
    task.known();
    let Ok(lits) = task.lits_of(alloc, choices) else {
        return Err(Halt::Memory);
    };
    match expand(task, lits.as_slice(), budget) {
        Ok(Verdict::Sat(values)) => match found.keep(alloc, &values) {
            Ok(()) => match task.structure_of(alloc, &values) {
                Ok(model) => Ok(Some(model)),
                Err(_) => Err(Halt::Memory),
            },
            Err(_) => Err(Halt::Memory),
        },
        Ok(Verdict::Unsat(_)) => Ok(None),
        Err(halt) => Err(halt),
    }
}
