//! The literals that a knowledge base and choices force.
ghost use Rattle.std.specs.Prelude.{◌≡◌, ◌+◌, length, All, List, IfOk, IfErr};
ghost use Rattle.kb_logic.specs.Bases.{Base};
ghost use Rattle.kb_logic.specs.Structures.{EachWith};
ghost use Rattle.lit_core.specs.declared.literals.Lit.{Lit as ALit};
ghost use Rattle.ground_core.specs.Solving.{IsBudgetOf, HaltedAt, IsPrefix};
ghost use Rattle.ground_core.specs.Calls.{CallEnds, Stays};
ghost use Rattle.atom_numbers.specs.Numbers.{HasNumber};
ghost use Rattle.consequences.specs.Forced.{IsSeen};
ghost use Rattle.ground_task.specs.Tasks.{IsTaskOf, ShowsNone};
ghost use Rattle.ground_task.specs.Choices.{AreOver};
ghost use Rattle.kept_supports.specs.Supports.{IsSupported, undecided};
ghost use Rattle.forced_literals.specs.OpenTasks.{CoversWhereSome, IsAnswer, IsOpenTask, IsOpenTaskWith};

use crate::picking::shown;
use crate::searching::forced_lits;
use crate::unknown::Unknown;
use ground_core::{Budget, Halt, Solve};
use ground_task::Task;
use kb_logic::{Literal, LiteralList};
use kept_supports::KeptSupports;
use std::alloc::Global;

/// The literals that are true in all models under the choices, in the order of all literals, and None where there is no
/// model. Those of atoms that the data make known, the choices, and what is implied by a function's value are left out.
/// What is kept with choices that are in force needs no search, nor does what a seen model makes false; what is found
/// is kept. Beside the searches, of which there are at most one for each unknown atom of which nothing is kept, and one
/// more, it takes time linear in the unknown atoms and in what is kept.
pub fn forced<S: Solve>(
    alloc: Global,
    task: &mut Task<S>,
    choices: &[Literal],
    unknown: &Unknown<'_>,
    supports: &mut KeptSupports,
    budget: &mut Budget,
) -> Result<Option<LiteralList>, Halt>
    requires task { IsOpenTask task.old.numbers (S.state task.old.solver).problem unknown.now.lits.now choices.now
        supports.old }
    requires choices { AreOver task.old.numbers choices.now }
    requires seen { (lits : List ALit) → EachWith (HasNumber task.old.numbers) choices.now lits
        → All (IsSeen (S.state task.old.solver).problem lits) unknown.now.seen.now }
    requires budget { IsBudgetOf (S.state task.old.solver).learnt budget.old }
    ensures answer { IfOk result (λ a. (base : Base)
        → IsOpenTaskWith base task.old.numbers (S.state task.old.solver).problem unknown.now.lits.now choices.now
        supports.old → IsAnswer base (record { choices = choices.now }) a) }
    ensures refuted { IfOk result (ShowsNone task.old.numbers choices.now (S.state task.new.solver).cores) }
    ensures kept { IsPrefix supports.old supports.new }
    ensures supported { (base : Base)
        → IsOpenTaskWith base task.old.numbers (S.state task.old.solver).problem unknown.now.lits.now choices.now
        supports.old → All (IsSupported base choices.now) supports.new }
    ensures covers { IfOk result (λ a. (base : Base)
        → IsOpenTaskWith base task.old.numbers (S.state task.old.solver).problem unknown.now.lits.now choices.now
        supports.old → CoversWhereSome base (record { choices = choices.now }) supports.new a) }
    ensures task { (base : Base) → IsTaskOf base task.old.numbers (S.state task.old.solver).problem
        → IsTaskOf base task.new.numbers (S.state task.new.solver).problem }
    ensures halt { IfErr result (HaltedAt budget.new) }
    ensures stays { Stays (S.state task.old.solver) (S.state task.new.solver) }
    ensures ends { CallEnds (length (undecided supports.old unknown.now.lits.now) + 1) (S.state task.old.solver)
        (S.state task.new.solver) budget.old budget.new }
    ensures later { S.goes_on task.old.solver task.new.solver }
{
    task.known();
    let Ok(lits) = task.lits_of(alloc, choices) else {
        return Err(Halt::Memory);
    };
    match forced_lits(alloc, task, lits.as_slice(), unknown, supports, budget) {
        Ok(Some(kept)) => {
            match shown(alloc, task.numbers(), lits.as_slice(), kept.as_slice()) {
                Ok(list) => Ok(Some(list)),
                Err(_) => Err(Halt::Memory),
            }
        }
        Ok(None) => Ok(None),
        Err(halt) => Err(halt),
    }
}
