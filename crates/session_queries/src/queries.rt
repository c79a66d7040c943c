//! The queries of a session: each asks a task, and answers by a reply.
ghost use Rattle.std.specs.Prelude.{◌≡◌, ◌≤◌, ◌<◌, ◌+◌, All, IfOk, List, length};
ghost use Rattle.kb_logic.specs.Bases.{Base};
ghost use Rattle.kb_logic.specs.Structures.{EachWith};
ghost use Rattle.kb_logic.specs.Models.{IsAtomOver, atom_of};
ghost use Rattle.consult_text.specs.declared.commands.Command.TheVariants as command;
ghost use Rattle.ground_core.specs.Solving.{IsPrefix};
ghost use Rattle.lit_core.specs.declared.literals.Lit.{Lit as ALit};
ghost use Rattle.atom_numbers.specs.Numbers.{HasNumber};
ghost use Rattle.consequences.specs.Forced.{IsSeen};
ghost use Rattle.kept_supports.specs.Supports.{IsSupported, undecided};
ghost use Rattle.forced_literals.specs.OpenTasks.{IsOpenTask, IsOpenTaskWith};
ghost use Rattle.ground_task.specs.Choices.{AreOver};
ghost use Rattle.ground_task.specs.Tasks.{IsTask, IsTaskOf};
ghost use Rattle.found_models.specs.Models.{AreFoundModels, IsTaskWith};
ghost use Rattle.session_queries.specs.Queries.{CoversReply, IsHalted, QueryEnds, SearchesUpTo};

use chooser::Choose;
use clause_learning::Solver;
use consult_text::Reply;
use forced_literals::{Unknown, forced};
use found_models::{FoundModels, known_model, new_model};
use ground_core::{Budget, Halt, Solve};
use ground_task::Task;
use kb_logic::{Literal, Memory};
use kept_supports::KeptSupports;
use std::alloc::Global;
use task_queries::{Reason, conflict, least, support};

/// The reply where a search halted: it stays undecided where the budget was spent.
fn halted(halt: Halt, budget: &Budget) -> Result<Reply, Memory>
    ensures { IsHalted halt budget.now result }
{
    match halt {
        Halt::Spent => Ok(Reply::Undecided(budget.spent)),
        Halt::Memory => Err(Memory),
    }
}

/// The reply to `model`, where no model that was found makes every choice true: one search for a model, which is kept.
fn seek_model<C: Choose + Drop>(
    alloc: Global,
    task: &mut Task<Solver<C>>,
    found: &mut FoundModels,
    choices: &[Literal],
    limit: Option<u64>,
) -> Result<Reply, Memory>
    requires task { IsTaskWith task.old.numbers task.old.solver.kept.problem found.old }
    requires choices { AreOver task.old.numbers choices.now }
    ensures ends { QueryEnds (λ kb. IsTaskOf kb task.old.numbers task.old.solver.kept.problem) command.Model
        choices.now limit task.old.numbers task.new.numbers task.old.solver.kept task.new.solver.kept result }
    ensures found { (kb : Base) → IsTaskOf kb task.old.numbers task.old.solver.kept.problem
        → AreFoundModels kb found.old → AreFoundModels kb found.new }
{
    let mut budget = Budget { limit, spent: 0 };
    match new_model(alloc, task, found, choices, &mut budget) {
        Ok(Some(model)) => Ok(Reply::Model(model)),
        Ok(None) => Ok(Reply::Inconsistent),
        Err(halt) => halted(halt, &budget),
    }
}

/// The reply to `model`: the newest model found that makes every choice true, and else one by a search.
pub fn model<C: Choose + Drop>(
    alloc: Global,
    task: &mut Task<Solver<C>>,
    found: &mut FoundModels,
    choices: &[Literal],
    limit: Option<u64>,
) -> Result<Reply, Memory>
    requires task { IsTaskWith task.old.numbers task.old.solver.kept.problem found.old }
    requires choices { AreOver task.old.numbers choices.now }
    ensures ends { QueryEnds (λ kb. IsTaskOf kb task.old.numbers task.old.solver.kept.problem × AreFoundModels kb
        found.old) command.Model choices.now limit task.old.numbers task.new.numbers task.old.solver.kept
        task.new.solver.kept result }
    ensures found { (kb : Base) → IsTaskOf kb task.old.numbers task.old.solver.kept.problem
        → AreFoundModels kb found.old → AreFoundModels kb found.new }
{
    task.known();
    match known_model(alloc, task, found, choices) {
        Ok(Some(model)) => Ok(Reply::Model(model)),
        Ok(None) => seek_model(alloc, task, found, choices, limit),
        Err(_) => Err(Memory),
    }
}

/// The reply to `models`: different models that make every choice true, at most so many.
pub fn models<C: Choose + Drop>(
    alloc: Global,
    task: &mut Task<Solver<C>>,
    choices: &[Literal],
    limit: Option<u64>,
    most: u32,
) -> Result<Reply, Memory>
    requires task { IsTask task.old.numbers task.old.solver.kept.problem }
    requires choices { AreOver task.old.numbers choices.now }
    requires most { 1 ≤ most }
    ensures { QueryEnds (λ kb. IsTaskOf kb task.old.numbers task.old.solver.kept.problem) (command.Models most)
        choices.now limit task.old.numbers task.new.numbers task.old.solver.kept task.new.solver.kept result }
{
    let mut budget = Budget { limit, spent: 0 };
    match task_queries::models(alloc, task, choices, most, &mut budget) {
        Ok(Some(models)) => Ok(Reply::Models(models.list, models.all)),
        Ok(None) => Ok(Reply::Inconsistent),
        Err(halt) => halted(halt, &budget),
    }
}

/// The reply to `propagate`: what all models that make every choice true have in common, of the atoms that the data
/// leave unknown. What is kept with choices that are in force is not searched for, nor what is false in a model that
/// was found; what is found is kept.
pub fn propagate<C: Choose + Drop>(
    alloc: Global,
    task: &mut Task<Solver<C>>,
    choices: &[Literal],
    limit: Option<u64>,
    unknown: &Unknown<'_>,
    supports: &mut KeptSupports,
) -> Result<Reply, Memory>
    requires task { IsOpenTask task.old.numbers task.old.solver.kept.problem unknown.now.lits.now choices.now
        supports.old }
    requires seen { (lits : List ALit) → EachWith (HasNumber task.old.numbers) choices.now lits
        → All (IsSeen task.old.solver.kept.problem lits) unknown.now.seen.now }
    requires choices { AreOver task.old.numbers choices.now }
    ensures ends { QueryEnds (λ kb. IsOpenTaskWith kb task.old.numbers task.old.solver.kept.problem unknown.now.lits.now
        choices.now supports.old) command.Propagate choices.now limit task.old.numbers task.new.numbers
        task.old.solver.kept task.new.solver.kept result }
    ensures kept { IsPrefix supports.old supports.new }
    ensures supported { (kb : Base) → IsOpenTaskWith kb task.old.numbers task.old.solver.kept.problem
        unknown.now.lits.now choices.now supports.old → All (IsSupported kb choices.now) supports.new }
    ensures covers { IfOk result (λ r. (kb : Base) → IsOpenTaskWith kb task.old.numbers task.old.solver.kept.problem
        unknown.now.lits.now choices.now supports.old → CoversReply kb choices.now supports.new r) }
    ensures searches { SearchesUpTo (length (undecided supports.old unknown.now.lits.now) + 1) task.old.solver.kept
        task.new.solver.kept }
{
    let mut budget = Budget { limit, spent: 0 };
    match forced(alloc, task, choices, unknown, supports, &mut budget) {
        Ok(Some(literals)) => Ok(Reply::Forced(literals)),
        Ok(None) => Ok(Reply::Inconsistent),
        Err(halt) => halted(halt, &budget),
    }
}

/// The reply to `minimize`: the least value of the term block with this number in the models that make every choice
/// true, with one that has it.
pub fn minimize<C: Choose + Drop>(
    alloc: Global,
    task: &mut Task<Solver<C>>,
    choices: &[Literal],
    limit: Option<u64>,
    term: u32,
) -> Result<Reply, Memory>
    requires task { IsTask task.old.numbers task.old.solver.kept.problem }
    requires choices { AreOver task.old.numbers choices.now }
    requires term { term < length task.old.solver.kept.problem.terms }
    ensures { QueryEnds (λ kb. IsTaskOf kb task.old.numbers task.old.solver.kept.problem) (command.Minimize term)
        choices.now limit task.old.numbers task.new.numbers task.old.solver.kept task.new.solver.kept result }
{
    let mut budget = Budget { limit, spent: 0 };
    match least(alloc, task, choices, term, &mut budget) {
        Ok(Some(least)) => Ok(Reply::Minimum(least.value, least.model)),
        Ok(None) => Ok(Reply::Inconsistent),
        Err(halt) => halted(halt, &budget),
    }
}

/// The reply to `explain`: why the literal is true in all models that make every choice true, if it is.
pub fn explain<C: Choose + Drop>(
    alloc: Global,
    task: &mut Task<Solver<C>>,
    choices: &[Literal],
    limit: Option<u64>,
    literal: &Literal,
) -> Result<Reply, Memory>
    requires task { IsTask task.old.numbers task.old.solver.kept.problem }
    requires choices { AreOver task.old.numbers choices.now }
    requires literal { IsAtomOver task.old.numbers.vocabulary.symbols task.old.numbers.domains (atom_of literal.now) }
    ensures { QueryEnds (λ kb. IsTaskOf kb task.old.numbers task.old.solver.kept.problem) (command.Explain literal.now)
        choices.now limit task.old.numbers task.new.numbers task.old.solver.kept task.new.solver.kept result }
{
    let mut budget = Budget { limit, spent: 0 };
    match support(alloc, task, choices, literal, &mut budget) {
        Ok(Reason::By(some)) => Ok(Reply::Supported(some)),
        Ok(Reason::Free) => Ok(Reply::Free),
        Ok(Reason::Inconsistent) => Ok(Reply::Inconsistent),
        Err(halt) => halted(halt, &budget),
    }
}

/// The reply to `why`: choices under which there is no model, or that there is one.
pub fn why<C: Choose + Drop>(
    alloc: Global,
    task: &mut Task<Solver<C>>,
    choices: &[Literal],
    limit: Option<u64>,
) -> Result<Reply, Memory>
    requires task { IsTask task.old.numbers task.old.solver.kept.problem }
    requires choices { AreOver task.old.numbers choices.now }
    ensures { QueryEnds (λ kb. IsTaskOf kb task.old.numbers task.old.solver.kept.problem) command.Why
        choices.now limit task.old.numbers task.new.numbers task.old.solver.kept task.new.solver.kept result }
{
    let mut budget = Budget { limit, spent: 0 };
    match conflict(alloc, task, choices, &mut budget) {
        Ok(Some(some)) => Ok(Reply::Conflict(some)),
        Ok(None) => Ok(Reply::Consistent),
        Err(halt) => halted(halt, &budget),
    }
}
