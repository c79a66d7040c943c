//! Asks a solver. A call that halts says so.
ghost use Rattle.std.specs.Prelude.{◌≡◌, [], length, All, None};
ghost use Rattle.ground_core.specs.Problems.{AreLitsOf};
ghost use Rattle.consequences.specs.Forced.{IsSeen};

use crate::reading::{Asked, Task};
use crate::texts::{kept_text, least_text, lits_text, several_text, values_text};
use consequences::{Question, forced};
use ground_core::{Budget, Grow, Memory, Solve, Verdict};
use lit_core::{Lit, Values};
use model_expansion::{expand, several};
use model_minimiser::least;
use model_search::joined;
use solving_fixtures::are_over;
use std::alloc::Global;
use support_explainer::reason::Support;
use support_explainer::{conflict, support};

/// A budget without a limit.
fn unlimited() -> Budget
    ensures { result ≡ record { limit = None; spent = 0 } }
{
    Budget {
        limit: None,
        spent: 0,
    }
}

fn word(alloc: Global, word: &str) -> Result<String, Memory> {
    String::from_str(alloc, word)
}

fn ask_model<S: Solve>(
    alloc: Global,
    solver: &mut S,
    atoms: u64,
    asked: &Asked,
) -> Result<String, Memory>
    requires assumed { AreLitsOf (S.state solver.old).problem.vars asked.now.assumed.items }
    requires retired { (S.state solver.old).problem.retired ≡ [] }
{
    match expand(solver, asked.assumed.as_slice(), &mut unlimited()) {
        Ok(Verdict::Sat(values)) => values_text(alloc, &values, atoms),
        Ok(Verdict::Unsat(_)) => word(alloc, "unsatisfiable"),
        Err(_) => word(alloc, "halted"),
    }
}

fn ask_forced<S: Solve>(
    alloc: Global,
    solver: &mut S,
    atoms: u64,
    asked: &Asked,
    seen: &[Values],
) -> Result<String, Memory>
    requires assumed { AreLitsOf (S.state solver.old).problem.vars asked.now.assumed.items }
    requires asked { AreLitsOf (S.state solver.old).problem.vars asked.now.lits.items }
    requires atoms { atoms ≡ length (S.state solver.old).problem.atoms }
    requires retired { (S.state solver.old).problem.retired ≡ [] }
    requires seen { All (IsSeen (S.state solver.old).problem asked.now.assumed.items) seen.now }
{
    let question = Question {
        assume: asked.assumed.as_slice(),
        ask: asked.lits.as_slice(),
        seen,
        atoms,
    };
    match forced(alloc, solver, &question, &mut unlimited()) {
        Ok(Some(kept)) => kept_text(alloc, kept.as_slice()),
        Ok(None) => word(alloc, "inconsistent"),
        Err(_) => word(alloc, "halted"),
    }
}

/// Which literals are forced, after a search has shown a model.
fn ask_seen<S: Solve>(
    alloc: Global,
    solver: &mut S,
    atoms: u64,
    asked: &Asked,
) -> Result<String, Memory>
    requires assumed { AreLitsOf (S.state solver.old).problem.vars asked.now.assumed.items }
    requires asked { AreLitsOf (S.state solver.old).problem.vars asked.now.lits.items }
    requires atoms { atoms ≡ length (S.state solver.old).problem.atoms }
    requires retired { (S.state solver.old).problem.retired ≡ [] }
{
    match expand(solver, asked.assumed.as_slice(), &mut unlimited()) {
        Ok(Verdict::Sat(values)) => ask_forced(alloc, solver, atoms, asked, &[values]),
        Ok(Verdict::Unsat(_)) => word(alloc, "inconsistent"),
        Err(_) => word(alloc, "halted"),
    }
}

fn ask_several<S: Grow>(alloc: Global, solver: &mut S, asked: &Asked) -> Result<String, Memory>
    requires assumed { AreLitsOf (S.state solver.old).problem.vars asked.now.assumed.items }
    requires retired { (S.state solver.old).problem.retired ≡ [] }
{
    match several(
        alloc,
        solver,
        asked.assumed.as_slice(),
        asked.most,
        &mut unlimited(),
    ) {
        Ok(several) => several_text(alloc, several.found.len(), several.complete),
        Err(_) => word(alloc, "halted"),
    }
}

fn ask_least<S: Grow>(alloc: Global, solver: &mut S, asked: &Asked) -> Result<String, Memory>
    requires assumed { AreLitsOf (S.state solver.old).problem.vars asked.now.assumed.items }
    requires term { length (S.state solver.old).problem.terms ≡ 1 }
    requires retired { (S.state solver.old).problem.retired ≡ [] }
{
    match least(alloc, solver, asked.assumed.as_slice(), 0, &mut unlimited()) {
        Ok(Some(minimum)) => least_text(alloc, minimum.value),
        Ok(None) => word(alloc, "inconsistent"),
        Err(_) => word(alloc, "halted"),
    }
}

fn ask_conflict<S: Solve>(alloc: Global, solver: &mut S, asked: &Asked) -> Result<String, Memory>
    requires assumed { AreLitsOf (S.state solver.old).problem.vars asked.now.assumed.items }
    requires retired { (S.state solver.old).problem.retired ≡ [] }
{
    match conflict(alloc, solver, asked.assumed.as_slice(), &mut unlimited()) {
        Ok(Some(items)) => lits_text(alloc, "conflict", items.as_slice()),
        Ok(None) => word(alloc, "consistent"),
        Err(_) => word(alloc, "halted"),
    }
}

/// Why the literal is true.
fn ask_support<S: Solve>(
    alloc: Global,
    solver: &mut S,
    vars: u64,
    assumed: &[Lit],
    target: Lit,
) -> Result<String, Memory>
    requires vars { vars ≡ (S.state solver.old).problem.vars }
    requires assumed { AreLitsOf (S.state solver.old).problem.vars assumed.now }
    requires retired { (S.state solver.old).problem.retired ≡ [] }
{
    let all = joined(alloc, assumed, &[target.negated()])?;
    if !are_over(vars, all.as_slice()) {
        return Err(Memory);
    }
    match support(alloc, solver, assumed, target, &mut unlimited()) {
        Ok(Support::By(items)) => lits_text(alloc, "support", items.as_slice()),
        Ok(Support::Free(_)) => word(alloc, "free"),
        Ok(Support::Inconsistent) => word(alloc, "inconsistent"),
        Err(_) => word(alloc, "halted"),
    }
}

/// What the solver answers. Its one term is the sum.
pub fn ask<S: Grow>(
    alloc: Global,
    solver: &mut S,
    vars: u64,
    atoms: u64,
    asked: &Asked,
) -> Result<String, Memory>
    requires vars { vars ≡ (S.state solver.old).problem.vars }
    requires atoms { atoms ≡ length (S.state solver.old).problem.atoms }
    requires term { length (S.state solver.old).problem.terms ≡ 1 }
    requires retired { (S.state solver.old).problem.retired ≡ [] }
{
    if !are_over(vars, asked.assumed.as_slice()) || !are_over(vars, asked.lits.as_slice()) {
        return word(alloc, "no variable");
    }
    match asked.task {
        Task::Solve => ask_model(alloc, solver, atoms, asked),
        Task::Forced => ask_forced(alloc, solver, atoms, asked, &[]),
        Task::Seen => ask_seen(alloc, solver, atoms, asked),
        Task::Several => ask_several(alloc, solver, asked),
        Task::Least => ask_least(alloc, solver, asked),
        Task::Conflict => ask_conflict(alloc, solver, asked),
        Task::Support => match asked.lits.first() {
            Some(target) => { ask_support(alloc, solver, vars, asked.assumed.as_slice(), *target) }
            None => word(alloc, "no literal"),
        },
    }
}
