//! Kept solvers.
ghost use Rattle.std.specs.Prelude.{◌≡◌, [], length, IfOk};

use chooser::FirstGreatest;
use clause_learning::Solver;
use ground_core::{Memory, Problem, has_small_terms};
use std::alloc::Global;

/// The kept solver, with the rule that the session has.
pub type Kept = Solver<FirstGreatest>;

/// A solver of the problem. A term that may leave the range counts as out of memory.
pub fn solver_of(alloc: Global, problem: &Problem) -> Result<Kept, Memory>
    requires bounds { problem.now.bounds ≡ [] }
    ensures vars { IfOk result (λ solver. solver.kept.problem.vars ≡ problem.now.vars) }
    ensures atoms { IfOk result (λ solver. solver.kept.problem.atoms ≡ problem.now.atoms) }
    ensures terms { IfOk result (λ solver. solver.kept.problem.terms ≡ problem.now.terms) }
    ensures retired { IfOk result (λ solver. solver.kept.problem.retired ≡ []) }
{
    let _vars = problem.vars();
    let mut solver = Solver::new(alloc, FirstGreatest)?;
    if !has_small_terms(problem) {
        return Err(Memory);
    }
    solver.add_problem(problem)?;
    Ok(solver)
}
