//! The answer to a line.
ghost use Rattle.std.specs.Prelude.{◌≡◌, [], length};

use crate::asking::ask;
use crate::reading::{Asked, Input, read};
use brute_force::BruteForce;
use ground_core::{Memory, Problem, has_small_terms};
use solving_fixtures::{Kept, name_term, problem_of, solver_of};
use std::alloc::Global;
use std::mem;

/// The most variables with which brute force is asked too.
const FEW: u64 = 12;

/// Prepares the solver for many searches, where that is asked.
fn prepare_for(asked: &Asked, solver: &mut Kept) -> Result<(), Memory>
    ensures { solver.new ≡ solver.old }
{
    if asked.prepare {
        solver.prepare()?;
    }
    Ok(())
}

/// What the kept solver answers.
fn kept_answer(alloc: Global, problem: &Problem, asked: &Asked) -> Result<String, Memory>
    requires bounds { problem.now.bounds ≡ [] }
    requires term { length problem.now.terms ≡ 1 }
{
    let mut solver = solver_of(alloc, problem)?;
    prepare_for(asked, &mut solver)?;
    let atoms = problem.atoms().len() as u64;
    ask(alloc, &mut solver, problem.vars(), atoms, asked)
}

/// What brute force answers.
fn brute_answer(alloc: Global, problem: Problem, asked: &Asked) -> Result<String, Memory>
    requires bounds { problem.bounds ≡ [] }
    requires term { (length problem.terms ≡ 1) × (problem.retired ≡ []) }
{
    if !has_small_terms(&problem) {
        return Err(Memory);
    }
    let vars = problem.vars();
    let atoms = problem.atoms().len() as u64;
    let mut solver = BruteForce::new(alloc, problem)?;
    ask(alloc, &mut solver, vars, atoms, asked)
}

/// Both answers, where they differ.
fn judged(alloc: Global, kept: String, brute: &str) -> Result<String, Memory> {
    if kept.as_str() == brute {
        return Ok(kept);
    }
    format!(in alloc; "{kept} (brute force: {brute})")
}

/// What is answered, the term being named.
fn answered(alloc: Global, input: &mut Input) -> Result<String, Memory>
    requires bounds { input.old.problem.bounds ≡ [] }
    requires unnamed { (input.old.problem.terms ≡ []) × (input.old.problem.retired ≡ []) }
{
    let parts = mem::replace(&mut input.parts, Vec::new(alloc));
    name_term(alloc, &mut input.problem, input.kind, parts)?;
    let kept = kept_answer(alloc, &input.problem, &input.asked)?;
    if FEW < input.problem.vars() {
        return Ok(kept);
    }
    let problem = mem::replace(&mut input.problem, problem_of(alloc, 0)?);
    let brute = brute_answer(alloc, problem, &input.asked)?;
    judged(alloc, kept, brute.as_str())
}

/// What the kept solver answers to the line, and brute force beside it where it answers otherwise.
pub fn answer(alloc: Global, line: &str) -> Result<String, Memory> {
    let mut input = read(alloc, line)?;
    answered(alloc, &mut input)
}
