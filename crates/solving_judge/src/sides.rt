//! The solver that callers keep, and brute force, each beside what is known of its problem.
ghost use Rattle.std.specs.Prelude.{◌≡◌, [], IfOk};
ghost use Rattle.solving_judge.specs.Answering.{IsFound};
ghost use Rattle.solving_judge.specs.Marking.{AreMarks};

use crate::additions::{Answer, Event, Marks, apply, ask};
use crate::faults::Fault;
use crate::rules::Rule;
use brute_force::BruteForce;
use clause_learning::Solver;
use ground_core::{Problem, has_small_terms};
use lit_core::Lit;
use std::alloc::Global;
use std::marker::Model;

/// The solver that callers keep.
#[derive(Drop)]
pub struct Kept {
    solver: Solver<Rule>,
    marks: Marks,
}

impl Model for Kept {
    ghost use Rattle.ground_core.specs.Problems.{ProblemState};
    ghost use Rattle.solving_judge.specs.Marking.{AreMarks};

    ghost Value = { ProblemState };

    ghost view = { λ s. s.solver.kept.problem };

    ghost invariant = { λ s. AreMarks s.solver.kept.problem s.marks };
}

/// Brute force.
#[derive(Drop)]
pub struct Force {
    solver: BruteForce,
    marks: Marks,
}

impl Model for Force {
    ghost use Rattle.ground_core.specs.Problems.{ProblemState};
    ghost use Rattle.solving_judge.specs.Marking.{AreMarks};

    ghost Value = { ProblemState };

    ghost view = { λ s. s.solver.problem };

    ghost invariant = { λ s. AreMarks s.solver.problem s.marks };
}

/// What is known of a problem at first.
fn marks_of(alloc: Global, problem: &Problem) -> Marks
    ensures marks { AreMarks problem.now result }
    ensures none { result.selectors.items ≡ [] }
{
    Marks {
        atoms: problem.atoms().len(),
        vars: problem.vars(),
        terms: problem.terms().len(),
        selectors: Vec::new(alloc),
        retired: Vec::new(alloc),
    }
}

/// A solver of the problem.
fn solver_of(alloc: Global, rule: Rule, problem: &Problem) -> Result<Solver<Rule>, Fault>
    requires bounds { problem.now.bounds ≡ [] }
    ensures vars { IfOk result (λ solver. solver.kept.problem.vars ≡ problem.now.vars) }
    ensures atoms { IfOk result (λ solver. solver.kept.problem.atoms ≡ problem.now.atoms) }
    ensures terms { IfOk result (λ solver. solver.kept.problem.terms ≡ problem.now.terms) }
    ensures retired { IfOk result (λ solver. solver.kept.problem.retired ≡ []) }
{
    let _vars = problem.vars();
    let mut solver = Solver::new(alloc, rule)?;
    if !has_small_terms(problem) {
        return Err(Fault::Size);
    }
    solver.add_problem(problem)?;
    Ok(solver)
}

impl Kept {
    /// The solver of a problem, which decides by the rule.
    pub fn new(alloc: Global, rule: Rule, problem: &Problem) -> Result<Kept, Fault>
        requires bounds { problem.now.bounds ≡ [] }
        requires retired { problem.now.retired ≡ [] }
    {
        let solver = solver_of(alloc, rule, problem)?;
        Ok(Kept {
            solver,
            marks: marks_of(alloc, problem),
        })
    }

    /// How many variables the problem has.
    pub fn vars(&self) -> u64 {
        self.marks.vars
    }

    /// Asks a question.
    pub fn ask(&mut self, assume: &[Lit], limit: Option<u64>) -> Result<Answer, Fault>
        ensures found { IfOk result (λ a. IsFound self.old assume.now a.found) }
        ensures problem { self.new ≡ self.old }
    {
        ask(&mut self.solver, &self.marks, assume, limit)
    }

    /// Adds something, or gives it up.
    pub fn apply(&mut self, event: &Event) -> Result<(), Fault> {
        apply(&mut self.solver, &mut self.marks, event)
    }

    /// Prepares the solver for many questions.
    pub fn prepare(&mut self) -> Result<(), Fault>
        ensures { self.new ≡ self.old }
    {
        self.solver.prepare()?;
        Ok(())
    }

    /// Gives up what was learnt.
    pub fn forget(&mut self) {
        self.solver.forget();
    }
}

impl Force {
    /// Brute force of a problem.
    pub fn new(alloc: Global, problem: Problem) -> Result<Force, Fault>
        requires bounds { problem.bounds ≡ [] }
        requires retired { problem.retired ≡ [] }
    {
        if !has_small_terms(&problem) {
            return Err(Fault::Size);
        }
        let marks = marks_of(alloc, &problem);
        let solver = BruteForce::new(alloc, problem)?;
        Ok(Force { solver, marks })
    }

    /// How many variables the problem has.
    pub fn vars(&self) -> u64 {
        self.marks.vars
    }

    /// Asks a question.
    pub fn ask(&mut self, assume: &[Lit]) -> Result<Answer, Fault>
        ensures found { IfOk result (λ a. IsFound self.old assume.now a.found) }
        ensures problem { self.new ≡ self.old }
    {
        ask(&mut self.solver, &self.marks, assume, None)
    }

    /// Adds something, or gives it up.
    pub fn apply(&mut self, event: &Event) -> Result<(), Fault> {
        apply(&mut self.solver, &mut self.marks, event)
    }
}
