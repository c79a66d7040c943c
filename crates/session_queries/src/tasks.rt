//! The task of a session.
ghost use Rattle.std.specs.Prelude.{◌≡◌, [], IfOk, OnErr, OnOk};
ghost use Rattle.clause_learning.specs.SolverState.{AddsProblem, IsSolver, empty_solver};
ghost use Rattle.consult_base.specs.Opened.{base_of};
ghost use Rattle.def_ground.specs.Groundings.{HasNoBounds};
ghost use Rattle.ground_core.specs.Meaning.{HasTermsInRange};
ghost use Rattle.session_queries.specs.Solvers.{AreUnknownOf, IsNewSolverOf, IsTaskOver};

use atom_numbers::open_literals;
use chooser::Choose;
use clause_learning::Solver;
use consult_base::KnowledgeBase;
use ground_core::Problem;
use ground_task::Task;
use grounder::ground;
use kb_logic::Memory;
use lit_core::Lit;
use std::alloc::Global;

// A problem and a solver are large, and each way out that gives one up is dear to prove: so each has one such way out.
/// A solver to which this problem was said, and nothing else.
fn solver_with<C: Choose + Drop>(
    alloc: Global,
    rule: C,
    problem: &Problem,
) -> Result<Solver<C>, Memory>
    requires bounds { HasNoBounds problem.now }
    requires range { HasTermsInRange problem.now }
    ensures value { IfOk result (AddsProblem empty_solver problem.now) }
    ensures laws { IfOk result IsSolver }
{
    let Ok(mut solver) = Solver::new(alloc, rule) else {
        return Err(Memory);
    };
    match solver.add_problem(problem) {
        Ok(()) => Ok(solver),
        Err(_) => Err(Memory),
    }
}

/// A solver of the knowledge base's ground problem. That is not too large, since the knowledge base's weight is within
/// its limit: only memory may be wanting.
fn solver_of<C: Choose + Drop>(
    alloc: Global,
    kb: &KnowledgeBase,
    rule: C,
) -> Result<Solver<C>, Memory>
    ensures { IfOk result (λ solver. IsNewSolverOf (base_of kb.now) solver.kept) }
{
    match ground(alloc, kb.typed(), kb.theory(), kb.data(), kb.narrowing()) {
        Ok(problem) => solver_with(alloc, rule, &problem),
        Err(_) => Err(Memory),
    }
}

/// A task of the knowledge base to which nothing was said yet.
fn task_of<C: Choose + Drop>(
    alloc: Global,
    kb: &KnowledgeBase,
    rule: C,
) -> Result<Task<Solver<C>>, Memory>
    ensures over { IfOk result (λ task. IsTaskOver (base_of kb.now) task.numbers task.solver.kept) }
    ensures learnt { IfOk result (λ task. task.solver.kept.learnt ≡ []) }
    ensures cores { IfOk result (λ task. task.solver.kept.cores ≡ []) }
{
    let solver = solver_of(alloc, kb, rule)?;
    Task::open(alloc, kb.vocabulary(), kb.data(), solver)
}

/// Opens the task anew, so that what was added to its problem is gone. Where memory runs out it stays as it is.
pub fn open_anew<C: Choose + Drop>(
    alloc: Global,
    kb: &KnowledgeBase,
    rule: C,
    task: &mut Task<Solver<C>>,
) -> Result<(), Memory>
    ensures over { OnOk result (IsTaskOver (base_of kb.now) task.new.numbers task.new.solver.kept) }
    ensures learnt { OnOk result (task.new.solver.kept.learnt ≡ []) }
    ensures cores { OnOk result (task.new.solver.kept.cores ≡ []) }
    ensures same { OnErr result (task.new ≡ task.old) }
{
    *task = task_of(alloc, kb, rule)?;
    Ok(())
}

/// The literals of the variables of the atoms that the data leave unknown.
fn unknown_of(alloc: Global, kb: &KnowledgeBase) -> Result<Vec<Lit>, Memory>
    ensures { IfOk result (λ lits. AreUnknownOf (base_of kb.now) lits.items) }
{
    kb.data().consistency();
    open_literals(alloc, kb.data())
}

/// The task of a session that is opened, and the literals of the atoms that its data leave unknown. These come first:
/// to give up a task wherever memory may run out would be dear to prove.
pub fn opened<C: Choose + Drop>(
    alloc: Global,
    kb: &KnowledgeBase,
    rule: C,
) -> Result<(Task<Solver<C>>, Vec<Lit>), Memory>
    ensures over { IfOk result (λ both. IsTaskOver (base_of kb.now) both.0.numbers both.0.solver.kept) }
    ensures learnt { IfOk result (λ both. both.0.solver.kept.learnt ≡ []) }
    ensures unknown { IfOk result (λ both. AreUnknownOf (base_of kb.now) both.1.items) }
{
    let unknown = unknown_of(alloc, kb)?;
    let task = task_of(alloc, kb, rule)?;
    Ok((task, unknown))
}
