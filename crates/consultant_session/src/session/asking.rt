//! What a session answers to queries.
ghost use Rattle.std.specs.Prelude.{◌≡◌, ◌≤◌, ◌<◌, false, length, IfOk, OnErr};
ghost use Rattle.consult_base.specs.Opened.{base_of};
ghost use Rattle.consult_text.specs.declared.commands.Command.TheVariants as command;
ghost use Rattle.consult_text.specs.Literals.{IsLiteralOver};
ghost use Rattle.consult_text.specs.RightReplies.{RightReply};
ghost use Rattle.ground_core.specs.Solving.{IsPrefix};
ghost use Rattle.ground_task.specs.Tasks.{AreRefuted, atom_base};
ghost use Rattle.session_queries.specs.Queries.{CoversReply, Refutes};
ghost use Rattle.consultant_session.specs.Commands.{IsKeptOrNew, Searches};
ghost use Rattle.consultant_session.specs.Commands.{most_additions};
ghost use Rattle.consultant_session.specs.Sessions.{PropagatesUpTo};
ghost use Rattle.session_queries.specs.Solvers.{IsSolverOf};

use super::Session;
use chooser::Choose;
use consult_text::Reply;
use forced_literals::Unknown;
use found_models::models_under;
use kb_logic::{Literal, Memory};
use session_queries::{explain, minimize, model, models, open_anew, propagate, why};

/// So many bounds and exclusions stay in the solver's problem.
const MOST_ADDITIONS: usize = 1_000;

/// Whether the task stays though so much was added to its problem: always where a log is kept, since the log's numbers
/// are those of the task's clauses and variables.
fn keeps_task(logs: bool, added: usize) -> bool
    ensures { result ≡ false → most_additions < added }
{
    logs || added <= MOST_ADDITIONS
}

impl<C: Choose + Copy + Drop> Session<C> {
    /// A model, if there is one.
    pub(super) fn model(&mut self) -> Result<Reply, Memory>
        ensures right { IfOk result (λ reply. RightReply (base_of self.old.kb) self.old.state command.Model reply) }
        ensures state { self.new.state ≡ self.old.state }
        ensures kb { self.new.kb ≡ self.old.kb }
        ensures searches { Searches (base_of self.old.kb) command.Model self.old.state.budget result self.old.solver
            self.new.solver }
        ensures refuted { IfOk result (Refutes (atom_base (base_of self.old.kb)) self.old.state.choices
            self.new.solver.cores) }
        ensures supports { self.new.supports ≡ self.old.supports }
    {
        model(
            self.alloc,
            &mut self.task,
            &mut self.found,
            self.choices.as_slice(),
            self.budget,
        )
    }

    /// At most so many models.
    pub(super) fn models(&mut self, most: u32) -> Result<Reply, Memory>
        requires most { 1 ≤ most }
        requires open { AreRefuted (atom_base (base_of self.old.kb)) self.old.state.choices self.old.solver.cores → ⊥ }
        ensures right { IfOk result (λ reply. RightReply (base_of self.old.kb) self.old.state (command.Models most)
            reply) }
        ensures state { self.new.state ≡ self.old.state }
        ensures kb { self.new.kb ≡ self.old.kb }
        ensures searches { Searches (base_of self.old.kb) (command.Models most) self.old.state.budget result
            self.old.solver self.new.solver }
        ensures refuted { IfOk result (Refutes (atom_base (base_of self.old.kb)) self.old.state.choices
            self.new.solver.cores) }
        ensures supports { self.new.supports ≡ self.old.supports }
    {
        self.renew()?;
        models(
            self.alloc,
            &mut self.task,
            self.choices.as_slice(),
            self.budget,
            most,
        )
    }

    /// Opens the task anew where much was added to its problem, before more is.
    fn renew(&mut self) -> Result<(), Memory>
        requires { AreRefuted (atom_base (base_of self.old.kb)) self.old.state.choices self.old.solver.cores → ⊥ }
        ensures state { self.new.state ≡ self.old.state }
        ensures kb { self.new.kb ≡ self.old.kb }
        ensures supports { self.new.supports ≡ self.old.supports }
        ensures left { IsKeptOrNew self.old.solver self.new.solver }
        ensures same { OnErr result (self.new.solver ≡ self.old.solver) }
        ensures solver { IsSolverOf (base_of self.old.kb) self.new.solver }
    {
        if keeps_task(self.logs, self.task.addition_count()) {
            return Ok(());
        }
        open_anew(self.alloc, &self.kb, self.rule, &mut self.task)?;
        self.is_ready = false;
        Ok(())
    }

    /// What all models have in common.
    pub(super) fn propagate(&mut self) -> Result<Reply, Memory>
        ensures right { IfOk result
            (λ reply. RightReply (base_of self.old.kb) self.old.state command.Propagate reply) }
        ensures state { self.new.state ≡ self.old.state }
        ensures kb { self.new.kb ≡ self.old.kb }
        ensures searches { Searches (base_of self.old.kb) command.Propagate self.old.state.budget result self.old.solver
            self.new.solver }
        ensures refuted { IfOk result (Refutes (atom_base (base_of self.old.kb)) self.old.state.choices
            self.new.solver.cores) }
        ensures supports { IsPrefix self.old.supports self.new.supports }
        ensures covers { IfOk result (CoversReply (base_of self.old.kb) self.old.state.choices self.new.supports) }
        ensures propagates { PropagatesUpTo (base_of self.old.kb) command.Propagate self.old.supports self.old.solver
            self.new.solver }
    {
        let choices = self.choices.as_slice();
        let seen = models_under(self.alloc, &self.task, &self.found, choices)?;
        let unknown = Unknown {
            lits: self.unknown.as_slice(),
            seen: seen.as_slice(),
        };
        propagate(
            self.alloc,
            &mut self.task,
            choices,
            self.budget,
            &unknown,
            &mut self.supports,
        )
    }

    /// The least value of the term block with this number.
    pub(super) fn minimize(&mut self, term: u32) -> Result<Reply, Memory>
        requires term { term < length (base_of self.old.kb).terms }
        requires open { AreRefuted (atom_base (base_of self.old.kb)) self.old.state.choices self.old.solver.cores → ⊥ }
        ensures right { IfOk result
            (λ reply. RightReply (base_of self.old.kb) self.old.state (command.Minimize term) reply) }
        ensures state { self.new.state ≡ self.old.state }
        ensures kb { self.new.kb ≡ self.old.kb }
        ensures searches { Searches (base_of self.old.kb) (command.Minimize term) self.old.state.budget result
            self.old.solver self.new.solver }
        ensures refuted { IfOk result (Refutes (atom_base (base_of self.old.kb)) self.old.state.choices
            self.new.solver.cores) }
        ensures supports { self.new.supports ≡ self.old.supports }
    {
        self.renew()?;
        minimize(
            self.alloc,
            &mut self.task,
            self.choices.as_slice(),
            self.budget,
            term,
        )
    }

    /// Why the literal is true in all models, if it is.
    pub(super) fn explain(&mut self, literal: &Literal) -> Result<Reply, Memory>
        requires { IsLiteralOver (base_of self.old.kb) literal.now }
        ensures right { IfOk result (λ reply. RightReply (base_of self.old.kb) self.old.state
            (command.Explain literal.now) reply) }
        ensures state { self.new.state ≡ self.old.state }
        ensures kb { self.new.kb ≡ self.old.kb }
        ensures searches { Searches (base_of self.old.kb) (command.Explain literal.now) self.old.state.budget result
            self.old.solver self.new.solver }
        ensures refuted { IfOk result (Refutes (atom_base (base_of self.old.kb)) self.old.state.choices
            self.new.solver.cores) }
        ensures supports { self.new.supports ≡ self.old.supports }
    {
        explain(
            self.alloc,
            &mut self.task,
            self.choices.as_slice(),
            self.budget,
            literal,
        )
    }

    /// Why there is no model, if there is none.
    pub(super) fn why(&mut self) -> Result<Reply, Memory>
        ensures right { IfOk result (λ reply. RightReply (base_of self.old.kb) self.old.state command.Why reply) }
        ensures state { self.new.state ≡ self.old.state }
        ensures kb { self.new.kb ≡ self.old.kb }
        ensures searches { Searches (base_of self.old.kb) command.Why self.old.state.budget result self.old.solver
            self.new.solver }
        ensures refuted { IfOk result (Refutes (atom_base (base_of self.old.kb)) self.old.state.choices
            self.new.solver.cores) }
        ensures supports { self.new.supports ≡ self.old.supports }
    {
        why(
            self.alloc,
            &mut self.task,
            self.choices.as_slice(),
            self.budget,
        )
    }
}
