//! What changes a session's state, and what that leaves of what is kept.
ghost use Rattle.std.specs.Prelude.{◌≡◌, IfOk, OnErr, OnOk};
ghost use Rattle.consult_base.specs.Opened.{base_of};
ghost use Rattle.consult_text.specs.declared.commands.Command.TheVariants as command;
ghost use Rattle.consult_text.specs.Literals.{IsLiteralOver};
ghost use Rattle.consult_text.specs.RightReplies.{RightReply};
ghost use Rattle.consult_text.specs.States.{is_chosen, state_after};
ghost use Rattle.atom_numbers.specs.Numbers.{HasNumber};
ghost use Rattle.ground_task.specs.Tasks.{atom_base};
ghost use Rattle.clause_learning.specs.SolverState.{forgotten};
ghost use Rattle.consultant_session.specs.Sessions.{SupportsAfter};

use super::Session;
use crate::chosen::{add_choice, has_lit, lose_lit};
use crate::literals::{is_known, remove};
use chooser::Choose;
use consult_text::{F, Reply};
use kb_logic::{Literal, LiteralList, Memory};
use lit_core::Lit;
use std::mem;

impl<C: Choose + Copy + Drop> Session<C> {
    /// The literal of the variable that the literal's atom has.
    fn lit_of(&self, literal: &Literal) -> Lit
        requires { IsLiteralOver (base_of self.now.kb) literal.now }
        ensures { HasNumber (atom_base (base_of self.now.kb)) literal.now result }
    {
        self.task.lit_of(literal)
    }

    /// Whether the literal, of which this is the variable's literal, is a choice.
    fn has_chosen(&self, literal: &Literal, lit: Lit) -> bool
        requires { HasNumber (atom_base (base_of self.now.kb)) literal.now lit }
        ensures { result ≡ is_chosen self.now.state literal.now }
    {
        has_lit(&self.hashed, lit)
    }

    /// Makes the literal the last choice.
    pub(super) fn assert(&mut self, literal: &Literal) -> Result<Reply, Memory>
        requires { IsLiteralOver (base_of self.old.kb) literal.now }
        ensures right { IfOk result (λ reply. RightReply (base_of self.old.kb) self.old.state
            (command.Assert literal.now) reply) }
        ensures after { OnOk result (self.new.state ≡ state_after (base_of self.old.kb) self.old.state
            (command.Assert literal.now)) }
        ensures kept { OnErr result (self.new.state ≡ self.old.state) }
        ensures kb { self.new.kb ≡ self.old.kb }
        ensures solver { self.new.solver ≡ self.old.solver }
        ensures supports { self.new.supports ≡ self.old.supports }
    {
        if is_known(&self.kb, literal) {
            return Ok(Reply::Refused(F::GivenByData));
        }
        let lit = self.lit_of(literal);
        if self.has_chosen(literal, lit) {
            return Ok(Reply::Refused(F::AlreadyChosen));
        }
        let choice = literal.copy(self.alloc)?;
        add_choice(&mut self.choices, &mut self.hashed, choice, lit)?;
        self.answered.clear();
        Ok(Reply::Fine)
    }

    /// Takes the literal from the choices.
    pub(super) fn retract(&mut self, literal: &Literal) -> Reply
        requires { IsLiteralOver (base_of self.old.kb) literal.now }
        ensures right { RightReply (base_of self.old.kb) self.old.state (command.Retract literal.now) result }
        ensures after { self.new.state ≡ state_after (base_of self.old.kb) self.old.state
            (command.Retract literal.now) }
        ensures kb { self.new.kb ≡ self.old.kb }
        ensures solver { self.new.solver ≡ self.old.solver }
        ensures supports { SupportsAfter (base_of self.old.kb) self.old.state (command.Retract literal.now)
            self.old.supports self.new.supports }
    {
        let lit = self.lit_of(literal);
        if !self.has_chosen(literal, lit) {
            return Reply::Refused(F::NotChosen);
        }
        let mut choices = mem::replace(&mut self.choices, LiteralList::new(self.alloc)).into_vec();
        remove(&mut choices, literal);
        self.choices = LiteralList::from_vec(choices);
        lose_lit(&mut self.hashed, lit);
        self.supports.lose(lit);
        self.answered.clear();
        Reply::Fine
    }

    /// Takes away all choices.
    pub(super) fn reset(&mut self) -> Reply
        ensures right { RightReply (base_of self.old.kb) self.old.state command.Reset result }
        ensures after { self.new.state ≡ state_after (base_of self.old.kb) self.old.state command.Reset }
        ensures kb { self.new.kb ≡ self.old.kb }
        ensures solver { self.new.solver ≡ self.old.solver }
        ensures supports { SupportsAfter (base_of self.old.kb) self.old.state command.Reset self.old.supports
            self.new.supports }
    {
        self.choices = LiteralList::new(self.alloc);
        self.hashed.clear();
        self.supports.lose_supported();
        self.answered.clear();
        Reply::Fine
    }

    /// A copy of the choices.
    pub(super) fn list_choices(&self) -> Result<Reply, Memory>
        ensures { IfOk result (λ reply. RightReply (base_of self.now.kb) self.now.state command.Choices reply) }
    {
        Ok(Reply::Choices(self.choices.copy(self.alloc)?))
    }

    /// Sets the budget.
    pub(super) fn limit(&mut self, budget: Option<u64>) -> Reply
        ensures right { RightReply (base_of self.old.kb) self.old.state (command.Budget budget) result }
        ensures after { self.new.state ≡ state_after (base_of self.old.kb) self.old.state (command.Budget budget) }
        ensures kb { self.new.kb ≡ self.old.kb }
        ensures solver { self.new.solver ≡ self.old.solver }
        ensures supports { self.new.supports ≡ self.old.supports }
    {
        self.budget = budget;
        self.answered.clear();
        Reply::Fine
    }

    /// Gives up what was learnt, and what is kept.
    pub(super) fn forget(&mut self) -> Reply
        ensures right { RightReply (base_of self.old.kb) self.old.state command.Forget result }
        ensures after { self.new.state ≡ state_after (base_of self.old.kb) self.old.state command.Forget }
        ensures kb { self.new.kb ≡ self.old.kb }
        ensures solver { self.new.solver ≡ forgotten self.old.solver }
        ensures supports { SupportsAfter (base_of self.old.kb) self.old.state command.Forget self.old.supports
            self.new.supports }
    {
        self.task.forget();
        self.found.clear();
        self.supports.clear();
        self.answered.clear();
        Reply::Fine
    }
}
