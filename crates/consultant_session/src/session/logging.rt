//! What a session leaves for a log.
ghost use Rattle.std.specs.Prelude.{◌≡◌, IfOk};
ghost use Rattle.std.specs.Option.{IfSome};
ghost use Rattle.consult_base.specs.Opened.{base_of};
ghost use Rattle.consult_text.specs.RightReplies.{RightReply};
ghost use Rattle.consult_text.specs.States.{State};
ghost use Rattle.claimed_replies.specs.Claims.{AreClaims};
ghost use Rattle.ground_task.specs.Tasks.{atom_base};
ghost use Rattle.search_log.specs.Entries.{AreEntries};

use super::Session;
use chooser::Choose;
use claimed_replies::claims_of;
use consult_text::{Command, Reply};
use kb_logic::Memory;

impl<C: Choose + Copy + Drop> Session<C> {
    /// From now on what the solver derives is told, as entries of a log. To be called before the first command.
    pub fn keep_log(&mut self) -> Result<(), Memory>
        ensures { self.new ≡ self.old }
    {
        self.task.keep_log()?;
        self.logs = true;
        Ok(())
    }

    /// The texts of the entries that the solver left since they were given up: those of its search, no marks and no
    /// claims.
    pub fn entries(&self) -> &[u8]
        ensures { AreEntries result.now }
    {
        self.task.entries()
    }

    /// Gives these up.
    pub fn clear_entries(&mut self)
        ensures { self.new ≡ self.old }
    {
        self.task.clear_entries();
    }

    /// The claims that belong to a right reply to a command, under the choices in force, as texts of entries; None
    /// where the solver knows no clause of one of them.
    pub fn claims(&self, command: &Command, reply: &Reply) -> Result<Option<Vec<u8>>, Memory>
        requires { (s : State) × RightReply (base_of self.now.kb) s command.now reply.now }
        ensures { IfOk result (λ found. IfSome found (λ bytes. AreClaims (atom_base (base_of self.now.kb))
            self.now.state.choices command.now reply.now bytes.items)) }
    {
        claims_of(
            self.alloc,
            &self.task,
            self.choices.as_slice(),
            command,
            reply,
        )
    }
}
