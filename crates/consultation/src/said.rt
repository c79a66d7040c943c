//! What is said to a line of the commands.
ghost use Rattle.std.specs.Prelude.{◌≡◌, ◌≤◌, length, IfOk};
ghost use Rattle.kb_io.specs.Lines.{longest_line};
ghost use Rattle.consult_base.specs.Opened.{base_of};
ghost use Rattle.consultation.specs.Consultation.{IsRightAnswer, state_left};
ghost use Rattle.consultation.specs.Turns.{RepliesTo};

use chooser::FirstGreatest;
use consult_text::{Command, CommandError, F, Reply, commands_are_over_the_base, read_command};
use consultant_session::Session;
use kb_logic::Memory;
use std::alloc::Global;

/// What is said in answer to a line.
#[derive(Drop)]
pub enum Said {
    /// The line is blank.
    Nothing,
    /// It has more bytes than a line may have.
    TooLong,
    /// Its text is refused.
    Refused(F),
    /// It is this command, which has this reply.
    Replied(Command, Reply),
}

/// What is said to a line that is not too long.
pub(crate) fn said_to(
    alloc: Global,
    session: &mut Session<FirstGreatest>,
    line: &[u8],
) -> Result<Said, Memory>
    requires { length line.now ≤ longest_line }
    ensures right { IfOk result (λ said. IsRightAnswer (base_of session.old.kb) session.old.state line.now said) }
    ensures leaves { IfOk result
        (λ said. session.new.state ≡ state_left (base_of session.old.kb) session.old.state said) }
    ensures kb { session.new.kb ≡ session.old.kb }
{
    commands_are_over_the_base();
    match read_command(alloc, line, session.kb()) {
        Ok(None) => Ok(Said::Nothing),
        Ok(Some(command)) => {
            let reply = session.step(&command)?;
            Ok(Said::Replied(command, reply))
        }
        Err(CommandError::Refused(f)) => Ok(Said::Refused(f)),
        Err(CommandError::Memory) => Err(Memory),
    }
}

/// The reply to a line; none to a blank one.
pub fn reply_to(
    alloc: Global,
    session: &mut Session<FirstGreatest>,
    line: &[u8],
) -> Result<Option<Reply>, Memory>
    requires { length line.now ≤ longest_line }
    ensures right { IfOk result
        (λ reply. RepliesTo (base_of session.old.kb) session.old.state line.now reply session.new.state) }
    ensures kb { session.new.kb ≡ session.old.kb }
{
    match said_to(alloc, session, line) {
        Ok(Said::Nothing) => Ok(None),
        Ok(Said::TooLong) => Ok(Some(Reply::Refused(F::LineTooLong))),
        Ok(Said::Refused(f)) => Ok(Some(Reply::Refused(f))),
        Ok(Said::Replied(_, reply)) => Ok(Some(reply)),
        Err(Memory) => Err(Memory),
    }
}
