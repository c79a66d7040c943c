//! What a command line means.
ghost use Rattle.std.specs.Prelude.{◌≡◌, ⊤};
ghost use Rattle.consult_base.specs.Opened.{base_of};
ghost use Rattle.consult_text.specs.Parse.{command_view};
ghost use Rattle.consult_text.specs.Lines.{Reads};
ghost use Rattle.consult_text.specs.Ranges.{HasRanges, ParsesAs, Answers};
ghost use Rattle.consult_text.specs.declared.lines.CommandError.TheVariants as errors;

use crate::commands::Command;
use crate::digits::digits_value;
use crate::lookup::look_up;
use crate::parse::parse_command;
use crate::refusals::F;
use crate::terms::find_term;
use crate::written::CommandText;
use consult_base::KnowledgeBase;
use kb_logic::Memory;
use kb_text::{LexError, one_answer, tokens};
use std::alloc::Global;

/// Why a line has no command.
#[derive(Clone, Copy)]
pub enum CommandError {
    Refused(F),
    Memory,
}

impl From<Memory> for CommandError {
    ghost from_gives = { λ _ e. e ≡ errors.Memory };

    fn from(_e: Memory) -> CommandError {
        CommandError::Memory
    }
}

/// The command of a line without its newline; none where the line has only spaces and comments.
pub fn read_command(
    alloc: Global,
    line: &[u8],
    kb: &KnowledgeBase,
) -> Result<Option<Command>, CommandError>
    ensures read { Reads (base_of kb.now) line.now result }
{
    match parse(alloc, line)? {
        Some(text) => Ok(Some(meaning(alloc, kb, &text)?)),
        None => Ok(None),
    }
}

/// The command that is written, where its literal's names are those of the knowledge base.
fn meaning(
    alloc: Global,
    kb: &KnowledgeBase,
    text: &CommandText<'_>,
) -> Result<Command, CommandError>
    requires ranges { HasRanges (command_view text.now) }
    ensures { Answers (base_of kb.now) (command_view text.now) result }
{
    match text {
        CommandText::Assert(literal) => Ok(Command::Assert(look_up(alloc, kb, literal)?)),
        CommandText::Retract(literal) => Ok(Command::Retract(look_up(alloc, kb, literal)?)),
        CommandText::Reset => Ok(Command::Reset),
        CommandText::Choices => Ok(Command::Choices),
        CommandText::Model => Ok(Command::Model),
        CommandText::Models(digits) => Ok(Command::Models(digits_value(digits) as u32)),
        CommandText::Propagate => Ok(Command::Propagate),
        CommandText::Minimize(name) => Ok(Command::Minimize(find_term(kb, name)?)),
        CommandText::Explain(literal) => Ok(Command::Explain(look_up(alloc, kb, literal)?)),
        CommandText::Why => Ok(Command::Why),
        CommandText::Budget(digits) => Ok(Command::Budget(Some(digits_value(digits)))),
        CommandText::Unlimited => Ok(Command::Budget(None)),
        CommandText::Forget => Ok(Command::Forget),
    }
}

/// The command as it is written.
fn parse<'a>(alloc: Global, line: &'a [u8]) -> Result<Option<CommandText<'a>>, CommandError>
    ensures { ParsesAs line.now result }
{
    one_answer();
    let tokens = match tokens(alloc, line) {
        Ok(tokens) => tokens,
        Err(LexError::Memory) => return Err(CommandError::Memory),
        Err(LexError::Refused(_)) => return Err(CommandError::Refused(F::Syntax)),
    };
    let tokens = tokens.as_slice();
    if tokens.is_empty() {
        return Ok(None);
    }
    match parse_command(alloc, tokens)? {
        Some(command) => Ok(Some(command)),
        None => Err(CommandError::Refused(F::Syntax)),
    }
}
