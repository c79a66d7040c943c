//! Commands.
ghost use Rattle.std.specs.Prelude.{◌≡◌, IfOk};

use kb_logic::{Literal, Memory};
use std::alloc::Global;

/// What a command line asks.
#[derive(Drop)]
pub enum Command {
    /// Makes the literal the last choice.
    Assert(Literal),
    /// Takes the literal from the choices.
    Retract(Literal),
    /// Takes away all choices.
    Reset,
    /// Asks for the choices.
    Choices,
    /// Asks for a model that makes all choices true.
    Model,
    /// Asks for different models, at most so many.
    Models(u32),
    /// Asks for the literals that are true in all models.
    Propagate,
    /// Asks for the least value in any model of the term block with this number.
    Minimize(u32),
    /// Asks which choices make the literal true in all models.
    Explain(Literal),
    /// Asks which choices admit no model.
    Why,
    /// Says how many conflicts each further query may meet; without a limit where there is no number.
    Budget(Option<u64>),
    /// Gives up what was learnt.
    Forget,
}

impl Command {
    pub fn copy(&self, alloc: Global) -> Result<Command, Memory>
        ensures { IfOk result (λ c. c ≡ self.now) }
    {
        match self {
            Command::Assert(literal) => Ok(Command::Assert(literal.copy(alloc)?)),
            Command::Retract(literal) => Ok(Command::Retract(literal.copy(alloc)?)),
            Command::Reset => Ok(Command::Reset),
            Command::Choices => Ok(Command::Choices),
            Command::Model => Ok(Command::Model),
            Command::Models(most) => Ok(Command::Models(*most)),
            Command::Propagate => Ok(Command::Propagate),
            Command::Minimize(term) => Ok(Command::Minimize(*term)),
            Command::Explain(literal) => Ok(Command::Explain(literal.copy(alloc)?)),
            Command::Why => Ok(Command::Why),
            Command::Budget(budget) => Ok(Command::Budget(*budget)),
            Command::Forget => Ok(Command::Forget),
        }
    }
}
