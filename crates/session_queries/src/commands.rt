//! Which commands are queries, and which replies leave one undecided.
ghost use Rattle.std.specs.Prelude.{MatchBool};
ghost use Rattle.consult_text.specs.Replies.{IsQuery, NeedsModel};
ghost use Rattle.session_queries.specs.Queries.{IsUndecided};

use consult_text::{Command, Reply};

/// Whether it asks about the models under what is in force.
pub fn is_query(command: &Command) -> bool
    ensures { MatchBool result (IsQuery command.now) (IsQuery command.now → ⊥) }
{
    match command {
        Command::Model => true,
        Command::Models(_) => true,
        Command::Propagate => true,
        Command::Minimize(_) => true,
        Command::Explain(_) => true,
        Command::Why => true,
        _ => false,
    }
}

/// Whether it is one that has an answer of its own only where there is a model.
pub fn needs_model(command: &Command) -> bool
    ensures { MatchBool result (NeedsModel command.now) (NeedsModel command.now → ⊥) }
{
    match command {
        Command::Model => true,
        Command::Models(_) => true,
        Command::Propagate => true,
        Command::Minimize(_) => true,
        Command::Explain(_) => true,
        _ => false,
    }
}

/// Whether the reply leaves its query undecided.
pub fn is_undecided(reply: &Reply) -> bool
    ensures { MatchBool result (IsUndecided reply.now) (IsUndecided reply.now → ⊥) }
{
    match reply {
        Reply::Undecided(_) => true,
        _ => false,
    }
}
