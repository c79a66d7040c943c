//! Which queries are of one kind, and which are the same.
ghost use Rattle.std.specs.Prelude.{◌≡◌};
ghost use Rattle.consult_text.specs.declared.commands.Command.TheVariants as command;
ghost use Rattle.kept_answers.specs.Answers.{same_kind, same_query};

use crate::literals::are_same_literals;
use consult_text::Command;
use kb_logic::Literal;

/// Whether both are queries of one kind.
pub(crate) fn are_of_one_kind(a: &Command, b: &Command) -> bool
    ensures { result ≡ same_kind a.now b.now }
{
    match a {
        Command::Model => matches!(b, Command::Model),
        Command::Models(_) => matches!(b, Command::Models(_)),
        Command::Propagate => matches!(b, Command::Propagate),
        Command::Minimize(_) => matches!(b, Command::Minimize(_)),
        Command::Explain(_) => matches!(b, Command::Explain(_)),
        Command::Why => matches!(b, Command::Why),
        _ => false,
    }
}

fn is_models_of(query: &Command, most: u32) -> bool
    ensures { result ≡ same_query (command.Models most) query.now }
{
    match query {
        Command::Models(other) => most == *other,
        _ => false,
    }
}

fn is_minimize_of(query: &Command, term: u32) -> bool
    ensures { result ≡ same_query (command.Minimize term) query.now }
{
    match query {
        Command::Minimize(other) => term == *other,
        _ => false,
    }
}

fn is_explain_of(query: &Command, literal: &Literal) -> bool
    ensures { result ≡ same_query (command.Explain literal.now) query.now }
{
    match query {
        Command::Explain(other) => are_same_literals(literal, other),
        _ => false,
    }
}

/// Whether both are the same query.
pub(crate) fn are_same_queries(a: &Command, b: &Command) -> bool
    ensures { result ≡ same_query a.now b.now }
{
    match a {
        Command::Model => matches!(b, Command::Model),
        Command::Models(most) => is_models_of(b, *most),
        Command::Propagate => matches!(b, Command::Propagate),
        Command::Minimize(term) => is_minimize_of(b, *term),
        Command::Explain(literal) => is_explain_of(b, literal),
        Command::Why => matches!(b, Command::Why),
        _ => false,
    }
}
