//! Command lines and the texts of replies.
//!
//! A line has one command, such as `assert P(a,b).` or `model.`; a reply is one line or more.
#![tactic(auto)]

mod commands;
mod digits;
mod laws;
mod lines;
mod lookup;
mod parse;
mod refusals;
mod replies;
mod terms;
mod texts;
mod written;

pub use commands::Command;
pub use digits::budget_of;
pub use laws::{commands_are_over_the_base, no_two_replies_have_one_text, one_meaning};
pub use lines::{CommandError, read_command};
pub use refusals::F;
pub use replies::Reply;
pub use texts::{push_reply, write_reply};
