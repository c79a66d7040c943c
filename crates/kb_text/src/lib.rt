//! The tokens of a knowledge base's text, and the refusals of every stage of reading it.
//!
//! The text is that of the IDP3 manual: words, integers and signs, with spaces, `//` comments and `/* */`
//! comments between them. A procedure, which is written in Lua, is one token and is passed over.
#![tactic(auto)]

mod bytes;
mod depth;
mod ends;
mod fault;
mod piece;
mod procedure;
mod refusal;
mod role;
mod scan;
mod token;

pub use bytes::{only_spaces, same_text};
pub use fault::{K, KbFault, LexError};
pub use scan::{Lexer, one_answer, tokens};
pub use token::{Kind, Token};
