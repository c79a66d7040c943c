//! What every reader of the grammar stands on: the tokens as terminals, the next token, the nodes of raw trees, and
//! variables where they are bound.
#![tactic(auto)]

pub mod binders;
pub mod build;
pub mod cursor;
pub mod items;
