//! What is printed of blocks and formulas, and that it is read back: the tokens of a text, the text of a structure block
//! and of a formula, and laws of both.
#![tactic(auto)]

mod block_laws;
mod formula_laws;
mod read_blocks;
mod token_laws;

pub use block_laws::blocks_are_spelled;
pub use formula_laws::formulas_are_read_back;
pub use read_blocks::{blocks_are_read_back, no_two_have_one_text};
pub use token_laws::{depth_alone_refuses, tokens_are_the_parts, tokens_go_on};
