//! Reads vocabularies, structures and the headers of blocks.
#![tactic(auto)]

pub mod block_ends;
pub mod structure;
pub mod vocabulary;
