//! Rows of a structure that clash.
#![tactic(auto)]

pub mod clashes;
pub mod facts;
pub mod keys;
pub mod notes;
pub mod runs;
pub mod signs;
pub mod singles;
pub mod tables;
