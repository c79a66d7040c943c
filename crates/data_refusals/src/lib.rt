//! What the stage of data refuses, but for rows that clash.
#![tactic(auto)]

pub mod arguments;
pub mod entries;
pub mod items;
pub mod labels;
pub mod placed;
pub mod spots;
pub mod tuples;
pub mod types;
pub mod walks;
pub mod words;
