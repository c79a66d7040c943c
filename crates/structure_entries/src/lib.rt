//! What the entries of a structure say, as it stands in memory.
#![tactic(auto)]

pub mod elements;
pub mod entries;
pub mod facts;
pub mod forms;
pub mod items;
pub mod rows;
pub mod senses;
pub mod spots;
pub mod subjects;
pub mod wholes;
pub mod written;
