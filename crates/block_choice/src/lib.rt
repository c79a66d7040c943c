//! The stage of blocks: which theory and which structure of a file are used.
#![tactic(auto)]

mod blocks;
mod first_places;
mod picking;

pub use picking::{Picked, pick};
