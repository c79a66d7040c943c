//! The elements of types, as a structure gives them, and sets of elements that are written one by one or as ranges.
#![tactic(auto)]

pub mod cells;
mod filling;
pub mod hulls;
pub mod intervals;
pub mod kinds;
pub mod listing;
pub mod listings;
pub mod lookups;
pub mod runs;
pub mod sets;
pub mod traits;
pub mod types;
