//! What replies claim, as entries of a log.
#![tactic(auto)]

mod claims;
mod entries;

pub use claims::claims_of;
