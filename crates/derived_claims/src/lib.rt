//! The claims of a right reply, derived by cases.
#![tactic(auto)]

mod claims;
mod entries;
mod forcing;
mod forcings;
mod literals;

pub use claims::derived_claims;
