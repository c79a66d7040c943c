//! The consultant's session: commands and their right replies.
#![tactic(auto)]

mod chosen;
pub mod laws;
mod literals;
mod session;

pub use session::Session;
