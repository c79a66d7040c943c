//! What a derivation log claims of a knowledge base, checked and said in the words of its vocabulary.
#![tactic(auto)]

mod checking;
mod lines;
mod said;
mod saying;
mod verdicts;

pub use checking::checker_of;
pub use said::SaidClaim;
pub use verdicts::{LogError, verdict_of};
