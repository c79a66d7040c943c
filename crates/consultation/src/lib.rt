//! Consultations: the lines of the commands, each answered before the next one is read, and what a log states of them.
#![tactic(auto)]

mod consultant;
mod printing;
mod said;
mod statements;
mod stop;

pub use consultant::Consultant;
pub use printing::say;
pub use said::{Said, reply_to};
pub use stop::Stop;
