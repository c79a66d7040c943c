//! Which of many constraints on sums imply something under an assignment that grows and shrinks.
#![tactic(auto)]

mod accounts;
mod consequences;
mod ledger;
mod scan;

pub use consequences::{Consequence, Consequences};
pub use ledger::Ledger;
pub use scan::first_implied;
