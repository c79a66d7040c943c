//! What a search decides next: which variable, by a rule over scores, and with which sign.
#![tactic(auto)]

mod costs;
mod decider;
mod near;
mod order;
mod phases;
mod scores;
mod settled;

pub use costs::Costs;
pub use decider::Decider;
pub use near::Near;
pub use order::Order;
pub use phases::{First, Phases};
pub use scores::Scores;
pub use settled::Settled;
