//! The clauses that a solver holds, the trail of what is true, and unit propagation.
#![tactic(auto)]

mod attachment;
mod propagation;
mod short_visits;
mod store;
mod watched;

pub use store::Store;
pub use trails::Step;

/// The path by which the crates above name a step in their clauses.
pub mod trails {
    pub use clause_base::Step;
}
