//! Literals that are true in all models.
#![tactic(auto)]

mod asking;
mod findings;
mod forcing;
mod kept;
mod testing;

pub use asking::Question;
pub use forcing::forced;
pub use kept::{Kept, KeptList, Tested};
