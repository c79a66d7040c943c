//! What the data of a knowledge base are narrowed to before it is grounded, and what grounding over that promises.
#![tactic(auto)]

mod bases;
mod errors;
pub mod laws;
mod narrowings;
pub mod theories;

pub use bases::narrow;
pub use errors::NarrowError;
pub use narrowings::Narrowing;
