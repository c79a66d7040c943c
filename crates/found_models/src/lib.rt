//! Models of a knowledge base that were found, kept for later questions.
#![tactic(auto)]

mod asking;
mod laws;
mod models;

pub use asking::{known_model, models_under, new_model};
pub use laws::{found_models_are_models, found_models_are_seen, satisfying_values_are_found};
pub use models::FoundModels;
