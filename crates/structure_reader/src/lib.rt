//! The stages of data and sizes: what a structure gives, and how large it makes a knowledge base.
#![tactic(auto)]

mod domains;
mod noting;
mod reading;
mod sizes;

pub use reading::{read_data, read_structure};
pub use size_stage::Measure;
pub use sizes::measure;
