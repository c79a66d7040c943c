//! One search for a model under assumptions, as every task over a solver makes it.
#![tactic(auto)]

mod lists;
mod retiring;
mod searching;

pub use lists::joined;
pub use retiring::retire_each;
pub use searching::model_of;
