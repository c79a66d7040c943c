//! What an aggregate constraint implies under an assignment.
#![tactic(auto)]

mod contradictions;
mod ends;
mod explained;
mod inference;
mod laws;
mod movers;
mod rising;
mod single;
mod thresholds;
mod together;
mod trials;
mod valuations;

pub use contradictions::goal;
pub use ends::gain_of;
pub use inference::{implied, implied_at};
pub use laws::{
    bound_contradiction_is_sound, contradiction_is_sound, decided_is_unit, ends_are_attained,
    few_reasons_suffice, quiet_is_enough, reaches_by_totals, reasons_suffice,
};
pub use thresholds::{Amount, Threshold, threshold_of};
pub use together::implied_each;
pub use valuations::is_sum_held;
