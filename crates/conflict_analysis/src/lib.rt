//! Why a clause of the store is false, or a literal: the clauses from which it follows, in the
//! order in which unit propagation meets them.
#![tactic(auto)]

mod analysis;
mod laws;
mod near_sets;
mod place_sets;
mod refutations;
mod resolvent;
mod shortening;

pub use analysis::{Analysis, analyse};
pub use laws::learnt_is_unit_after_step_back;
pub use refutations::{Refuted, final_core, root_hints};
