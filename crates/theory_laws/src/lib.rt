//! What the ground problem of a theory promises: its definitions by completion, and the whole of it.
#![tactic(auto)]

mod laws;

pub use laws::{
    completed_is_model, completion_is_right, definition_is_asserted, few_for_definitions,
    problem_has_no_bounds, problem_is_right, problem_is_small, terms_are_in_range,
};
