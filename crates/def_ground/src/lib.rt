//! Ground problems as a definition: what a formula and a list of sentences come to, over what is
//! known of the ground atoms.
#![tactic(auto)]

mod answers;
mod asserted_cases;
mod case_answers;
mod cases;
mod checked;
mod gates;
mod laws;
mod linear;
mod shown_cases;
mod sides;
mod sum_sides;
mod threshold_rows;
mod thresholds;

pub use answers::Answer;
pub use asserted_cases::{push_alike, push_answer, push_cases};
pub use case_answers::answer_of_cases;
pub use cases::{Case, case_of};
pub use gates::{add_part, close, gate, same};
pub use laws::{
    assertion_is_right, cases_are_right, few_variables, form_is_right, one_each_by_clauses,
    problems_as_worked_out, sentences_are_asserted,
};
pub use linear::{Linear, Weighing, guarded_literal, push_counted, push_weighed};
pub use sides::{GuardedValue, case_of_row};
pub use sum_sides::compared_beside;
pub use threshold_rows::compared_with_rows;
pub use thresholds::{compared_at, flipped};
