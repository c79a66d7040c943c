//! Small problems for the tests of solvers and of the tasks over them.
#![tactic(auto)]

mod kept;
mod problems;

pub use kept::{Kept, solver_of};
pub use problems::{are_over, are_parts_over, name_term, no, problem_of, said, say, say_sum, yes};
