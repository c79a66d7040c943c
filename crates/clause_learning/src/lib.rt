//! The solver that callers keep: it searches for valuations that satisfy a ground problem, learns clauses
//! of it, and keeps these and the cores that it found.
#![tactic(auto)]

mod core_index;
mod keeper;
mod live_bounds;
mod solver;

pub use solver::Solver;
