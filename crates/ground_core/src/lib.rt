//! Ground problems: what is said of numbered variables by clauses, gates and constraints on sums,
//! which valuations satisfy it, and what a solver of such problems promises.
#![tactic(auto)]

mod atom_counts;
mod atom_tables;
mod atoms;
mod exclusions;
mod gate_clauses;
mod growing;
mod laws;
mod moments;
mod parts;
mod problems;
mod ranges;
mod solving;

pub use atom_tables::AtomTable;
pub use exclusions::exclusion;
pub use gate_clauses::clauses_of_gate;
pub use growing::{Addition, Grow};
pub use laws::{
    additions_change_no_answer, bounds_are_kept, bounds_say_no_more, bounds_select, calls_add_up,
    clause_is_added, clauses_are_of_the_problem, clauses_say_the_gate, clauses_say_the_problem,
    counts_are_costs, each_atom_stands_once, exclusions_are_kept, exclusions_select,
    fresh_clauses_are_no_tautologies, more_in_two_steps, more_than_itself, only_variables_matter,
    refusals_are_kept, retired_bounds_are_additions, retirements_are_kept, retirements_restrict,
};
pub use moments::Moment;
pub use parts::{AggCon, Gate, GroundTerm, LitList, Part, PartList, TermBound};
pub use problems::Problem;
pub use ranges::has_small_terms;
pub use solving::{Budget, Halt, Solve, Verdict};
pub use std::alloc::AllocError as Memory;
