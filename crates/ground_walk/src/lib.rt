//! Formulas and sentences as ground problems: the walk over a theory, whose answers are the public
//! definition of `def_ground`.
#![tactic(auto)]

mod counting;
mod disjuncts;
mod exactly_one;
mod forms;
mod laws;
mod leaves;
mod problems;
mod scopes;
mod sentences;
mod starts;
mod weights;

pub use counting::extreme_of;
pub use forms::{add_aggregates, aggregates_of, form};
pub use laws::{bounded_are_groundable, data_know_atoms};
pub use problems::problem_of;
pub use scopes::Scope;
pub use sentences::push_sentence;
pub use starts::start;
