//! The structure that a valuation of the ground atoms is, and the values that terms may have where
//! some atoms are unknown, each with the literals under which the term has it.
#![tactic(auto)]

mod arithmetic;
mod counts;
mod domain_index;
mod ground_data;
mod known_atoms;
mod laws;
mod plain_terms;
mod row_lists;
mod rows;
mod term_rows;
mod tuple_places;

pub use ground_data::GroundData;
pub use kb_logic::Memory;
pub use laws::{
    atoms_have_variables, known_is_extended, only_atoms_matter, rows_are_few, rows_are_right,
    structures_have_valuations, valuations_make_structures,
};
pub use rows::{RowValue, Rows, TupleRows};
