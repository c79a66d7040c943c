//! What the stages of reading accept: laws of the definitions of data and sizes with worked examples, that it is well
//! typed, and that names are words.
#![tactic(auto)]

mod cell_laws;
mod data_laws;
mod examples;
mod size_laws;
mod typing_laws;
mod word_laws;

pub use cell_laws::{
    covered_is_each, listed_are_among, listed_are_counted, listed_are_distinct, missed_is_some,
    shared_is_some,
};
pub use data_laws::{
    accepted_have_domains, accepted_is_given, blocks_have_places, given_is_consistent,
    refusals_are_parted, theories_have_places,
};
pub use examples::{
    areas_worked_out, cells_worked_out, files_worked_out, numbers_worked_out, sizes_worked_out,
};
pub use size_laws::{
    accepted_are_bounded, blocks_have_bounds, product_counts_tuples, small_is_bounded,
    small_term_is_bounded, theories_have_bounds,
};
pub use typing_laws::{accepted_is_typed_over, derived_is_well_formed, derived_is_well_typed};
pub use word_laws::{data_are_words, names_are_words};
