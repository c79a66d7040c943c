//! Names of a knowledge base as numbers.
#![tactic(auto)]

mod cycles;
mod declarations;
mod files;
mod places;
mod theories;
mod vocabularies;

pub use block_choice::{Picked, pick};
pub use files::resolve;
pub use stage_definitions::{
    Earliest, NamedFormula, NamedKb, NamedNode, NamedSigned, NamedTerm, NamedTermBlock,
    NamedTheory, NamedVar, below_worked_out, blocks_worked_out, cycles_come_back, isa_has_a_rank,
    isa_is_a_forest, named_types_have_no_cycle, noted_is_earliest, worked_examples,
};
