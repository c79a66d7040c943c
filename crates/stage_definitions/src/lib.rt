//! What the stages after reading mean: which blocks are chosen, which numbers words have, which types variables have,
//! and where each stage refuses a file.
#![tactic(auto)]

mod earliest;
mod file_laws;
mod isa_laws;
mod laws;
mod named;
mod stage_examples;
mod standings;
mod symbol_types;
mod types_above;

pub use earliest::Earliest;
pub use file_laws::files_are_their_blocks;
pub use isa_laws::{cycles_come_back, isa_has_a_rank, isa_is_a_forest, named_types_have_no_cycle};
pub use laws::{aggregates_worked_out, noted_is_earliest, worked_examples};
pub use named::{
    NamedDefinition, NamedFormula, NamedKb, NamedNode, NamedRule, NamedSigned, NamedTerm,
    NamedTermBlock, NamedTheory, NamedVar,
};
pub use stage_examples::{below_worked_out, blocks_worked_out};
pub use standings::Standing;
pub use symbol_types::argument_types;
pub use types_above::{is_number_type, parent_of, top_of, type_above};
