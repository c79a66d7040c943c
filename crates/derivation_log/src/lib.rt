//! Log entries, and which of them are steps.
#![tactic(auto)]

mod building;
mod claims;
mod entries;
mod fields;
mod laws;
mod reading;
mod scans;
mod writing;

pub use claims::Claim;
pub use entries::{Entry, NumberList};
pub use fields::{Field, FieldList};
pub use laws::{accepted_logs_claim_the_truth, one_answer, one_reading, text_is_of_the_fields};
pub use reading::{EntryError, read_entry};
pub use writing::write_entry;
