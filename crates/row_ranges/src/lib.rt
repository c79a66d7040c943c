//! Which assignments of a binder's variables lead to a row of a table.
//!
//! The rows have keys, which rise, and each variable's element moves a key by so much. So the elements that lead to a
//! row are found one after another by binary search, and nothing is looked at for those that lead to none.
#![tactic(auto)]

mod arguments;
mod keys;
mod places;
mod ranges;
mod steps;

pub use kb_logic::Memory;
pub use places::{RowPlace, first_variable};
pub use ranges::{BoundAtom, Ranges};
