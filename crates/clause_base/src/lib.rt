//! What a clause store is made of: the clause database, the trail of what is true, the lists of watches and those of
//! short clauses; and what a store of them is, as its callers see it.
#![tactic(auto)]

mod clause_db;
mod occurrences;
mod packing;
mod short_clauses;
mod trail;
mod watch_lists;

pub use clause_db::ClauseDb;
pub use occurrences::{Occurrence, Rest};
pub use packing::is_short;
pub use short_clauses::ShortClauses;
pub use trail::{Step, Trail};
pub use watch_lists::LinkedLists;
