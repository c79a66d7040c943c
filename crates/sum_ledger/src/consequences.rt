//! What was found.

use lit_core::{Clause, ClauseList};

/// A clause, and the place of the constraint that implies it.
#[derive(Drop)]
pub struct Consequence {
    pub place: usize,
    pub clause: Clause,
}

/// Clauses, and the place of the constraint that implies them.
#[derive(Drop)]
pub struct Consequences {
    pub place: usize,
    pub clauses: ClauseList,
}
