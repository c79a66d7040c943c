//! What is found of a literal.
use ground_core::LitList;
use kb_logic::ListOf;
use lit_core::{Lit, Values};

/// A literal, and some of what was assumed, which forces it.
#[derive(Drop)]
pub struct Kept {
    pub lit: Lit,
    pub support: LitList,
}

/// Forced literals, in the order in which they were asked for.
pub type KeptList = ListOf<Kept>;

/// What a search for the negation found.
#[derive(Drop)]
pub enum Tested {
    Forced(Kept),
    /// Values under which it is false.
    Free(Values),
}
