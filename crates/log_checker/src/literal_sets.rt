//! Sets of literals.
//!
//! One set serves all entries of a log: what an entry marks it takes out again, so that no entry pays for more than its
//! own literals, and memory is taken only where a greater variable comes.

/// A set of literals, by variable and sign.
#[derive(Drop)]
pub struct LiteralSet {
    pub positive: Vec<bool>,
    pub negative: Vec<bool>,
}
