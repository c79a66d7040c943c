//! Where a term stands, as far as aggregates may stand there.

/// How a term stands, for the aggregates in it.
#[derive(Clone, Copy)]
pub enum Standing {
    /// It is a side of a comparison, or the term of a term block.
    Side,
    /// It is an operand of a sum that such a term is, with at most integer factors and signs.
    Summand,
    /// No aggregate may stand in it.
    Elsewhere,
}
