//! From the least to the greatest integer that a term may be.

/// Bounds that stop at the ends of 64 bits.
#[derive(Clone, Copy)]
pub struct Range {
    pub low: i64,
    pub high: i64,
}
