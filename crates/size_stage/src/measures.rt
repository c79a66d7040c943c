//! The sizes of a knowledge base.

/// The number of ground atoms and the weight, each at most the greatest number of 64 bits.
#[derive(Clone, Copy)]
pub struct Measure {
    pub atoms: u64,
    pub weight: u64,
}
