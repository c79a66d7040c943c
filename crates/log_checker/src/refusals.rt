//! Why a log is refused.

/// Why a log is refused.
#[derive(Clone, Copy)]
pub enum Refused {
    /// The entry of this number, from 1 on, is the first that is no step.
    Entry(u64),
    /// There was not enough memory.
    Memory,
}
