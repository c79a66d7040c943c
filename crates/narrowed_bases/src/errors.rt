//! Why the data of a knowledge base are not narrowed.
use thiserror::Error;

/// What the narrowed data leave open weighs too much, or there was no memory to narrow them.
#[derive(Clone, Copy, Debug, PartialEq, Eq, Error)]
pub enum NarrowError {
    #[error("too large")]
    TooLarge,
    #[error("out of memory")]
    Memory,
}
