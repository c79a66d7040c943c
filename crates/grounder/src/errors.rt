//! Why a knowledge base is not made into a ground problem.
use thiserror::Error;

/// The knowledge base weighs too much, or there was no memory for its problem.
#[derive(Clone, Copy, Debug, PartialEq, Eq, Error)]
pub enum GroundError {
    #[error("too large")]
    TooLarge,
    #[error("out of memory")]
    Memory,
}

impl From<ground_core::Memory> for GroundError {
    fn from(_error: ground_core::Memory) -> GroundError {
        GroundError::Memory
    }
}
