//! Why a reader stopped: the tokens are no text of the grammar from a place on, or memory ran out.
ghost use Rattle.std.specs.Prelude.{◌≡◌};
ghost use Rattle.grammar.specs.declared.stops.ReadError.TheVariants.{Memory};

use std::alloc::{AllocError, AllocFailed};

/// Why the tokens are no text of the grammar.
#[derive(Clone, Copy)]
pub enum ReadError {
    Memory,
    /// The place of the first token with which no text of the grammar goes on.
    Stuck(usize),
}

impl From<AllocError> for ReadError {
    ghost from_gives = { λ _ e. e ≡ Memory };

    fn from(_e: AllocError) -> ReadError {
        ReadError::Memory
    }
}

impl<T: Drop> From<AllocFailed<T>> for ReadError {
    ghost from_gives = { λ _ e. e ≡ Memory };

    fn from(_e: AllocFailed<T>) -> ReadError {
        ReadError::Memory
    }
}
