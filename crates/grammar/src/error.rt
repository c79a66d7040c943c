//! What the readers answer where they read no knowledge base.
ghost use Rattle.std.specs.Prelude.{◌≡◌};
ghost use Rattle.grammar.specs.Whole.{refusal_of};
ghost use Rattle.grammar.specs.declared.error.KbError.TheVariants.{Memory};

use crate::stops::ReadError;
use kb_text::{K, KbFault};
use std::alloc::AllocError;
use thiserror::Error;

/// Why a knowledge base was not read.
#[derive(Clone, Copy, Debug, Error)]
pub enum KbError {
    #[error("the knowledge base is refused")]
    Refused(KbFault),
    #[error("out of memory")]
    Memory,
}

impl From<ReadError> for KbError {
    ghost from_gives = { λ e k. k ≡ refusal_of e };

    fn from(e: ReadError) -> KbError {
        match e {
            ReadError::Memory => KbError::Memory,
            ReadError::Stuck(place) => KbError::Refused(KbFault {
                cause: K::Syntax,
                place,
            }),
        }
    }
}

impl From<AllocError> for KbError {
    ghost from_gives = { λ _ e. e ≡ Memory };

    fn from(_e: AllocError) -> KbError {
        KbError::Memory
    }
}
