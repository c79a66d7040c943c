//! Why a line is refused.
use std::alloc::{AllocError, AllocFailed};

/// Why a line is refused.
#[derive(Clone, Copy)]
pub enum Fault {
    Word,
    Number,
    Rule,
    Late,
    Size,
    Literal,
    Retired,
    Term,
    Selector,
    Values,
    Memory,
}

impl From<AllocError> for Fault {
    fn from(_error: AllocError) -> Fault {
        Fault::Memory
    }
}

impl<T: Drop> From<AllocFailed<T>> for Fault {
    fn from(_error: AllocFailed<T>) -> Fault {
        Fault::Memory
    }
}

/// The refusal in words.
pub fn text_of(fault: Fault) -> &'static str {
    match fault {
        Fault::Word => "no such word",
        Fault::Number => "not the numbers of this word",
        Fault::Rule => "no such rule",
        Fault::Late => "said after a question",
        Fault::Size => "too large for brute force",
        Fault::Literal => "no literal of the problem",
        Fault::Retired => "a retired selector is assumed",
        Fault::Term => "no such term",
        Fault::Selector => "no such selector",
        Fault::Values => "no values to exclude",
        Fault::Memory => "out of memory",
    }
}
