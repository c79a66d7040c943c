//! The refusals of every stage of reading, with their numbers and names.
ghost use Rattle.std.specs.Prelude.{◌≡◌, Some};
ghost use Rattle.kb_text.specs.Refusals.{number_of, name_of, text_of, error_text_of};
ghost use Rattle.kb_text.specs.declared.fault.LexError.TheVariants.{Memory};

use std::alloc::{AllocError, AllocFailed};
use std::error::Error;
use std::fmt;

/// Why a knowledge base is refused.
///
/// Every stage of reading returns one of these. The numbers 11 and 18 are not used.
#[derive(Clone, Copy, Debug, PartialEq, Eq)]
pub enum K {
    /// A byte begins no token, something is not closed, or the tokens are no text of the grammar.
    Syntax,
    /// A word names nothing that may stand there.
    UnknownName,
    /// A name is declared, or an entry given, a second time.
    Redeclared,
    /// A symbol has another number of arguments, or is of the other kind.
    WrongArity,
    /// Types do not fit.
    TypeClash,
    /// A variable gets no type.
    Untyped,
    /// A type that is a part of a declared type has no list in the structure.
    TypeNotGiven,
    /// An element or integer is not in the type of its position.
    NotAnElement,
    /// A value is given both ways, twice, or not at all.
    DataClash,
    /// A form of IDP3 that is not read here.
    Unsupported,
    /// An argument of a head is no variable of the rule, integer or constructed name.
    BadHead,
    /// An integer, or the value of a term, is out of range.
    OutOfRange,
    /// A count or the weight is above its limit.
    TooLarge,
    /// The file is too long.
    TooLong,
    /// A token lies too deep in brackets, quantifiers, arrows and signs.
    TooDeep,
    /// The blocks of the file do not make one vocabulary, one theory and one structure.
    BlockChoice,
}

impl K {
    /// The number that is printed after the letter K.
    pub fn number(self) -> u8
        ensures { result ≡ number_of self }
    {
        match self {
            K::Syntax => 1,
            K::UnknownName => 2,
            K::Redeclared => 3,
            K::WrongArity => 4,
            K::TypeClash => 5,
            K::Untyped => 6,
            K::TypeNotGiven => 7,
            K::NotAnElement => 8,
            K::DataClash => 9,
            K::Unsupported => 10,
            K::BadHead => 12,
            K::OutOfRange => 13,
            K::TooLarge => 14,
            K::TooLong => 15,
            K::TooDeep => 16,
            K::BlockChoice => 17,
        }
    }

    /// The name that is printed after the number.
    pub fn name(self) -> &'static str
        ensures { result.now ≡ name_of self }
    {
        match self {
            K::Syntax => "Syntax",
            K::UnknownName => "UnknownName",
            K::Redeclared => "Redeclared",
            K::WrongArity => "WrongArity",
            K::TypeClash => "TypeClash",
            K::Untyped => "Untyped",
            K::TypeNotGiven => "TypeNotGiven",
            K::NotAnElement => "NotAnElement",
            K::DataClash => "DataClash",
            K::Unsupported => "Unsupported",
            K::BadHead => "BadHead",
            K::OutOfRange => "OutOfRange",
            K::TooLarge => "TooLarge",
            K::TooLong => "TooLong",
            K::TooDeep => "TooDeep",
            K::BlockChoice => "BlockChoice",
        }
    }
}

impl fmt::Display for K {
    ghost output = { λ k. Some (text_of k) };

    fn fmt<W: fmt::Write>(&self, f: &mut fmt::Formatter<W>) -> fmt::Result {
        let number = self.number();
        let name = self.name();
        write!(f, "K{number} {name}")
    }
}

/// A refusal, and the place of its first byte.
#[derive(Clone, Copy, Debug, PartialEq, Eq)]
pub struct KbFault {
    pub cause: K,
    /// The number of bytes before it.
    pub place: usize,
}

/// Why a text has no tokens.
#[derive(Clone, Copy, Debug, PartialEq, Eq)]
pub enum LexError {
    Refused(KbFault),
    Memory,
}

impl fmt::Display for LexError {
    ghost output = { λ e. Some (error_text_of e) };

    fn fmt<W: fmt::Write>(&self, f: &mut fmt::Formatter<W>) -> fmt::Result {
        match self {
            LexError::Refused(fault) => {
                let cause = fault.cause;
                let place = fault.place;
                write!(f, "{cause} at place {place}")
            }
            LexError::Memory => write!(f, "out of memory"),
        }
    }
}

impl Error for LexError {}

impl From<AllocError> for LexError {
    ghost from_gives = { λ _ e. e ≡ Memory };

    fn from(_e: AllocError) -> LexError {
        LexError::Memory
    }
}

impl<T: Drop> From<AllocFailed<T>> for LexError {
    ghost from_gives = { λ _ e. e ≡ Memory };

    fn from(_e: AllocFailed<T>) -> LexError {
        LexError::Memory
    }
}
