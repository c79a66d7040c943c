//! Refusals of a command line.
ghost use Rattle.std.specs.Prelude.{◌≡◌, Some};
ghost use Rattle.consult_text.specs.Refusals.{number_of, name_of, text_of};

use std::fmt;

/// Why a command line is refused.
#[derive(Clone, Copy, Debug, PartialEq, Eq)]
pub enum F {
    /// The line is no command.
    Syntax,
    /// The literal's symbol is no predicate or function of the vocabulary.
    UnknownSymbol,
    /// The symbol has another number of arguments, or is a predicate with a value or a function without one.
    WrongArity,
    /// An element is not in its position's type.
    NotAnElement,
    /// The literal is a choice already.
    AlreadyChosen,
    /// The literal is no choice.
    NotChosen,
    /// The literal's atom is known in the data.
    GivenByData,
    /// The line has more than 65,536 bytes.
    LineTooLong,
    /// There is no term block of this name.
    UnknownTerm,
}

impl F {
    /// The number that is printed after the letter F.
    pub fn number(self) -> u8
        ensures { result ≡ number_of self }
    {
        match self {
            F::Syntax => 1,
            F::UnknownSymbol => 2,
            F::WrongArity => 3,
            F::NotAnElement => 4,
            F::AlreadyChosen => 5,
            F::NotChosen => 6,
            F::GivenByData => 7,
            F::LineTooLong => 8,
            F::UnknownTerm => 9,
        }
    }

    /// The name that is printed after the number.
    pub fn name(self) -> &'static str
        ensures { result.now ≡ name_of self }
    {
        match self {
            F::Syntax => "Syntax",
            F::UnknownSymbol => "UnknownSymbol",
            F::WrongArity => "WrongArity",
            F::NotAnElement => "NotAnElement",
            F::AlreadyChosen => "AlreadyChosen",
            F::NotChosen => "NotChosen",
            F::GivenByData => "GivenByData",
            F::LineTooLong => "LineTooLong",
            F::UnknownTerm => "UnknownTerm",
        }
    }
}

impl fmt::Display for F {
    ghost output = { λ f. Some (text_of f) };

    fn fmt<W: fmt::Write>(&self, f: &mut fmt::Formatter<W>) -> fmt::Result {
        let number = self.number();
        let name = self.name();
        write!(f, "F{number} {name}")
    }
}
