//! What a token is to the grammar.

/// A sign between two terms that makes a formula.
#[derive(Clone, Copy, PartialEq, Eq)]
pub enum Comparison {
    Equal,
    NotEqual,
    Less,
    Greater,
    AtMost,
    AtLeast,
}

/// A connective whose operands are grouped.
#[derive(Clone, Copy, PartialEq, Eq)]
pub enum Arrow {
    /// `=>`, grouped to the right.
    Implies,
    /// `<=`, grouped to the left.
    ImpliedBy,
    /// `<=>`, grouped to the left.
    Equivalent,
}

/// A word that opens an aggregate with a term.
#[derive(Clone, Copy)]
pub enum Aggregation {
    Sum,
    Min,
    Max,
}

/// `+` or `-` between two products.
#[derive(Clone, Copy, PartialEq, Eq)]
pub enum Adding {
    Plus,
    Minus,
}

/// Signs and reserved words that stand outside formulas and terms.
#[derive(Clone, Copy, PartialEq, Eq)]
pub enum Outer {
    Dot,
    Semicolon,
    Range,
    If,
    To,
    Vocabulary,
    Theory,
    Structure,
    Term,
    Type,
    Isa,
    Constructed,
    Procedure,
}

/// A token as the grammar sees it; the text of a word stands beside it.
#[derive(Clone, Copy)]
pub enum Terminal {
    Word,
    Integer(u64),
    Truth(bool),
    Compare(Comparison),
    Arrow(Arrow),
    And,
    Or,
    Not,
    Add(Adding),
    Times,
    Every,
    Some,
    Open,
    Close,
    OpenSquare,
    CloseSquare,
    OpenBrace,
    CloseBrace,
    Comma,
    Colon,
    Count,
    Aggregate(Aggregation),
    Outer(Outer),
}

/// A token with the place of its first byte.
#[derive(Clone, Copy)]
pub struct Item<'a> {
    pub terminal: Terminal,
    pub text: &'a [u8],
    pub place: usize,
}
