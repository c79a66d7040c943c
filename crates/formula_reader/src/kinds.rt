//! What an operand turns out to be.
use grammar::{RawApp, RawFormula, RawTermTree, RawUnary};
use sqlite_items::{Boxed, Items};

/// The places of two brackets.
#[derive(Clone, Copy)]
pub struct Pair {
    pub start: usize,
    pub close: usize,
}

/// What stands where an operand of a connective may stand.
#[derive(Drop)]
pub enum Operand {
    /// And whether no quantified formula stands at its end.
    Formula(Boxed<RawUnary>, bool),
    Term(Boxed<RawTermTree>),
    /// An application in so many brackets, the innermost first: a formula as well as a term.
    Either(Boxed<RawApp>, Items<Pair>),
}

/// What stands in brackets.
#[derive(Drop)]
pub enum Content {
    Formula(Boxed<RawFormula>),
    Term(Boxed<RawTermTree>),
    Either(Boxed<RawApp>, Items<Pair>),
}
