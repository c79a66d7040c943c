//! The raw trees: what stands in the text, with the place of each token.
use crate::terminal::{Adding, Aggregation, Arrow, Comparison};
use crate::text::Text;
use sqlite_items::{Boxed, Items};

/// A word and its place.
#[derive(Drop)]
pub struct RawName {
    pub text: Text,
    pub place: usize,
}

/// An integer and its place.
#[derive(Clone, Copy)]
pub struct RawInteger {
    pub value: u64,
    pub place: usize,
}

/// The type of a variable, in square brackets.
#[derive(Drop)]
pub struct RawVarType {
    pub open: usize,
    pub name: RawName,
    pub close: usize,
}

/// A variable where it is bound.
#[derive(Drop)]
pub struct RawVar {
    pub name: RawName,
    pub of: Option<RawVarType>,
}

/// A further variable, with the comma before it, if there is one.
#[derive(Drop)]
pub struct RawVarTail {
    pub comma: Option<usize>,
    pub var: RawVar,
}

/// The variables of a quantifier or an aggregate.
#[derive(Drop)]
pub struct RawVars {
    pub first: RawVar,
    pub more: Items<RawVarTail>,
}

/// How many instances there have to be.
#[derive(Clone, Copy)]
pub enum RawNumber {
    /// At least one.
    Any,
    Exactly(RawInteger),
    Compared(Comparison, usize, RawInteger),
}

/// An operand alone, or a chain of one arrow: its first operand, the first link, and the further ones.
#[cycle(raw)]
#[derive(Drop)]
pub enum RawFormula {
    Alone(RawOr),
    Linked(Arrow, RawOr, RawLink, Items<RawLink>),
}

/// The place of an arrow, and the operand after it.
#[cycle(raw)]
#[derive(Drop)]
pub struct RawLink {
    pub place: usize,
    pub operand: RawOr,
}

#[cycle(raw)]
#[derive(Drop)]
pub struct RawOr {
    pub first: RawAnd,
    pub more: Items<RawOrTail>,
}

#[cycle(raw)]
#[derive(Drop)]
pub struct RawOrTail {
    pub place: usize,
    pub operand: RawAnd,
}

#[cycle(raw)]
#[derive(Drop)]
pub struct RawAnd {
    pub first: RawUnary,
    pub more: Items<RawAndTail>,
}

#[cycle(raw)]
#[derive(Drop)]
pub struct RawAndTail {
    pub place: usize,
    pub operand: RawUnary,
}

/// The places are those of the sign and of the colon.
#[cycle(raw)]
#[derive(Drop)]
pub enum RawUnary {
    Not(usize, Boxed<RawUnary>),
    Every(usize, Boxed<RawVars>, usize, Boxed<RawFormula>),
    Some(usize, RawNumber, Boxed<RawVars>, usize, Boxed<RawFormula>),
    Prim(RawPrim),
}

#[cycle(raw)]
#[derive(Drop)]
pub enum RawPrim {
    Group(usize, Boxed<RawFormula>, usize),
    Truth(bool, usize),
    Atom(RawApp),
    Compare(Boxed<RawTermTree>, Comparison, usize, Boxed<RawTermTree>),
}

#[cycle(raw)]
#[derive(Drop)]
pub struct RawTermTree {
    pub first: RawProduct,
    pub more: Items<RawSumTail>,
}

#[cycle(raw)]
#[derive(Drop)]
pub struct RawSumTail {
    pub sign: Adding,
    pub place: usize,
    pub operand: RawProduct,
}

#[cycle(raw)]
#[derive(Drop)]
pub struct RawProduct {
    pub first: RawFactor,
    pub more: Items<RawProductTail>,
}

#[cycle(raw)]
#[derive(Drop)]
pub struct RawProductTail {
    pub place: usize,
    pub operand: RawFactor,
}

#[cycle(raw)]
#[derive(Drop)]
pub enum RawFactor {
    Integer(RawInteger),
    Value(RawApp),
    Brackets(usize, Boxed<RawTermTree>, usize),
    Negative(usize, Boxed<RawFactor>),
    Count(RawOpening, Boxed<RawFormula>, usize),
    Aggregate(Aggregation, RawOpening, Boxed<RawFormula>, usize, Boxed<RawTermTree>, usize),
}

/// How an aggregate begins: the places of its word or `#`, of its brace and of the colon, and its variables.
#[derive(Drop)]
pub struct RawOpening {
    pub place: usize,
    pub brace: usize,
    pub vars: Boxed<RawVars>,
    pub colon: usize,
}

#[cycle(raw)]
#[derive(Drop)]
pub enum RawApp {
    Constant(RawName),
    Empty(RawName, usize, usize),
    Apply(RawName, usize, Boxed<RawTerms>, usize),
}

#[cycle(raw)]
#[derive(Drop)]
pub struct RawTerms {
    pub first: RawTermTree,
    pub more: Items<RawTermsTail>,
}

#[cycle(raw)]
#[derive(Drop)]
pub struct RawTermsTail {
    pub place: usize,
    pub operand: RawTermTree,
}
