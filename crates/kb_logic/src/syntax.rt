//! Terms, formulas and theories.
use crate::lists::ListOf;
use crate::vocabularies::{Bound, BoundList};

/// How an aggregate joins the values of its assignments.
#[derive(Clone, Copy)]
pub enum AggKind {
    Count,
    Sum,
    Min,
    Max,
}

/// A comparison of two values, or of a number of assignments with an integer.
#[derive(Clone, Copy)]
pub enum Cmp {
    Eq,
    Ne,
    Lt,
    Gt,
    Le,
    Ge,
}

/// An operand of a sum. A term `-t` is a sum of the one operand `t` with minus.
#[cycle(language)]
#[derive(Drop)]
pub struct Signed {
    pub minus: bool,
    pub term: Term,
}

/// A term. `Var(n)` is the variable number n in scope, counted from 0 from the outermost binder inwards.
/// `Made` has a type and the position of a name in it; `Apply` has a function. A count has weight `Int(1)`.
#[cycle(language)]
#[derive(Drop)]
pub enum Term {
    Var(u32),
    Int(i64),
    Made(u32, u32),
    Apply(u32, Vec<Term>),
    Sum(Vec<Signed>),
    Product(Vec<Term>),
    Agg(AggKind, Vec<Bound>, Box<Formula>, Box<Term>),
}

/// A formula. `Atom` has a predicate; `Number` says that the number of assignments that make its formula
/// true compares so with the integer.
#[cycle(language)]
#[derive(Drop)]
pub enum Formula {
    True,
    False,
    Atom(u32, Vec<Term>),
    Compare(Cmp, Term, Term),
    Not(Box<Formula>),
    And(Vec<Formula>),
    Or(Vec<Formula>),
    Implies(Box<Formula>, Box<Formula>),
    Iff(Box<Formula>, Box<Formula>),
    All(Vec<Bound>, Box<Formula>),
    Any(Vec<Bound>, Box<Formula>),
    Number(Cmp, i64, Vec<Bound>, Box<Formula>),
}

/// A rule `! vars: P(args) <- body`, or `! vars: f(args) = value <- body`. Its variables come first in the
/// scope of its terms and its body. The body of a rule that has none is `True`: it means the same as a body that is
/// written so, and weighs less.
#[derive(Drop)]
pub struct Rule {
    pub vars: BoundList,
    pub symbol: u32,
    pub args: TermList,
    pub value: Option<Term>,
    pub has_body: bool,
    pub body: Formula,
}

/// Rules that together define the symbols of their heads.
#[derive(Drop)]
pub struct Definition {
    pub rules: RuleList,
}

/// Sentences, and definitions each by itself.
#[derive(Drop)]
pub struct Theory {
    pub sentences: FormulaList,
    pub definitions: DefinitionList,
}

/// Terms.
pub type TermList = ListOf<Term>;
/// Formulas.
pub type FormulaList = ListOf<Formula>;
/// Rules.
pub type RuleList = ListOf<Rule>;
/// Definitions.
pub type DefinitionList = ListOf<Definition>;
