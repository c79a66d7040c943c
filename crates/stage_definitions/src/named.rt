//! Terms, formulas and rules with numbers for words. Variables need not have their types yet.
ghost use Rattle.stage_definitions.specs.Below.{HasNoCycle, type_parents};

use kb_logic::{AggKind, Cmp, Name, Vocabulary};
use sqlite_items::Items;

/// A variable where it is bound, with the place of its name, and the number of its type where one is written.
#[derive(Drop)]
pub struct NamedVar {
    pub name: Name,
    pub place: usize,
    pub ty: Option<u32>,
}

/// A term, with the place of its first token.
#[cycle(named)]
#[derive(Drop)]
pub struct NamedTerm {
    pub place: usize,
    pub node: NamedNode,
}

/// An operand of a sum. A term `-t` is a sum of the one operand `t` with minus.
#[cycle(named)]
#[derive(Drop)]
pub struct NamedSigned {
    pub minus: bool,
    pub term: NamedTerm,
}

/// `Var(n)` is the variable number n in scope, counted from 0 from the outermost binder inwards. `Made` has a type
/// and the position of a name in it; `Apply` has a function. A count has weight `Int(1)`.
#[cycle(named)]
#[derive(Drop)]
pub enum NamedNode {
    Var(u32),
    Int(u64),
    Made(u32, u32),
    Apply(u32, Vec<NamedTerm>),
    Sum(Vec<NamedSigned>),
    Product(Vec<NamedTerm>),
    Agg(AggKind, Items<NamedVar>, Box<NamedFormula>, Box<NamedTerm>),
}

#[cycle(named)]
#[derive(Drop)]
pub enum NamedFormula {
    Truth(bool),
    Atom(u32, Vec<NamedTerm>),
    Compare(Cmp, NamedTerm, NamedTerm),
    Not(Box<NamedFormula>),
    And(Vec<NamedFormula>),
    Or(Vec<NamedFormula>),
    Implies(Box<NamedFormula>, Box<NamedFormula>),
    Iff(Box<NamedFormula>, Box<NamedFormula>),
    All(Items<NamedVar>, Box<NamedFormula>),
    Any(Items<NamedVar>, Box<NamedFormula>),
    Number(Cmp, u64, Items<NamedVar>, Box<NamedFormula>),
}

/// A rule of a definition. A head `f(..) = t` whose `t` may not stand in a head is `f(..) = v`, with a last variable
/// `v` for it and `v = t` as the first part of the body. The body is true where none is written.
#[derive(Drop)]
pub struct NamedRule {
    pub vars: Items<NamedVar>,
    pub symbol: u32,
    pub args: Items<NamedTerm>,
    pub value: Option<NamedTerm>,
    pub has_body: bool,
    pub body: NamedFormula,
}

/// A definition: its rules.
#[derive(Drop)]
pub struct NamedDefinition {
    pub rules: Items<NamedRule>,
}

/// A theory: its name, the place of its first word, its sentences and its definitions.
#[derive(Drop)]
pub struct NamedTheory {
    pub name: Name,
    pub place: usize,
    pub sentences: Items<NamedFormula>,
    pub definitions: Items<NamedDefinition>,
}

/// A term block.
#[derive(Drop)]
pub struct NamedTermBlock {
    pub name: Name,
    pub term: NamedTerm,
}

/// A knowledge base with numbers for words, and the places of the names of its types and symbols. No type of it comes
/// back to itself by `isa`.
#[derive(Drop)]
pub struct NamedKb {
    pub vocab: Vocabulary,
    pub theories: Items<NamedTheory>,
    pub terms: Items<NamedTermBlock>,
    pub type_places: Items<usize>,
    pub symbol_places: Items<usize>,
    ghost acyclic: { HasNoCycle (type_parents vocab.types) },
}
