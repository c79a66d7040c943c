//! The language of knowledge bases: vocabularies, terms, formulas, theories and structures, and what a
//! formula means in a structure.
//!
//! The language is FO(.) as the IDP3 manual has it, with definitions that are not recursive: first-order
//! logic with types, functions, arithmetic, aggregates and definitions.
#![tactic(auto)]

mod copies;
mod decimals;
mod elements;
mod lists;
mod names;
mod structures;
mod syntax;
pub mod tuples;
pub mod values;
mod vocabularies;

pub use copies::copy_bounds;
pub use decimals::decimal;
pub use elements::{Elem, ExtInt};
pub use lists::{Copied, DomainList, ElemList, ListOf, NameList, NumberList, RowList};
pub use names::Name;
pub use std::alloc::AllocError as Memory;
pub use structures::{Literal, LiteralList, Structure, Table, TableList};
pub use syntax::{
    AggKind, Cmp, Definition, DefinitionList, Formula, FormulaList, Rule, RuleList, Signed, Term,
    TermList, Theory,
};
pub use vocabularies::{
    Bound, BoundList, Parent, Symbol, SymbolList, TypeDecl, TypeList, Vocabulary,
};
