//! The grammar of the whole language: its terminals, its trees with their spelling, and the raw trees with the place
//! of each token.
#![tactic(auto)]

mod error;
mod item_tails;
mod raw;
mod raw_blocks;
mod stops;
mod terminal;
mod text;

pub use error::KbError;
pub use item_tails::ItemTails;
pub use raw::{
    RawAnd, RawAndTail, RawApp, RawFactor, RawFormula, RawInteger, RawLink, RawName, RawNumber,
    RawOpening, RawOr, RawOrTail, RawPrim, RawProduct, RawProductTail, RawSumTail, RawTermTree,
    RawTerms, RawTermsTail, RawUnary, RawVar, RawVarTail, RawVarType, RawVars,
};
pub use raw_blocks::{
    RawBinder, RawBody, RawConstructed, RawDeclaration, RawDefinition, RawElement, RawElementTail,
    RawEntry, RawHead, RawHeader, RawIsa, RawItem, RawItemTail, RawItems, RawKb, RawMark,
    RawNameTail, RawNames, RawPositions, RawRange, RawResult, RawRow, RawRowTail, RawRows, RawRule,
    RawSentence, RawStructure, RawSymbol, RawTable, RawTerm, RawTheory, RawTheoryItem, RawTo,
    RawType, RawValue, RawVocabulary, Separator,
};
pub use stops::ReadError;
pub use terminal::{Adding, Aggregation, Arrow, Comparison, Item, Outer, Terminal};
pub use text::Text;
