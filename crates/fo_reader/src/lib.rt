//! Reads knowledge bases, formulas and terms.
#![tactic(auto)]

mod block_formulas;
mod block_laws;
mod file;
mod theory;

pub use block_laws::{one_file, one_file_reading, one_item};
pub use file::read_kb;
pub use formula_reader::{
    one_formula, one_formula_reading, one_term, one_term_reading, read_formula, read_term,
};
pub use grammar::{
    Adding, Aggregation, Arrow, Comparison, ItemTails, KbError, RawAnd, RawAndTail, RawApp,
    RawBinder, RawBody, RawConstructed, RawDeclaration, RawDefinition, RawElement, RawElementTail,
    RawEntry, RawFactor, RawFormula, RawHead, RawHeader, RawInteger, RawIsa, RawItem, RawItemTail,
    RawItems, RawKb, RawLink, RawMark, RawName, RawNameTail, RawNames, RawNumber, RawOpening,
    RawOr, RawOrTail, RawPositions, RawPrim, RawProduct, RawProductTail, RawRange, RawResult,
    RawRow, RawRowTail, RawRows, RawRule, RawSentence, RawStructure, RawSumTail, RawSymbol,
    RawTable, RawTerm, RawTermTree, RawTerms, RawTermsTail, RawTheory, RawTheoryItem, RawTo,
    RawType, RawUnary, RawValue, RawVar, RawVarTail, RawVarType, RawVars, RawVocabulary, Separator,
    Text,
};
pub use kb_text::{K, KbFault};
