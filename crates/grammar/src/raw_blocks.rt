//! The raw trees of the blocks of a file, with the place of each token.
use crate::item_tails::ItemTails;
use crate::raw::{RawApp, RawFormula, RawInteger, RawName, RawTermTree, RawVars};
use sqlite_items::{Boxed, Items};

/// The blocks of a file by kind, each kind in order; procedures are left out.
#[derive(Drop)]
pub struct RawKb {
    pub vocabularies: Items<RawVocabulary>,
    pub theories: Items<RawTheory>,
    pub structures: Items<RawStructure>,
    pub terms: Items<RawTerm>,
    /// The length of the text.
    pub end: usize,
}

/// `vocabulary W { .. }`
#[derive(Drop)]
pub struct RawVocabulary {
    pub place: usize,
    pub name: RawName,
    pub open: usize,
    pub declarations: Items<RawDeclaration>,
    pub close: usize,
}

/// What a vocabulary declares.
#[derive(Drop)]
pub enum RawDeclaration {
    Type(RawType),
    Constructed(RawConstructed),
    Symbol(RawSymbol),
}

/// `type W`, or `type W isa W`
#[derive(Drop)]
pub struct RawType {
    pub place: usize,
    pub name: RawName,
    pub isa: Option<RawIsa>,
}

/// `isa` and the type after it.
#[derive(Drop)]
pub struct RawIsa {
    pub place: usize,
    pub name: RawName,
}

/// `type W constructed from { .. }`
#[derive(Drop)]
pub struct RawConstructed {
    pub place: usize,
    pub name: RawName,
    /// The places of `constructed`, of `from` and of the brace.
    pub constructed: usize,
    pub from: usize,
    pub open: usize,
    pub first: RawName,
    pub more: Items<RawElementTail>,
    pub close: usize,
}

/// A further name of a constructed type, with the sign before it.
#[derive(Drop)]
pub struct RawElementTail {
    pub sign: Separator,
    pub place: usize,
    pub name: RawName,
}

/// What stands between the names of a constructed type.
#[derive(Clone, Copy)]
pub enum Separator {
    Comma,
    Semicolon,
}

/// A predicate, or a function with its result.
#[derive(Drop)]
pub struct RawSymbol {
    pub name: RawName,
    pub arguments: Option<RawPositions>,
    pub result: Option<RawResult>,
}

/// The types of a symbol's arguments, in brackets.
#[derive(Drop)]
pub struct RawPositions {
    pub open: usize,
    pub names: Option<RawNames>,
    pub close: usize,
}

/// Names between commas.
#[derive(Drop)]
pub struct RawNames {
    pub first: RawName,
    pub more: Items<RawNameTail>,
}

/// A comma and the name after it.
#[derive(Drop)]
pub struct RawNameTail {
    pub place: usize,
    pub name: RawName,
}

/// A colon and the type after it.
#[derive(Drop)]
pub struct RawResult {
    pub place: usize,
    pub name: RawName,
}

/// How a theory, a structure or a term begins: its word, its name, `:`, the vocabulary's name and `{`.
#[derive(Drop)]
pub struct RawHeader {
    pub place: usize,
    pub name: RawName,
    pub colon: usize,
    pub of: RawName,
    pub open: usize,
}

/// `theory W : W { .. }`
#[derive(Drop)]
pub struct RawTheory {
    pub header: RawHeader,
    pub items: Items<RawTheoryItem>,
    pub close: usize,
}

#[derive(Drop)]
pub enum RawTheoryItem {
    Sentence(RawSentence),
    Definition(RawDefinition),
}

/// A formula and its `.`
#[derive(Drop)]
pub struct RawSentence {
    pub formula: RawFormula,
    pub dot: usize,
}

/// Rules in braces.
#[derive(Drop)]
pub struct RawDefinition {
    pub open: usize,
    pub rules: Items<RawRule>,
    pub close: usize,
}

/// A rule and its `.`
#[derive(Drop)]
pub struct RawRule {
    pub binders: Items<RawBinder>,
    pub head: RawHead,
    pub body: Option<RawBody>,
    pub dot: usize,
}

/// `! vars :`
#[derive(Drop)]
pub struct RawBinder {
    pub place: usize,
    pub vars: Boxed<RawVars>,
    pub colon: usize,
}

/// An atom, or an application and its value after `=`, whose place stands between them.
#[derive(Drop)]
pub enum RawHead {
    Atom(RawApp),
    Value(RawApp, usize, RawTermTree),
}

/// `<-` and what follows it.
#[derive(Drop)]
pub struct RawBody {
    pub place: usize,
    pub formula: Option<RawFormula>,
}

/// `term W : W { .. }`, with the `.` after the term, if there is one.
#[derive(Drop)]
pub struct RawTerm {
    pub header: RawHeader,
    pub term: RawTermTree,
    pub dot: Option<usize>,
    pub close: usize,
}

/// `structure W : W { .. }`
#[derive(Drop)]
pub struct RawStructure {
    pub header: RawHeader,
    pub entries: Items<RawEntry>,
    pub close: usize,
}

/// What a structure says of one name.
#[derive(Drop)]
pub struct RawEntry {
    pub name: RawName,
    pub mark: Option<RawMark>,
    /// The place of `=`, or of the `>=` that closes the mark too.
    pub equal: usize,
    pub value: RawValue,
}

/// `< W >`, without the place of `>` where `>=` stands for it and the `=` after it.
#[derive(Drop)]
pub struct RawMark {
    pub open: usize,
    pub name: RawName,
    pub close: Option<usize>,
}

#[derive(Drop)]
pub enum RawValue {
    Truth(bool, usize),
    Element(RawElement),
    Table(RawTable),
}

/// Rows in braces.
#[derive(Drop)]
pub struct RawTable {
    pub open: usize,
    pub rows: Option<RawRows>,
    pub close: usize,
}

/// Rows between semicolons, and the place of the semicolon after the last one, if there is one.
#[derive(Drop)]
pub struct RawRows {
    pub first: RawRow,
    pub more: Items<RawRowTail>,
    pub last: Option<usize>,
}

/// A semicolon and the row after it.
#[derive(Drop)]
pub struct RawRowTail {
    pub place: usize,
    pub row: RawRow,
}

#[derive(Drop)]
pub enum RawRow {
    Plain(RawItems, Option<Boxed<RawTo>>),
    /// With the places of the brackets.
    Bracketed(usize, RawItems, usize, Option<Boxed<RawTo>>),
    Only(RawTo),
}

/// `->` and the element after it.
#[derive(Drop)]
pub struct RawTo {
    pub place: usize,
    pub element: RawElement,
}

/// Items between commas.
#[derive(Drop)]
pub struct RawItems {
    pub first: RawItem,
    pub more: ItemTails,
}

/// A comma and the item after it.
#[derive(Drop)]
pub struct RawItemTail {
    pub place: usize,
    pub item: RawItem,
}

/// An element, or a range that begins with it.
#[derive(Drop)]
pub struct RawItem {
    pub first: RawElement,
    pub to: Option<Boxed<RawRange>>,
}

/// `..` and the element after it.
#[derive(Drop)]
pub struct RawRange {
    pub place: usize,
    pub last: RawElement,
}

#[derive(Drop)]
pub enum RawElement {
    Name(RawName),
    Integer(RawInteger),
    /// With the place of the `-` before it.
    Negative(usize, RawInteger),
}
