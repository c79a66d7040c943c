//! What queries find.
use atom_numbers::FoundStructure;
use kb_logic::{ExtInt, ListOf, LiteralList};

/// Structures in an order.
pub type StructureList = ListOf<FoundStructure>;

/// Models under some choices.
#[derive(Drop)]
pub struct Models {
    /// At least one, each once.
    pub list: StructureList,
    /// Whether there is no other.
    pub all: bool,
}

/// Why a literal is true in all models under some choices, if it is.
#[derive(Drop)]
pub enum Reason {
    /// It is false in one of them.
    Free,
    /// There is none.
    Inconsistent,
    /// These choices alone make it true, and none of them can be spared. They stand in their order.
    By(LiteralList),
}

/// The least value of a term in all models under some choices.
#[derive(Drop)]
pub struct Least {
    pub value: ExtInt,
    /// A model in which the term has it.
    pub model: FoundStructure,
}
