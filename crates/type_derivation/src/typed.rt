//! A knowledge base whose variables have their types.
ghost use Rattle.stage_definitions.specs.Below.{HasNoCycle, type_parents};

use kb_logic::{Name, Term, Theory, Vocabulary};
use sqlite_items::Items;

/// Something that a file names.
#[derive(Drop)]
pub struct Named<T> {
    pub name: Name,
    pub value: T,
}

/// The places that later refusals name: of the types' and the symbols' names, of each theory's first word, and of the
/// terms of each theory and of each term block. Terms stand in the order of the tree, a term before its parts.
#[derive(Drop)]
pub struct Places {
    pub types: Items<usize>,
    pub symbols: Items<usize>,
    pub theories: Items<usize>,
    pub theory_terms: Items<Items<usize>>,
    pub block_terms: Items<Items<usize>>,
}

/// A vocabulary, the theories and the term blocks of a file. No type of it comes back to itself by `isa`.
#[derive(Drop)]
pub struct TypedKb {
    pub vocab: Vocabulary,
    pub theories: Items<Named<Theory>>,
    pub terms: Items<Named<Term>>,
    pub places: Places,
    ghost acyclic: { HasNoCycle (type_parents vocab.types) },
}
