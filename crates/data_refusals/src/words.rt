//! Rows of words alone, of which nothing is refused where the types have what occurs.
//!
//! Such are most rows, and then nothing is looked up for what stands in them.
ghost use Rattle.std.specs.Prelude.{◌≡◌, List};
ghost use Rattle.std.specs.List.{list_all};
ghost use Rattle.grammar.specs.BlockView.{element_view, item_view};
ghost use Rattle.kb_logic.specs.declared.vocabularies.TypeDecl.{TypeDecl as AType};
ghost use Rattle.stage_definitions.specs.DataEntries as said;
ghost use Rattle.structure_entries.specs.EntryViews.{row_view, subject_view};
ghost use Rattle.data_domains.specs.TypeSets.{AreTypesOf};
ghost use Rattle.data_refusals.specs.Words.{are_open, has_words_alone, is_open, is_open_if, is_plain_word, is_word};

use data_domains::lookups::traits_at;
use data_domains::types::TypeData;
use grammar::{RawElement, RawItem};
use structure_entries::rows::Row;
use structure_entries::subjects::Subject;

fn is_word(raw: &RawElement) -> bool
    ensures { result ≡ is_word (said.element_of (element_view raw.now)) }
{
    match raw {
        RawElement::Name(_) => true,
        RawElement::Integer(_) => false,
        RawElement::Negative(_, _) => false,
    }
}

/// Whether the item is a word, and no range.
fn is_plain_word(raw: &RawItem) -> bool
    ensures { result ≡ is_plain_word (item_view raw.now) }
{
    match &raw.to {
        None => is_word(&raw.first),
        Some(_) => false,
    }
}

fn has_plain_words(row: &Row<'_>) -> bool
    ensures { result ≡ list_all is_plain_word (row_view row.now).items }
{
    let mut rest = row.items;
    while let Some((item, after)) = rest.split_first() {
        if !is_plain_word(item) {
            return false;
        }
        rest = after;
    }
    true
}

/// Whether each argument of the row is a word, and its value, if it has one.
pub fn has_words_alone(row: &Row<'_>) -> bool
    ensures { result ≡ has_words_alone (row_view row.now) }
{
    match row.value {
        None => has_plain_words(row),
        Some(raw) => is_word(raw) && has_plain_words(row),
    }
}

/// Whether the type has the elements that occur, of any kind.
fn is_open(types: &[TypeData<'_>], ty: usize) -> bool
    ensures { (all : List AType) (es : List said.Said) → AreTypesOf all es types.now → result ≡ is_open all es ty }
{
    let traits = traits_at(types, ty);
    traits.occurs && (!traits.number && !traits.natural)
}

fn all_open(types: &[TypeData<'_>], args: &[u32]) -> bool
    ensures { (all : List AType) (es : List said.Said) → AreTypesOf all es types.now
        → result ≡ list_all (is_open all es) args.now }
{
    for ty in args {
        if !is_open(types, *ty as usize) {
            return false;
        }
    }
    true
}

fn is_open_if(types: &[TypeData<'_>], ty: Option<u32>) -> bool
    ensures { (all : List AType) (es : List said.Said) → AreTypesOf all es types.now
        → result ≡ is_open_if all es ty }
{
    match ty {
        None => true,
        Some(ty) => is_open(types, ty as usize),
    }
}

/// Whether the types of the positions of an entry have the elements that occur, of any kind; not in a type's own list.
pub fn are_open(types: &[TypeData<'_>], subject: Subject<'_>) -> bool
    ensures { (all : List AType) (es : List said.Said) → AreTypesOf all es types.now
        → result ≡ are_open all es (subject_view subject.entry) }
{
    match subject {
        Subject::Nothing => true,
        Subject::OfElement => true,
        Subject::OfType(_, _) => false,
        Subject::OfSymbol(_, symbol) => {
            all_open(types, symbol.args.as_slice()) && is_open_if(types, symbol.value)
        }
    }
}
