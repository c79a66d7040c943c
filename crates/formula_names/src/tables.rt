//! What words are declared as.
ghost use Rattle.std.specs.Prelude.{◌≡◌, OnOk, is_some};
ghost use Rattle.stage_definitions.specs.Names.{meaning_in, meaning_of, declared};
ghost use Rattle.formula_names.specs.Meanings.{meaning_view, names_in};

use indexmap::IndexMap;
use kb_logic::Memory;

/// What a word is declared as: a type, a predicate or function with how many arguments it takes, or an element's
/// name with its type and its place there, each by its number; or it is a bound variable.
#[derive(Clone, Copy)]
pub enum Meaning {
    Undeclared,
    Integers,
    Naturals,
    TypeName(usize),
    Predicate(usize, usize),
    Function(usize, usize),
    Made(usize, usize),
    Variable(u32),
}

/// The names that are declared.
#[derive(Drop)]
pub struct Table<'a> {
    pub meanings: IndexMap<&'a [u8], Meaning>,
}

pub fn is_declared<'a>(table: &Table<'a>, word: &'a [u8]) -> bool
    ensures { result ≡ is_some (meaning_in (names_in table.now) word.now) }
{
    table.meanings.contains_key(word)
}

pub fn declared_meaning<'a>(table: &Table<'a>, word: &'a [u8]) -> Meaning
    ensures { meaning_view result ≡ meaning_of (names_in table.now) word.now }
{
    match table.meanings.get(word) {
        Some(meaning) => *meaning,
        None => Meaning::Undeclared,
    }
}

/// A name that is declared already keeps its meaning.
pub fn declare<'a>(table: &mut Table<'a>, word: &'a [u8], meaning: Meaning) -> Result<(), Memory>
    ensures { OnOk result (names_in table.new ≡ declared (names_in table.old) word.now (meaning_view meaning)) }
{
    if !is_declared(table, word) {
        table.meanings.insert(word, meaning)?;
    }
    Ok(())
}
