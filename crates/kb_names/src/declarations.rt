//! The names that a vocabulary declares.
ghost use Rattle.std.specs.Prelude.{◌≡◌, ◌∷◌, [], ◌≤◌, ◌+◌, ◌<◌, ◌^◌, fold, map, OnOk, IfOk, length};
ghost use Rattle.std.specs.Option.{option_map};
ghost use Rattle.stage_definitions.specs.FileView.{declaration_in, element_name, argument_names, result_name};
ghost use Rattle.stage_definitions.specs.Names.{Names, declared, declared_names, made_names, names_of, number_types};
ghost use Rattle.stage_definitions.specs.Names.{with_names, symbol_meaning};
ghost use Rattle.stage_definitions.specs.NamesStage.{name_noted};
ghost use Rattle.stage_definitions.specs.Uses.{declares, declared_uses};
ghost use Rattle.grammar.specs.View.{name_view};
ghost use Rattle.formula_names.specs.Meanings.{meaning_view, names_in};
ghost use Rattle.formula_names.specs.Tails.{type_count, symbol_count};

use formula_names::tables::{Meaning, Table, declare, is_declared};
use grammar::{RawDeclaration, RawElementTail, RawName, RawPositions, RawSymbol};
use indexmap::IndexMap;
use kb_logic::Memory;
use kb_text::K;
use stage_definitions::Earliest;
use std::alloc::Global;

/// One more name. A name that is declared already is refused.
fn declare_name<'a>(
    table: &mut Table<'a>,
    word: &'a RawName,
    meaning: Meaning,
    earliest: &mut Earliest,
) -> Result<(), Memory>
    ensures names { OnOk result (names_in table.new ≡ declared (names_in table.old) word.now.text
        (meaning_view meaning)) }
    ensures noted { OnOk result ((names : Names) → earliest.new.first ≡ name_noted names earliest.old.first
        (declares (names_in table.old) (name_view word.now))) }
{
    let text = word.text.as_slice();
    earliest.note_if(is_declared(table, text), K::Redeclared, word.place);
    declare(table, text, meaning)
}

/// The further names of a constructed type's elements.
fn declare_more<'a>(
    table: &mut Table<'a>,
    ty: usize,
    more: &'a [RawElementTail],
    earliest: &mut Earliest,
) -> Result<(), Memory>
    ensures names { OnOk result (names_in table.new ≡ with_names (names_in table.old)
        (made_names ty 1 (map element_name more.now))) }
    ensures noted { OnOk result ((names : Names) → earliest.new.first ≡ fold (name_noted names) earliest.old.first
        (declared_uses (names_in table.old) (made_names ty 1 (map element_name more.now)))) }
{
    for (i, tail) in more.iter().enumerate() {
        declare_name(table, &tail.name, Meaning::Made(ty, i + 1), earliest)?;
    }
    Ok(())
}

/// How many arguments a symbol takes.
pub fn argument_count(arguments: &Option<RawPositions>) -> usize
    ensures { result ≡ length (argument_names arguments.now) }
{
    match arguments {
        Some(positions) => match &positions.names {
            Some(names) => names.more.as_slice().len() + 1,
            None => 0,
        },
        None => 0,
    }
}

fn meaning_of_symbol(raw: &RawSymbol, number: usize) -> Meaning
    ensures { meaning_view result ≡ symbol_meaning number (length (argument_names raw.now.arguments))
        (option_map result_name raw.now.result) }
{
    let count = argument_count(&raw.arguments);
    match &raw.result {
        Some(_) => Meaning::Function(number, count),
        None => Meaning::Predicate(number, count),
    }
}

/// The names of one declaration, where so many types and symbols stand before.
fn declare_one<'a>(
    table: &mut Table<'a>,
    raw: &'a RawDeclaration,
    types: usize,
    symbols: usize,
    earliest: &mut Earliest,
) -> Result<(), Memory>
    ensures names { OnOk result (names_in table.new ≡ with_names (names_in table.old)
        (declared_names types symbols (declaration_in raw.now ∷ []))) }
    ensures noted { OnOk result ((names : Names) → earliest.new.first ≡ fold (name_noted names) earliest.old.first
        (declared_uses (names_in table.old) (declared_names types symbols (declaration_in raw.now ∷ [])))) }
{
    match raw {
        RawDeclaration::Type(raw) => {
            declare_name(table, &raw.name, Meaning::TypeName(types), earliest)
        }
        RawDeclaration::Constructed(raw) => {
            declare_name(table, &raw.name, Meaning::TypeName(types), earliest)?;
            declare_name(table, &raw.first, Meaning::Made(types, 0), earliest)?;
            declare_more(table, types, raw.more.as_slice(), earliest)
        }
        RawDeclaration::Symbol(raw) => {
            declare_name(table, &raw.name, meaning_of_symbol(raw, symbols), earliest)
        }
    }
}

fn type_count_of(raw: &RawDeclaration) -> usize
    ensures count { result ≡ type_count (declaration_in raw.now) }
    ensures small { result ≤ 1 }
{
    match raw {
        RawDeclaration::Type(_) => 1,
        RawDeclaration::Constructed(_) => 1,
        RawDeclaration::Symbol(_) => 0,
    }
}

fn symbol_count_of(raw: &RawDeclaration) -> usize
    ensures count { result ≡ symbol_count (declaration_in raw.now) }
    ensures small { result ≤ 1 }
{
    match raw {
        RawDeclaration::Type(_) => 0,
        RawDeclaration::Constructed(_) => 0,
        RawDeclaration::Symbol(_) => 1,
    }
}

/// The names of some declarations, with `int` and `nat`.
pub fn declared_table<'a>(
    alloc: Global,
    declarations: &'a [RawDeclaration],
    earliest: &mut Earliest,
) -> Result<Table<'a>, Memory>
    ensures names { IfOk result (λ t. names_in t ≡ names_of (map declaration_in declarations.now)) }
    ensures noted { OnOk result ((names : Names) → earliest.new.first ≡ fold (name_noted names) earliest.old.first
        (declared_uses number_types (declared_names 0 0 (map declaration_in declarations.now)))) }
{
    let mut table = Table {
        meanings: IndexMap::new(alloc),
    };
    declare(&mut table, b"int", Meaning::Integers)?;
    declare(&mut table, b"nat", Meaning::Naturals)?;
    let mut types = 0;
    let mut symbols = 0;
    for raw in declarations {
        declare_one(&mut table, raw, types, symbols, earliest)?;
        types += type_count_of(raw);
        symbols += symbol_count_of(raw);
    }
    Ok(table)
}
