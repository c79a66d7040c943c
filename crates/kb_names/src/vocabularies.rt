//! The types and symbols of a vocabulary, with numbers for the words of their declarations.
ghost use Rattle.std.specs.Prelude.{◌≡◌, ◌∷◌, [], ◌++◌, ◌+◌, fold, map, OnOk, IfOk, length};
ghost use Rattle.std.specs.Option.{option_map};
ghost use Rattle.stage_definitions.specs.FileView.{argument_names, declaration_in, element_name, isa_name, result_name};
ghost use Rattle.stage_definitions.specs.Files as file;
ghost use Rattle.stage_definitions.specs.Names.{Names, text_of};
ghost use Rattle.stage_definitions.specs.NamesStage.{name_noted};
ghost use Rattle.stage_definitions.specs.Numbering as number;
ghost use Rattle.stage_definitions.specs.Uses as use_of;
ghost use Rattle.grammar.specs.View.{name_view};
ghost use Rattle.formula_names.specs.Meanings.{meaning_view, names_in};

use crate::declarations::argument_count;
use formula_names::positions::{positions, value_position};
use formula_names::tables::{Meaning, Table};
use formula_names::uses::{parent, within_count};
use grammar::{
    RawConstructed, RawDeclaration, RawElementTail, RawIsa, RawName, RawSymbol, RawType,
};
use kb_logic::{Memory, Name, NameList, Parent, Symbol, SymbolList, TypeDecl, TypeList};
use kb_text::K;
use stage_definitions::Earliest;
use std::alloc::Global;

/// The types and symbols of some declarations.
#[derive(Drop)]
pub struct Declared {
    pub types: TypeList,
    pub symbols: SymbolList,
}

/// Notes a declaration that has more parts than it may have.
fn note_count(greatest: usize, count: usize, word: &RawName, earliest: &mut Earliest)
    ensures { (names : Names) → earliest.new.first ≡ name_noted names earliest.old.first
        (use_of.counted greatest count (name_view word.now)) }
{
    earliest.note_if(count > greatest, K::TooLarge, word.place);
}

/// Notes a declaration that follows as many others as there may be.
fn note_next(greatest: usize, before: usize, word: &RawName, earliest: &mut Earliest)
    ensures { (names : Names) → earliest.new.first ≡ name_noted names earliest.old.first
        (use_of.counted greatest (before + 1) (name_view word.now)) }
{
    earliest.note_if(before >= greatest, K::TooLarge, word.place);
}

fn parent_of(meaning: Meaning) -> Parent
    ensures { result ≡ number.parent_of (meaning_view meaning) }
{
    match meaning {
        Meaning::Integers => Parent::Int,
        Meaning::Naturals => Parent::Nat,
        Meaning::TypeName(ty) => Parent::Of(within_count(256, ty)),
        Meaning::Undeclared => Parent::Root,
        Meaning::Predicate(_, _) => Parent::Root,
        Meaning::Function(_, _) => Parent::Root,
        Meaning::Made(_, _) => Parent::Root,
        Meaning::Variable(_) => Parent::Root,
    }
}

/// What a type is declared to be under.
fn parent_named<'a>(table: &Table<'a>, isa: &'a Option<RawIsa>, earliest: &mut Earliest) -> Parent
    ensures parent { result ≡ number.parent_named (names_in table.now) (option_map isa_name isa.now) }
    ensures noted { earliest.new.first ≡ fold (name_noted (names_in table.now)) earliest.old.first
        (use_of.parent_uses (option_map isa_name isa.now)) }
{
    match isa {
        Some(raw) => parent_of(parent(table, &raw.name, earliest)),
        None => Parent::Root,
    }
}

/// `type W`, or `type W isa W`.
fn plain_type<'a>(
    alloc: Global,
    table: &Table<'a>,
    raw: &'a RawType,
    types: &mut TypeList,
    earliest: &mut Earliest,
) -> Result<(), Memory>
    ensures types { OnOk result (types.new ≡ types.old ++ number.types_in (names_in table.now)
        (file.type_under (name_view raw.now.name) (option_map isa_name raw.now.isa) ∷ [])) }
    ensures noted { OnOk result (earliest.new.first ≡ fold (name_noted (names_in table.now)) earliest.old.first
        (use_of.counted 256 (length types.old + 1) (name_view raw.now.name) ∷ use_of.parent_uses
        (option_map isa_name raw.now.isa))) }
{
    note_next(256, types.len(), &raw.name, earliest);
    let parent = parent_named(table, &raw.isa, earliest);
    let name = Name::new(alloc, raw.name.text.as_slice())?;
    let made = NameList::new(alloc);
    types.push(TypeDecl { name, parent, made })
}

fn add_names(alloc: Global, more: &[RawElementTail], names: &mut NameList) -> Result<(), Memory>
    ensures { OnOk result (names.new ≡ names.old ++ map text_of (map element_name more.now)) }
{
    for tail in more {
        names.push(Name::new(alloc, tail.name.text.as_slice())?)?;
    }
    Ok(())
}

/// The names of a constructed type's elements.
fn made_names(alloc: Global, raw: &RawConstructed) -> Result<NameList, Memory>
    ensures { IfOk result (λ ns. ns ≡ map text_of (name_view raw.now.first ∷ map element_name raw.now.more)) }
{
    let mut names = NameList::new(alloc);
    names.push(Name::new(alloc, raw.first.text.as_slice())?)?;
    add_names(alloc, raw.more.as_slice(), &mut names)?;
    Ok(names)
}

/// `type W constructed from { .. }`
fn constructed_type(
    alloc: Global,
    raw: &RawConstructed,
    types: &mut TypeList,
    earliest: &mut Earliest,
) -> Result<(), Memory>
    ensures types { OnOk result ((names : Names) → types.new ≡ types.old ++ number.types_in names
        (file.constructed_type (name_view raw.now.name) (name_view raw.now.first ∷ map element_name raw.now.more) ∷
        [])) }
    ensures noted { OnOk result ((names : Names) → earliest.new.first ≡ fold (name_noted names) earliest.old.first
        (use_of.counted 256 (length types.old + 1) (name_view raw.now.name) ∷ use_of.counted 65536
        (length (name_view raw.now.first ∷ map element_name raw.now.more)) (name_view raw.now.name) ∷ [])) }
{
    note_next(256, types.len(), &raw.name, earliest);
    note_next(65536, raw.more.as_slice().len(), &raw.name, earliest);
    let made = made_names(alloc, raw)?;
    let name = Name::new(alloc, raw.name.text.as_slice())?;
    types.push(TypeDecl {
        name,
        parent: Parent::Root,
        made,
    })
}

/// A predicate or a function.
fn symbol<'a>(
    alloc: Global,
    table: &Table<'a>,
    raw: &'a RawSymbol,
    symbols: &mut SymbolList,
    earliest: &mut Earliest,
) -> Result<(), Memory>
    ensures symbols { OnOk result (symbols.new ≡ symbols.old ++ number.symbols_in (names_in table.now)
        (file.symbol (name_view raw.now.name) (argument_names raw.now.arguments)
        (option_map result_name raw.now.result) ∷ [])) }
    ensures noted { OnOk result (earliest.new.first ≡ fold (name_noted (names_in table.now)) earliest.old.first
        (use_of.counted 1024 (length symbols.old + 1) (name_view raw.now.name) ∷ use_of.counted 8
        (length (argument_names raw.now.arguments)) (name_view raw.now.name) ∷
        (map use_of.position (argument_names raw.now.arguments) ++ use_of.position_uses
        (option_map result_name raw.now.result)))) }
{
    note_next(1024, symbols.len(), &raw.name, earliest);
    note_count(8, argument_count(&raw.arguments), &raw.name, earliest);
    let args = positions(alloc, table, &raw.arguments, earliest)?;
    let value = value_position(table, &raw.result, earliest);
    let name = Name::new(alloc, raw.name.text.as_slice())?;
    symbols.push(Symbol { name, args, value })
}

/// One declaration more.
fn add_declaration<'a>(
    alloc: Global,
    table: &Table<'a>,
    raw: &'a RawDeclaration,
    declared: &mut Declared,
    earliest: &mut Earliest,
) -> Result<(), Memory>
    ensures types { OnOk result (declared.new.types ≡ declared.old.types ++ number.types_in (names_in table.now)
        (declaration_in raw.now ∷ [])) }
    ensures symbols { OnOk result (declared.new.symbols ≡ declared.old.symbols ++ number.symbols_in (names_in table.now)
        (declaration_in raw.now ∷ [])) }
    ensures noted { OnOk result (earliest.new.first ≡ fold (name_noted (names_in table.now)) earliest.old.first
        (use_of.uses_in_declarations (length declared.old.types) (length declared.old.symbols)
        (declaration_in raw.now ∷ []))) }
{
    match raw {
        RawDeclaration::Type(raw) => plain_type(alloc, table, raw, &mut declared.types, earliest),
        RawDeclaration::Constructed(raw) => {
            constructed_type(alloc, raw, &mut declared.types, earliest)
        }
        RawDeclaration::Symbol(raw) => symbol(alloc, table, raw, &mut declared.symbols, earliest),
    }
}

/// The types and symbols of the declarations.
pub fn types_and_symbols<'a>(
    alloc: Global,
    table: &Table<'a>,
    declarations: &'a [RawDeclaration],
    earliest: &mut Earliest,
) -> Result<Declared, Memory>
    ensures types { IfOk result (λ d. d.types ≡ number.types_in (names_in table.now)
        (map declaration_in declarations.now)) }
    ensures symbols { IfOk result (λ d. d.symbols ≡ number.symbols_in (names_in table.now)
        (map declaration_in declarations.now)) }
    ensures noted { OnOk result (earliest.new.first ≡ fold (name_noted (names_in table.now)) earliest.old.first
        (use_of.uses_in_declarations 0 0 (map declaration_in declarations.now))) }
{
    let mut declared = Declared {
        types: TypeList::new(alloc),
        symbols: SymbolList::new(alloc),
    };
    for raw in declarations {
        add_declaration(alloc, table, raw, &mut declared, earliest)?;
    }
    Ok(declared)
}
