//! Where types and symbols are declared, and which types stand under which.
ghost use Rattle.std.specs.Prelude.{◌≡◌, ◌∷◌, [], ◌++◌, map, OnOk, IfOk};
ghost use Rattle.std.specs.Option.{option_map};
ghost use Rattle.stage_definitions.specs.FileView.{declaration_in, isa_name};
ghost use Rattle.stage_definitions.specs.Numbering as number;
ghost use Rattle.stage_definitions.specs.Uses as use_of;
ghost use Rattle.formula_names.specs.Meanings.{meaning_view, names_in};

use formula_names::tables::{Meaning, Table, declared_meaning};
use grammar::{RawDeclaration, RawIsa};
use kb_logic::Memory;
use sqlite_items::Items;
use std::alloc::Global;

fn type_in(meaning: Meaning) -> Option<usize>
    ensures { result ≡ use_of.type_in (meaning_view meaning) }
{
    match meaning {
        Meaning::TypeName(ty) => Some(ty),
        Meaning::Undeclared => None,
        Meaning::Integers => None,
        Meaning::Naturals => None,
        Meaning::Predicate(_, _) => None,
        Meaning::Function(_, _) => None,
        Meaning::Made(_, _) => None,
        Meaning::Variable(_) => None,
    }
}

/// The type after `isa`, where it is one of the vocabulary.
fn parent_type<'a>(table: &Table<'a>, isa: &'a Option<RawIsa>) -> Option<usize>
    ensures { result ≡ use_of.parent_type (names_in table.now) (option_map isa_name isa.now) }
{
    match isa {
        Some(raw) => type_in(declared_meaning(table, raw.name.text.as_slice())),
        None => None,
    }
}

fn add_parent<'a>(
    table: &Table<'a>,
    raw: &'a RawDeclaration,
    parents: &mut Items<Option<usize>>,
) -> Result<(), Memory>
    ensures { OnOk result (parents.new ≡ parents.old ++ use_of.parents_in (names_in table.now)
        (declaration_in raw.now ∷ [])) }
{
    match raw {
        RawDeclaration::Type(raw) => Ok(parents.push(parent_type(table, &raw.isa))?),
        RawDeclaration::Constructed(_) => Ok(parents.push(None)?),
        RawDeclaration::Symbol(_) => Ok(()),
    }
}

/// The number of each type's parent, where that is another type of the vocabulary.
pub fn parents_in<'a>(
    alloc: Global,
    table: &Table<'a>,
    declarations: &'a [RawDeclaration],
) -> Result<Items<Option<usize>>, Memory>
    ensures { IfOk result (λ ps. ps ≡ use_of.parents_in (names_in table.now) (map declaration_in declarations.now)) }
{
    let mut parents = Items::new(alloc);
    for raw in declarations {
        add_parent(table, raw, &mut parents)?;
    }
    Ok(parents)
}

fn add_type_place(raw: &RawDeclaration, places: &mut Items<usize>) -> Result<(), Memory>
    ensures { OnOk result (places.new ≡ places.old ++ number.type_places (declaration_in raw.now ∷ [])) }
{
    match raw {
        RawDeclaration::Type(raw) => Ok(places.push(raw.name.place)?),
        RawDeclaration::Constructed(raw) => Ok(places.push(raw.name.place)?),
        RawDeclaration::Symbol(_) => Ok(()),
    }
}

/// The places of the types' names.
pub fn type_places(alloc: Global, declarations: &[RawDeclaration]) -> Result<Items<usize>, Memory>
    ensures { IfOk result (λ ps. ps ≡ number.type_places (map declaration_in declarations.now)) }
{
    let mut places = Items::new(alloc);
    for raw in declarations {
        add_type_place(raw, &mut places)?;
    }
    Ok(places)
}

fn add_symbol_place(raw: &RawDeclaration, places: &mut Items<usize>) -> Result<(), Memory>
    ensures { OnOk result (places.new ≡ places.old ++ number.symbol_places (declaration_in raw.now ∷ [])) }
{
    match raw {
        RawDeclaration::Type(_) => Ok(()),
        RawDeclaration::Constructed(_) => Ok(()),
        RawDeclaration::Symbol(raw) => Ok(places.push(raw.name.place)?),
    }
}

/// The places of the symbols' names.
pub fn symbol_places(alloc: Global, declarations: &[RawDeclaration]) -> Result<Items<usize>, Memory>
    ensures { IfOk result (λ ps. ps ≡ number.symbol_places (map declaration_in declarations.now)) }
{
    let mut places = Items::new(alloc);
    for raw in declarations {
        add_symbol_place(raw, &mut places)?;
    }
    Ok(places)
}
