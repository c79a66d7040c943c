//! The traits and the elements of all types.
ghost use Rattle.std.specs.Prelude.{◌≡◌, ◌++◌, ◌∷◌, ◌<◌, ℕ, List, [], get_or, false, length, map, slice_get, Some};
ghost use Rattle.std.specs.Prelude.{IfOk, OnOk};
ghost use Rattle.std.specs.List.{list_any};
ghost use Rattle.std.specs.Prelude.{if◌then◌else◌};
ghost use Rattle.kb_logic.specs.declared.vocabularies.TypeDecl.{TypeDecl as AType};
ghost use Rattle.stage_definitions.specs.Elements as set;
ghost use Rattle.stage_definitions.specs.DataEntries as said;
ghost use Rattle.stage_definitions.specs.DataDomains as domain;
ghost use Rattle.structure_entries.specs.EntryViews.{cell_view};
ghost use Rattle.structure_entries.specs.SaidViews.{said_view};
ghost use Rattle.data_domains.specs.Runs.{is_hollow};
ghost use Rattle.data_domains.specs.Sets.{runs_in, IsGathered, IsSetOf};
ghost use Rattle.data_domains.specs.Shares.{IsDeclaredSo, IsGiven, IsSettled, StandsFor, Takes};
ghost use Rattle.data_domains.specs.declared.traits.Traits.{Traits as TheTraits};
ghost use Rattle.data_domains.specs.declared.types.TypeData.{TypeData as Data};
ghost use Rattle.data_domains.specs.Traits.{AreTraitsOf};
ghost use Rattle.data_domains.specs.TypeSets.{AreTypesOf};

use crate::filling::{add_declared, add_entries};
use crate::kinds::is_natural_type;
use crate::sets::ElementSet;
use crate::traits::{Traits, listed_types};
use kb_logic::{Memory, TypeDecl};
use stage_definitions::{is_number_type, parent_of, type_above};
use std::alloc::Global;
use structure_entries::elements::Cell;
use structure_entries::written::Entry;

/// A type beside a structure: its traits, and its elements as cells and as a set.
///
/// A word stands once among the cells, however often it is written: the set that is made anyhow says at the first sight
/// of a word whether it is new, and neither the domain nor anything else looks at the others again.
#[derive(Drop)]
pub struct TypeData<'a> {
    pub traits: Traits,
    pub cells: Vec<Cell<'a>>,
    pub elements: ElementSet<'a>,
}

impl<'a> TypeData<'a> {
    /// A type without elements.
    fn new(alloc: Global, traits: Traits) -> TypeData<'a>
        ensures traits { result.traits ≡ traits }
        ensures stands { StandsFor [] result }
    {
        TypeData {
            traits,
            cells: Vec::new(alloc),
            elements: ElementSet::new(alloc),
        }
    }

    /// One more cell, which may be the word at this place of the set or the next one; the place of its word.
    pub fn add(&mut self, cell: Cell<'a>, near: usize) -> Result<usize, Memory>
        ensures { OnOk result (Takes self.old self.new (cell_view cell.entry ∷ [])) }
    {
        let (is_more, place) = self.elements.add(cell, near)?;
        if is_more {
            self.cells.push(cell)?;
        }
        Ok(place)
    }
}

fn traits_of(types: &[TypeDecl], ty: usize, decl: &TypeDecl, listed: bool) -> Traits
    ensures { (es : List said.Said) → listed ≡ domain.is_listed es ty → AreTraitsOf types.now es ty decl.now result }
{
    let constructed = !decl.made.is_empty();
    Traits {
        constructed,
        listed,
        occurs: !constructed && !listed && type_above(decl.parent).is_none(),
        number: is_number_type(types, ty),
        natural: is_natural_type(types, ty),
        above: parent_of(types, ty),
    }
}

/// A type with the elements that are declared with it.
fn declared<'a>(alloc: Global, traits: Traits, decl: &'a TypeDecl) -> Result<TypeData<'a>, Memory>
    ensures traits { IfOk result (λ x. x.traits ≡ traits) }
    ensures stands { IfOk result (StandsFor (if traits.constructed then domain.made_cells decl.now else [])) }
{
    let mut data = TypeData::new(alloc, traits);
    if traits.constructed {
        add_declared(decl, &mut data)?;
    }
    Ok(data)
}

fn flag_at(flags: &[bool], at: usize) -> bool
    ensures { result ≡ get_or flags.now at false }
{
    match flags.get(at) {
        Some(flag) => *flag,
        None => false,
    }
}

/// Each type with its traits, and with the elements that are declared with it.
fn declared_types<'a>(
    alloc: Global,
    types: &'a [TypeDecl],
    entries: &[Entry<'a>],
) -> Result<Vec<TypeData<'a>>, Memory>
    ensures count { IfOk result (λ xs. length xs.items ≡ length types.now) }
    ensures each { IfOk result (λ xs. (t : ℕ) (d : AType) (x : Data) → slice_get types.now t ≡ Some d
        → slice_get xs.items t ≡ Some x → IsDeclaredSo types.now (map said_view entries.now) t d x) }
{
    let listed = listed_types(alloc, types.len(), entries)?;
    let mut all = Vec::with_capacity(alloc, types.len())?;
    for ty in 0..types.len() {
        let decl = &types[ty];
        let traits = traits_of(types, ty, decl, flag_at(&listed, ty));
        all.push(declared(alloc, traits, decl)?)?;
    }
    Ok(all)
}

/// Settles a type's set, after all cells.
fn settle(alloc: Global, data: &mut TypeData<'_>) -> Result<(), Memory>
    requires { list_any is_hollow (runs_in data.old.elements) ≡ false }
    ensures traits { data.new.traits ≡ data.old.traits }
    ensures cells { data.new.cells ≡ data.old.cells }
    ensures elements { OnOk result ((cs : List set.Cell) → IsGathered cs data.old.elements
        → IsSetOf cs data.new.elements) }
{
    data.elements.settle(alloc)
}

/// Settles the set of each type.
fn settle_all(alloc: Global, all: &mut Vec<TypeData<'_>>) -> Result<(), Memory>
    requires { (t : ℕ) (x : Data) → slice_get all.old.items t ≡ Some x → list_any is_hollow (runs_in x.elements) ≡ false }
    ensures count { length all.new.items ≡ length all.old.items }
    ensures settled { OnOk result ((t : ℕ) (x : TheTraits) (cs : List set.Cell) → IsGiven all.old.items t x cs
        → IsSettled all.new.items t x cs) }
{
    for ty in 0..all.len() {
        let Some(data) = all.get_mut(ty) else {
            continue;
        };
        settle(alloc, data)?;
    }
    Ok(())
}

/// The traits and the elements of each type, in one pass over the entries.
pub fn types_of<'a>(
    alloc: Global,
    types: &'a [TypeDecl],
    entries: &[Entry<'a>],
) -> Result<Vec<TypeData<'a>>, Memory>
    ensures { IfOk result (λ xs. AreTypesOf types.now (map said_view entries.now) xs.items) }
{
    let mut all = declared_types(alloc, types, entries)?;
    add_entries(alloc, types, entries, &mut all)?;
    settle_all(alloc, &mut all)?;
    Ok(all)
}
