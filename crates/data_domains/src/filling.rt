//! The cells of all types, in one pass over the entries.
ghost use Rattle.std.specs.Prelude.{◌≡◌, ◌++◌, ◌∷◌, [], ℕ, List, flat_map, get_or, length, map, OnOk};
ghost use Rattle.stage_definitions.specs.Elements as set;
ghost use Rattle.stage_definitions.specs.DataEntries as said;
ghost use Rattle.stage_definitions.specs.DataDomains as domain;
ghost use Rattle.std.specs.List.{filter_map};
ghost use Rattle.structure_entries.specs.EntryViews.{spot_view};
ghost use Rattle.structure_entries.specs.SaidViews.{said_view};
ghost use Rattle.data_domains.specs.Shares.{listed_share, occurring_share, share, IsGiven, Takes};
ghost use Rattle.data_domains.specs.declared.traits.Traits.{Traits as TheTraits};

use crate::traits::list_type;
use crate::types::TypeData;
use kb_logic::{Memory, TypeDecl};
use stage_definitions::parent_of;
use std::alloc::Global;
use structure_entries::elements::{Cell, Element};
use structure_entries::spots::{Spot, set_spots};
use structure_entries::written::Entry;

/// The type at a position of which something is written: the list of a type is a table of its parent.
fn position_of(types: &[TypeDecl], spot: &Spot<'_>) -> Option<usize>
    ensures { (t : ℕ) → domain.is_this t result ≡ domain.occurs_at types.now t (spot_view spot.now) }
{
    if spot.in_list {
        parent_of(types, spot.ty)
    } else {
        Some(spot.ty)
    }
}

/// A constructed type's elements.
pub fn add_declared<'a>(decl: &'a TypeDecl, data: &mut TypeData<'a>) -> Result<(), Memory>
    ensures { OnOk result (Takes data.old data.new (domain.made_cells decl.now)) }
{
    for name in decl.made.as_slice() {
        data.add(Cell::One(Element::Word(name.text())), 0)?;
    }
    Ok(())
}

/// What is written in a row, for a type.
fn add_written<'a>(spots: &[Spot<'a>], data: &mut TypeData<'a>) -> Result<(), Memory>
    ensures { OnOk result (Takes data.old data.new (filter_map (λ s. s.cell) (map spot_view spots.now))) }
{
    for spot in spots {
        if let Some(cell) = spot.cell() {
            data.add(cell, 0)?;
        }
    }
    Ok(())
}

/// What stands in an entry, for a type.
fn add_whole<'a>(alloc: Global, entry: &Entry<'a>, data: &mut TypeData<'a>) -> Result<(), Memory>
    ensures { OnOk result (Takes data.old data.new (domain.cells_given (said_view entry.now))) }
{
    let mut spots = Vec::new(alloc);
    for row in &entry.rows {
        set_spots(entry.subject, row, &mut spots)?;
        add_written(&spots, data)?;
    }
    Ok(())
}

/// What stands in an entry that is a list, for its type.
fn add_list<'a>(alloc: Global, entry: &Entry<'a>, all: &mut Vec<TypeData<'a>>) -> Result<(), Memory>
    ensures count { length all.new.items ≡ length all.old.items }
    ensures given { OnOk result ((t : ℕ) (x : TheTraits) (cs : List set.Cell) → IsGiven all.old.items t x cs
        → IsGiven all.new.items t x (cs ++ listed_share t x (said_view entry.now))) }
{
    let Some(ty) = list_type(entry) else {
        return Ok(());
    };
    let Some(data) = all.get_mut(ty) else {
        return Ok(());
    };
    if data.traits.constructed {
        return Ok(());
    }
    add_whole(alloc, entry, data)
}

/// What is written here, for the type at a position of which it stands; a word may be the one at this place among the
/// type's words or the next one. Where it stands there.
fn add_spot<'a>(
    types: &[TypeDecl],
    spot: &Spot<'a>,
    near: usize,
    all: &mut Vec<TypeData<'a>>,
) -> Result<usize, Memory>
    ensures count { length all.new.items ≡ length all.old.items }
    ensures given { OnOk result ((t : ℕ) (x : TheTraits) (cs : List set.Cell) → IsGiven all.old.items t x cs
        → IsGiven all.new.items t x (cs ++ occurring_share types.now t x (spot_view spot.now ∷ []))) }
{
    let Some(ty) = position_of(types, spot) else {
        return Ok(0);
    };
    let Some(data) = all.get_mut(ty) else {
        return Ok(0);
    };
    if !data.traits.occurs {
        return Ok(0);
    }
    let Some(cell) = spot.cell() else {
        return Ok(0);
    };
    data.add(cell, near)
}

/// Where the word at this position of the row before stands.
fn place_at(places: &[usize], position: usize) -> usize
    ensures { result ≡ get_or places.now position 0 }
{
    match places.get(position) {
        Some(place) => *place,
        None => 0,
    }
}

/// Keeps where the word at this position stands. Any other place would do as well, and only take more time.
fn keep_place(places: &mut Vec<usize>, position: usize, place: usize) -> Result<(), Memory> {
    if position < places.len() {
        places[position] = place;
    } else {
        places.push(place)?;
    }
    Ok(())
}

/// What is written in a row, for the types at positions of which it stands. The numbers say for each position where the
/// word of the row before stands among the words of its type.
fn add_spots<'a>(
    types: &[TypeDecl],
    spots: &[Spot<'a>],
    places: &mut Vec<usize>,
    all: &mut Vec<TypeData<'a>>,
) -> Result<(), Memory>
    ensures count { OnOk result (length all.new.items ≡ length all.old.items) }
    ensures given { OnOk result ((t : ℕ) (x : TheTraits) (cs : List set.Cell) → IsGiven all.old.items t x cs
        → IsGiven all.new.items t x (cs ++ occurring_share types.now t x (map spot_view spots.now))) }
{
    for i in 0..spots.len() {
        let place = add_spot(types, &spots[i], place_at(places, i), all)?;
        keep_place(places, i, place)?;
    }
    Ok(())
}

/// What stands in an entry, for the types at positions of which it stands.
fn add_occurring<'a>(
    alloc: Global,
    types: &[TypeDecl],
    entry: &Entry<'a>,
    all: &mut Vec<TypeData<'a>>,
) -> Result<(), Memory>
    ensures count { OnOk result (length all.new.items ≡ length all.old.items) }
    ensures given { OnOk result ((t : ℕ) (x : TheTraits) (cs : List set.Cell) → IsGiven all.old.items t x cs
        → IsGiven all.new.items t x (cs ++ occurring_share types.now t x (said.spots_of (said_view entry.now)))) }
{
    let mut spots = Vec::new(alloc);
    let mut places = Vec::new(alloc);
    for row in &entry.rows {
        set_spots(entry.subject, row, &mut spots)?;
        add_spots(types, &spots, &mut places, all)?;
    }
    Ok(())
}

/// What stands in an entry, for each type of which it is a list or at positions of which it stands.
fn add_entry<'a>(
    alloc: Global,
    types: &[TypeDecl],
    entry: &Entry<'a>,
    all: &mut Vec<TypeData<'a>>,
) -> Result<(), Memory>
    ensures count { OnOk result (length all.new.items ≡ length all.old.items) }
    ensures given { OnOk result ((t : ℕ) (x : TheTraits) (cs : List set.Cell) → IsGiven all.old.items t x cs
        → IsGiven all.new.items t x (cs ++ share types.now t x (said_view entry.now))) }
{
    add_list(alloc, entry, all)?;
    add_occurring(alloc, types, entry, all)
}

/// What stands in entries, for each type of which one is a list or at positions of which it stands.
pub fn add_entries<'a>(
    alloc: Global,
    types: &[TypeDecl],
    entries: &[Entry<'a>],
    all: &mut Vec<TypeData<'a>>,
) -> Result<(), Memory>
    ensures count { OnOk result (length all.new.items ≡ length all.old.items) }
    ensures given { OnOk result ((t : ℕ) (x : TheTraits) (cs : List set.Cell) → IsGiven all.old.items t x cs
        → IsGiven all.new.items t x (cs ++ flat_map (share types.now t x) (map said_view entries.now))) }
{
    for entry in entries {
        add_entry(alloc, types, entry, all)?;
    }
    Ok(())
}
