//! Where each name is first a block's. With these places at hand, whether a name stands before is one look-up, and a
//! file of many blocks is checked in one pass over them.
ghost use Rattle.std.specs.Prelude.{◌≡◌, ◌||◌, ℕ, nat_lt, [], ◌∷◌, ◌++◌, List, OnOk, map};
ghost use Rattle.grammar.specs.Trees.{Name};
ghost use Rattle.grammar.specs.View.{name_view};
ghost use Rattle.stage_definitions.specs.BlocksStage as stage;
ghost use Rattle.stage_definitions.specs.BlocksStage.{header_names};
ghost use Rattle.block_choice.specs.Choices.{AreFirstPlaces, is_before};

use crate::blocks::Headed;
use grammar::RawName;
use indexmap::IndexMap;
use std::alloc::{AllocError, Global};

/// For each name of a block the least place at which it is one.
#[derive(Drop)]
pub struct FirstPlaces<'a> {
    pub places: IndexMap<&'a [u8], usize>,
}

/// No block was seen.
pub fn no_places<'a>(alloc: Global) -> FirstPlaces<'a>
    ensures { AreFirstPlaces [] result }
{
    FirstPlaces {
        places: IndexMap::new(alloc),
    }
}

/// The lesser of a place that may be there and another one.
fn lesser(found: Option<usize>, place: usize) -> usize
    ensures { (later : ℕ) → nat_lt result later ≡ (is_before found later || nat_lt place later) }
{
    match found {
        Some(before) => before.min(place),
        None => place,
    }
}

/// One more block has this name.
fn note_place<'a>(first: &mut FirstPlaces<'a>, name: &'a RawName) -> Result<(), AllocError>
    ensures { OnOk result ((names : List Name) → AreFirstPlaces names first.old
        → AreFirstPlaces (names ++ name_view name.now ∷ []) first.new) }
{
    let text = name.text.as_slice();
    let least = lesser(first.places.get(text).copied(), name.place);
    first.places.insert(text, least)?;
    Ok(())
}

/// So many more blocks have their names.
pub fn note_places<'a, B: Headed>(
    first: &mut FirstPlaces<'a>,
    blocks: &'a [B],
) -> Result<(), AllocError>
    ensures { OnOk result ((names : List Name) → AreFirstPlaces names first.old
        → AreFirstPlaces (names ++ header_names (map B.header_of blocks.now)) first.new) }
{
    for block in blocks {
        note_place(first, &block.header().name)?;
    }
    Ok(())
}

/// Whether a block of the same name stands before.
pub fn is_again<'a>(first: &FirstPlaces<'a>, name: &'a RawName) -> bool
    ensures { (names : List Name) → AreFirstPlaces names first.now
        → result ≡ stage.is_again names (name_view name.now) }
{
    match first.places.get(name.text.as_slice()) {
        Some(place) => *place < name.place,
        None => false,
    }
}
