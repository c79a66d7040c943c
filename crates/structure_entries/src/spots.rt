//! What stands in rows, and where.
ghost use Rattle.std.specs.Prelude.{◌≡◌, ◌++◌, ◌∷◌, [], filter, map, OnOk};
ghost use Rattle.std.specs.List.{flat_map};
ghost use Rattle.std.specs.Option.{option_map};
ghost use Rattle.grammar.specs.BlockView.{element_view};
ghost use Rattle.stage_definitions.specs.DataEntries as said;
ghost use Rattle.structure_entries.specs.EntryViews.{cell_view, row_view, spot_view, spots_in, subject_view};

use crate::elements::{Cell, cell_of, element_of, place_of_element, place_of_item};
use crate::rows::Row;
use crate::subjects::Subject;
use grammar::{RawElement, RawItem};
use kb_logic::Memory;

/// What is written: an item of a row, or a row's value.
#[derive(Clone, Copy)]
pub enum Written<'a> {
    Item(&'a RawItem),
    Value(&'a RawElement),
}

/// An element or a range where it is written: its type, whether it stands in the type's own list, whether in a list
/// where ranges may stand, and the tree's part, of which its place and what it stands for are read when they are asked
/// for.
#[derive(Clone, Copy)]
pub struct Spot<'a> {
    pub ty: usize,
    pub in_list: bool,
    pub is_plain: bool,
    pub written: Written<'a>,
}

impl<'a> Spot<'a> {
    pub fn place(&self) -> usize
        ensures { result ≡ (spot_view self.now).place }
    {
        match self.written {
            Written::Item(item) => place_of_item(item),
            Written::Value(value) => place_of_element(value),
        }
    }

    /// What it stands for.
    pub fn cell(&self) -> Option<Cell<'a>>
        ensures { option_map cell_view result ≡ (spot_view self.now).cell }
    {
        match self.written {
            Written::Item(item) => cell_of(self.is_plain, item),
            Written::Value(value) => Some(Cell::One(element_of(value))),
        }
    }
}

fn is_value_for(ty: Option<usize>, value: Option<&RawElement>) -> bool
    ensures { result ≡ said.is_value_for ty (option_map (λ e. element_view e.now) value.entry) }
{
    match ty {
        None => value.is_none(),
        Some(_) => value.is_some(),
    }
}

/// Whether a row has as many arguments as the word takes, and a value where it takes one.
pub fn fits_in(subject: Subject<'_>, row: &Row<'_>) -> bool
    ensures { result ≡ said.fits_in (subject_view subject.entry) (row_view row.now) }
{
    row.items.len() == subject.argument_count() && is_value_for(subject.value_type(), row.value)
}

fn add_items<'a>(
    subject: Subject<'a>,
    row: &Row<'a>,
    spots: &mut Vec<Spot<'a>>,
) -> Result<(), Memory>
    ensures { OnOk result (map spot_view spots.new.items ≡ map spot_view spots.old.items ++ said.item_spots
        (subject_view subject.entry) (said.argument_types (subject_view subject.entry)) (row_view row.now).items) }
{
    let in_list = subject.is_a_type();
    let is_plain = subject.is_plain_list();
    let mut rest = row.items;
    for i in 0..subject.argument_count() {
        let Some((item, after)) = rest.split_first() else {
            return Ok(());
        };
        let Some(ty) = subject.argument_type(i) else {
            return Ok(());
        };
        spots.push(Spot {
            ty,
            in_list,
            is_plain,
            written: Written::Item(item),
        })?;
        rest = after;
    }
    Ok(())
}

fn add_value<'a>(
    ty: Option<usize>,
    value: Option<&'a RawElement>,
    spots: &mut Vec<Spot<'a>>,
) -> Result<(), Memory>
    ensures { OnOk result (map spot_view spots.new.items ≡ map spot_view spots.old.items ++ said.value_spots ty
        (option_map (λ e. element_view e.now) value.entry)) }
{
    match ty {
        None => Ok(()),
        Some(ty) => match value {
            None => Ok(()),
            Some(raw) => {
                spots.push(Spot {
                    ty,
                    in_list: false,
                    is_plain: false,
                    written: Written::Value(raw),
                })?;
                Ok(())
            }
        },
    }
}

fn add_row<'a>(subject: Subject<'a>, row: &Row<'a>, spots: &mut Vec<Spot<'a>>) -> Result<(), Memory>
    ensures { OnOk result (map spot_view spots.new.items ≡ map spot_view spots.old.items ++ flat_map
        (said.row_spots (subject_view subject.entry)) (filter (said.fits_in (subject_view subject.entry))
        (row_view row.now ∷ []))) }
{
    if !fits_in(subject, row) {
        return Ok(());
    }
    add_items(subject, row, spots)?;
    add_value(subject.value_type(), row.value, spots)
}

/// What stands in a row that fits, in the order of the text, in place of what was in the list; nothing, where the row
/// does not fit. One list serves all rows of an entry, so that none is made of all that stands in it.
pub fn set_spots<'a>(
    subject: Subject<'a>,
    row: &Row<'a>,
    spots: &mut Vec<Spot<'a>>,
) -> Result<(), Memory>
    ensures { OnOk result (map spot_view spots.new.items ≡ spots_in (subject_view subject.entry)
        (row_view row.now ∷ [])) }
{
    spots.clear();
    add_row(subject, row, spots)
}
