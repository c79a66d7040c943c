//! Rows as they are written.
ghost use Rattle.std.specs.Prelude.{◌≡◌, ◌++◌, ◌∷◌, [], map, IfOk, OnOk};
ghost use Rattle.std.specs.List.{flat_map};
ghost use Rattle.grammar.specs.BlockTrees as raw_tree;
ghost use Rattle.std.specs.Option.{option_map};
ghost use Rattle.grammar.specs.BlockView as raw_view;
ghost use Rattle.grammar.specs.BlockView.{element_view, item_view, items_view, rows_view, to_view, value_view};
ghost use Rattle.stage_definitions.specs.DataEntries as said;
ghost use Rattle.structure_entries.specs.EntryViews.{row_view};

use crate::elements::{place_of_element, place_of_item};
use crate::items::RowItems;
use grammar::{RawElement, RawItem, RawItems, RawRow, RawRowTail, RawRows, RawTo, RawValue};
use kb_logic::Memory;
use sqlite_items::Boxed;
use std::alloc::Global;

/// A row: the place of its first token, its arguments and its value.
#[derive(Drop)]
pub struct Row<'a> {
    pub place: usize,
    pub items: RowItems<'a>,
    pub value: Option<&'a RawElement>,
}

/// The element after an arrow.
fn value_in<'a>(to: &'a Option<Boxed<RawTo>>) -> Option<&'a RawElement>
    ensures { option_map (λ e. element_view e.now) result ≡ said.value_in (option_map to_view to.now) }
{
    match to {
        Some(to) => Some(&to.get().element),
        None => None,
    }
}

/// Items that are one row, which begins at this place.
fn row_at<'a>(place: usize, items: &'a RawItems, to: &'a Option<Boxed<RawTo>>) -> Row<'a>
    ensures { row_view result ≡ record {
      place = place;
      items = said.items_in (items_view items.now);
      value = said.value_in (option_map to_view to.now);
    } }
{
    Row {
        place,
        items: RowItems::of(items),
        value: value_in(to),
    }
}

/// An item that is a row by itself.
fn single_row<'a>(item: &'a RawItem) -> Row<'a>
    ensures { row_view result ≡ said.row_of_item (item_view item.now) }
{
    Row {
        place: place_of_item(item),
        items: RowItems::single(item),
        value: None,
    }
}

/// Each item as a row.
fn add_each<'a>(raw: &'a RawItems, rows: &mut Vec<Row<'a>>) -> Result<(), Memory>
    ensures { OnOk result (map row_view rows.new.items ≡ map row_view rows.old.items ++ map said.row_of_item
        (said.items_in (items_view raw.now))) }
{
    rows.push(single_row(&raw.first))?;
    for tail in raw.more.as_slice() {
        rows.push(single_row(&tail.item))?;
    }
    Ok(())
}

/// What stands between two semicolons without brackets.
fn add_plain<'a>(
    by_commas: bool,
    items: &'a RawItems,
    to: &'a Option<Boxed<RawTo>>,
    rows: &mut Vec<Row<'a>>,
) -> Result<(), Memory>
    ensures { OnOk result (map row_view rows.new.items ≡ map row_view rows.old.items ++ said.rows_between by_commas
        (raw_tree.plain (items_view items.now) (option_map to_view to.now))) }
{
    if by_commas && to.is_none() {
        return add_each(items, rows);
    }
    rows.push(row_at(place_of_item(&items.first), items, to))?;
    Ok(())
}

/// The rows that stand between two semicolons.
fn add_rows<'a>(by_commas: bool, raw: &'a RawRow, rows: &mut Vec<Row<'a>>) -> Result<(), Memory>
    ensures { OnOk result (map row_view rows.new.items ≡ map row_view rows.old.items ++ said.rows_between by_commas
        (raw_view.row_view raw.now)) }
{
    match raw {
        RawRow::Plain(items, to) => add_plain(by_commas, items, to, rows),
        RawRow::Bracketed(place, items, _, to) => {
            rows.push(row_at(*place, items, to))?;
            Ok(())
        }
        RawRow::Only(to) => {
            rows.push(Row {
                place: to.place,
                items: RowItems::none(),
                value: Some(&to.element),
            })?;
            Ok(())
        }
    }
}

/// The rows after the first semicolon.
fn add_more<'a>(
    by_commas: bool,
    more: &'a [RawRowTail],
    rows: &mut Vec<Row<'a>>,
) -> Result<(), Memory>
    ensures { OnOk result (map row_view rows.new.items ≡ map row_view rows.old.items ++ flat_map
        (said.rows_between by_commas) (map (λ x. x.1) (map raw_view.row_tail_view more.now))) }
{
    for tail in more {
        add_rows(by_commas, &tail.row, rows)?;
    }
    Ok(())
}

/// The rows of a table.
fn rows_of<'a>(alloc: Global, by_commas: bool, raw: &'a RawRows) -> Result<Vec<Row<'a>>, Memory>
    ensures { IfOk result (λ rows. map row_view rows.items ≡ flat_map (said.rows_between by_commas)
        (said.rows_in (rows_view raw.now))) }
{
    let mut rows = Vec::new(alloc);
    add_rows(by_commas, &raw.first, &mut rows)?;
    add_more(by_commas, raw.more.as_slice(), &mut rows)?;
    Ok(rows)
}

fn one_row<'a>(
    alloc: Global,
    place: usize,
    value: Option<&'a RawElement>,
) -> Result<Vec<Row<'a>>, Memory>
    ensures { IfOk result (λ rows. map row_view rows.items ≡ record {
      place = place;
      items = [];
      value =
          option_map (λ e. element_view e.now) value.entry;
    } ∷ []) }
{
    let mut rows = Vec::new(alloc);
    rows.push(Row {
        place,
        items: RowItems::none(),
        value,
    })?;
    Ok(rows)
}

/// The rows of a value, where a comma separates rows or does not.
pub fn written_rows<'a>(
    alloc: Global,
    by_commas: bool,
    raw: &'a RawValue,
) -> Result<Vec<Row<'a>>, Memory>
    ensures { IfOk result (λ rows. map row_view rows.items ≡ said.written_rows by_commas (value_view raw.now)) }
{
    match raw {
        RawValue::Truth(true, place) => one_row(alloc, *place, None),
        RawValue::Truth(false, _) => Ok(Vec::new(alloc)),
        RawValue::Element(element) => one_row(alloc, place_of_element(element), Some(element)),
        RawValue::Table(table) => match &table.rows {
            None => Ok(Vec::new(alloc)),
            Some(raw) => rows_of(alloc, by_commas, raw),
        },
    }
}
