//! What rows say of atoms.
ghost use Rattle.std.specs.Prelude.{◌≡◌, ◌++◌, ◌∷◌, [], filter, map, IfOk, OnOk};
ghost use Rattle.std.specs.List.{filter_map, flat_map};
ghost use Rattle.std.specs.Option.{option_map};
ghost use Rattle.grammar.specs.BlockView.{element_view};
ghost use Rattle.stage_definitions.specs.DataEntries as said;
ghost use Rattle.stage_definitions.specs.DataFacts as stated;
ghost use Rattle.structure_entries.specs.SaidViews.{said_view};
ghost use Rattle.structure_entries.specs.EntryViews.{cell_view, elem_view, fact_view, items_of, row_view, subject_view};

use crate::elements::{Cell, Element, cell_of, element_of};
use crate::items::RowItems;
use crate::rows::Row;
use crate::senses::{Sense, sense_of};
use crate::spots::fits_in;
use crate::subjects::Subject;
use crate::written::Entry;
use grammar::RawElement;
use kb_logic::Memory;
use std::alloc::Global;

/// The atoms of a symbol with arguments in these cells and this value are true, or false, as the row at this place
/// says.
#[derive(Drop)]
pub struct Fact<'a> {
    pub place: usize,
    pub symbol: usize,
    pub holds: bool,
    pub args: Vec<Cell<'a>>,
    pub value: Option<Element<'a>>,
}

fn value_of<'a>(value: Option<&'a RawElement>) -> Option<Element<'a>>
    ensures { option_map elem_view result ≡ option_map said.element_of
        (option_map (λ e. element_view e.now) value.entry) }
{
    match value {
        Some(raw) => Some(element_of(raw)),
        None => None,
    }
}

/// What the items of a row stand for, where each stands for something.
fn cells_read<'a>(
    alloc: Global,
    in_plain_list: bool,
    items: RowItems<'a>,
) -> Result<Option<Vec<Cell<'a>>>, Memory>
    ensures { IfOk result (λ read. option_map (λ cells. map cell_view cells.items) read
        ≡ stated.cells_read in_plain_list (items_of items.entry)) }
{
    let mut cells = Vec::with_capacity(alloc, items.len())?;
    let mut rest = items;
    while let Some((item, after)) = rest.split_first() {
        match cell_of(in_plain_list, item) {
            None => return Ok(None),
            Some(cell) => cells.push(cell)?,
        }
        rest = after;
    }
    Ok(Some(cells))
}

/// What a row says of its symbol, where all of its items are read.
fn fact_of<'a>(
    alloc: Global,
    holds: bool,
    subject: Subject<'a>,
    row: &Row<'a>,
) -> Result<Option<Fact<'a>>, Memory>
    ensures { IfOk result (λ f. option_map fact_view f ≡ stated.fact_of holds (subject_view subject.entry)
        (row_view row.now)) }
{
    match subject {
        Subject::Nothing => Ok(None),
        Subject::OfElement => Ok(None),
        Subject::OfType(_, _) => Ok(None),
        Subject::OfSymbol(symbol, _) => {
            match cells_read(alloc, subject.is_plain_list(), row.items)? {
                None => Ok(None),
                Some(args) => Ok(Some(Fact {
                    place: row.place,
                    symbol,
                    holds,
                    args,
                    value: value_of(row.value),
                })),
            }
        }
    }
}

/// What a row says, where it fits and all of its items are read.
pub fn add_row<'a>(
    alloc: Global,
    holds: bool,
    subject: Subject<'a>,
    row: &Row<'a>,
    facts: &mut Vec<Fact<'a>>,
) -> Result<(), Memory>
    ensures { OnOk result (map fact_view facts.new.items ≡ map fact_view facts.old.items ++ filter_map
        (stated.fact_of holds (subject_view subject.entry)) (filter (said.fits_in (subject_view subject.entry))
        (row_view row.now ∷ []))) }
{
    if !fits_in(subject, row) {
        return Ok(());
    }
    match fact_of(alloc, holds, subject, row)? {
        None => Ok(()),
        Some(fact) => {
            facts.push(fact)?;
            Ok(())
        }
    }
}

/// What the rows of an entry say, each of them true or each of them false.
fn add_all<'a>(
    alloc: Global,
    holds: bool,
    entry: &Entry<'a>,
    facts: &mut Vec<Fact<'a>>,
) -> Result<(), Memory>
    ensures { OnOk result (map fact_view facts.new.items ≡ map fact_view facts.old.items ++ filter_map
        (stated.fact_of holds (said_view entry.now).subject) (said.fitting (said_view entry.now))) }
{
    for row in &entry.rows {
        add_row(alloc, holds, entry.subject, row, facts)?;
    }
    Ok(())
}

/// What an entry says of atoms.
pub fn add_facts<'a>(
    alloc: Global,
    entry: &Entry<'a>,
    facts: &mut Vec<Fact<'a>>,
) -> Result<(), Memory>
    ensures { OnOk result (map fact_view facts.new.items ≡ map fact_view facts.old.items ++ stated.facts_of
        (said_view entry.now)) }
{
    match sense_of(entry.mark) {
        Sense::Everything => add_all(alloc, true, entry, facts),
        Sense::CertainlyTrue => add_all(alloc, true, entry, facts),
        Sense::CertainlyFalse => add_all(alloc, false, entry, facts),
        Sense::Unread => Ok(()),
    }
}
