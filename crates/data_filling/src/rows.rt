//! What the rows of an entry say, row by row.
//!
//! A row without ranges, as most are, is made known by its elements as they stand in the text: neither a fact nor a
//! name takes memory of its own, and one list of arguments serves all rows.
ghost use Rattle.std.specs.Prelude.{◌≡◌, ◌∷◌, [], map, option_map, true, Some, IfOk, OnOk};
ghost use Rattle.std.specs.List.{AllByRecursion};
ghost use Rattle.grammar.specs.BlockView.{element_view};
ghost use Rattle.row_tries.specs.Lent.{lent_view};
ghost use Rattle.stage_definitions.specs.DataEntries as said;
ghost use Rattle.stage_definitions.specs.DataFacts as stated;
ghost use Rattle.structure_entries.specs.EntryViews.{items_of, row_view, subject_view};
ghost use Rattle.structure_entries.specs.SaidViews.{said_view};
ghost use Rattle.data_filling.specs.Filling.{Adds, IsFactOver, IsOpenTo, row_facts, single_fact, symbol_named};

use crate::elements::lent_of;
use crate::facts::{add_each, symbol_number};
use grammar::RawElement;
use kb_logic::Memory;
use partial_structures::{LentElem, Partial};
use std::alloc::Global;
use structure_entries::elements::{element_of, single_element};
use structure_entries::facts::add_row;
use structure_entries::items::RowItems;
use structure_entries::rows::Row;
use structure_entries::spots::fits_in;
use structure_entries::subjects::Subject;
use structure_entries::written::Entry;

/// A row's value, lent.
fn lent_value<'a>(value: Option<&'a RawElement>) -> Result<Option<LentElem<'a>>, Memory>
    ensures { IfOk result (λ o. option_map lent_view o ≡ option_map said.element_of
        (option_map (λ e. element_view e.now) value.entry)) }
{
    match value {
        None => Ok(None),
        Some(raw) => Ok(Some(lent_of(element_of(raw))?)),
    }
}

/// The arguments of a row in place of another's; whether no range is among them.
fn set_args<'a>(items: RowItems<'a>, args: &mut Vec<LentElem<'a>>) -> Result<bool, Memory>
    ensures { IfOk result (λ are_single. are_single ≡ true → stated.single_elements (items_of items.entry)
        ≡ Some (map lent_view args.new.items)) }
{
    args.clear();
    let mut rest = items;
    while let Some((item, after)) = rest.split_first() {
        let Some(x) = single_element(item) else {
            return Ok(false);
        };
        args.push(lent_of(x)?)?;
        rest = after;
    }
    Ok(true)
}

/// What a row with these arguments says of the symbol with this number.
fn add_single(
    holds: bool,
    symbol: usize,
    row: &Row<'_>,
    args: &[LentElem<'_>],
    partial: &mut Partial,
) -> Result<(), Memory>
    requires over { IsFactOver partial.old.symbols partial.old.domains
        (single_fact holds symbol (row_view row.now) (map lent_view args.now)) }
    requires open_to { IsOpenTo partial.old
        (single_fact holds symbol (row_view row.now) (map lent_view args.now) ∷ []) }
    ensures { OnOk result (Adds partial.old partial.new
        (single_fact holds symbol (row_view row.now) (map lent_view args.now) ∷ [])) }
{
    let number = symbol_number(symbol)?;
    let value = lent_value(row.value)?;
    if holds {
        partial.affirm(number, args, value)
    } else {
        partial.deny(number, args, value)
    }
}

/// What a row says, also where a range is among its arguments.
fn add_any<'a>(
    alloc: Global,
    holds: bool,
    subject: Subject<'a>,
    row: &Row<'a>,
    partial: &mut Partial,
) -> Result<(), Memory>
    requires over { AllByRecursion (IsFactOver partial.old.symbols partial.old.domains)
        (row_facts holds (subject_view subject) (row_view row.now ∷ [])) }
    requires open_to { IsOpenTo partial.old (row_facts holds (subject_view subject) (row_view row.now ∷ [])) }
    ensures { OnOk result (Adds partial.old partial.new
        (row_facts holds (subject_view subject.entry) (row_view row.now ∷ []))) }
{
    let mut facts = Vec::new(alloc);
    add_row(alloc, holds, subject, row, &mut facts)?;
    add_each(alloc, &facts, partial)
}

/// What a row says of what a word names, where it fits.
fn add_one<'a>(
    alloc: Global,
    holds: bool,
    subject: Subject<'a>,
    row: &Row<'a>,
    args: &mut Vec<LentElem<'a>>,
    partial: &mut Partial,
) -> Result<(), Memory>
    requires over { AllByRecursion (IsFactOver partial.old.symbols partial.old.domains)
        (row_facts holds (subject_view subject) (row_view row.now ∷ [])) }
    requires open_to { IsOpenTo partial.old (row_facts holds (subject_view subject) (row_view row.now ∷ [])) }
    ensures { OnOk result (Adds partial.old partial.new
        (row_facts holds (subject_view subject.entry) (row_view row.now ∷ []))) }
{
    let Some(symbol) = symbol_of(subject) else {
        return Ok(());
    };
    if !fits_in(subject, row) {
        return Ok(());
    }
    if set_args(row.items, args)? {
        add_single(holds, symbol, row, args, partial)
    } else {
        add_any(alloc, holds, subject, row, partial)
    }
}

/// The number of the symbol that a word names.
fn symbol_of(subject: Subject<'_>) -> Option<usize>
    ensures { result ≡ symbol_named (subject_view subject.entry) }
{
    match subject {
        Subject::Nothing => None,
        Subject::OfElement => None,
        Subject::OfType(_, _) => None,
        Subject::OfSymbol(symbol, _) => Some(symbol),
    }
}

/// What the rows of an entry say, each of them true or each of them false.
pub fn add_rows<'a>(
    alloc: Global,
    holds: bool,
    entry: &Entry<'a>,
    partial: &mut Partial,
) -> Result<(), Memory>
    requires over { AllByRecursion (IsFactOver partial.old.symbols partial.old.domains)
        (row_facts holds (said_view entry.now).subject (said_view entry.now).rows) }
    requires open_to { IsOpenTo partial.old
        (row_facts holds (said_view entry.now).subject (said_view entry.now).rows) }
    ensures { OnOk result (Adds partial.old partial.new
        (row_facts holds (said_view entry.now).subject (said_view entry.now).rows)) }
{
    let mut args = Vec::new(alloc);
    for row in &entry.rows {
        add_one(alloc, holds, entry.subject, row, &mut args, partial)?;
    }
    Ok(())
}

/// Whether a row's first argument is a range; there it is the only one.
fn has_range(row: &Row<'_>) -> bool {
    match row.items.first {
        Some(item) => item.to.is_some(),
        None => false,
    }
}

/// Whether a range is among the arguments of an entry's rows; where none is, each element stands for itself.
pub fn have_range(entry: &Entry<'_>) -> bool {
    for row in &entry.rows {
        if has_range(row) {
            return true;
        }
    }
    false
}
