//! What rows say that differ in their only argument alone.
//!
//! Their arguments are made a set first, so that an integer that stands in many ranges is added once.
ghost use Rattle.std.specs.Prelude.{◌≡◌, ◌++◌, ◌∷◌, [], ◌<◌, length, map, IfOk, IfSome, OnOk};
ghost use Rattle.std.specs.List.{AllByRecursion};
ghost use Rattle.stage_definitions.specs.Elements.{one, span};
ghost use Rattle.kb_logic.specs.declared.elements.Elem.TheVariants as elem;
ghost use Rattle.structure_entries.specs.EntryViews.{cell_view, fact_view};
ghost use Rattle.data_domains.specs.Sets.{interval_view, runs_in, words_in};
ghost use Rattle.data_filling.specs.Filling.{Adds, IsFactOver, IsOpenTo};
ghost use Rattle.data_filling.specs.Together.{cells_in, fact_over, facts_over, placeless};

use crate::facts::add_each;
use data_domains::intervals::Interval;
use data_domains::sets::ElementSet;
use kb_logic::Memory;
use partial_structures::Partial;
use std::alloc::Global;
use structure_entries::elements::{Cell, Element};
use structure_entries::facts::Fact;

/// The only argument of a fact of this symbol and sign and without a value.
fn only_cell<'a>(symbol: usize, holds: bool, fact: &Fact<'a>) -> Option<Cell<'a>>
    ensures { IfSome result (λ c. placeless (fact_view fact.now) ≡ fact_over symbol holds (cell_view c)) }
{
    if fact.symbol != symbol || fact.holds != holds || fact.value.is_some() {
        return None;
    }
    match fact.args.as_slice() {
        [cell] => Some(*cell),
        [] => None,
        [_, _, ..] => None,
    }
}

/// The only arguments of facts of this symbol and sign and without values, where all are such.
fn only_cells<'a>(
    alloc: Global,
    symbol: usize,
    holds: bool,
    facts: &[Fact<'a>],
) -> Result<Option<Vec<Cell<'a>>>, Memory>
    ensures { IfOk result (λ o. IfSome o (λ cells. map placeless (map fact_view facts.now)
        ≡ facts_over symbol holds (map cell_view cells.items))) }
{
    let mut cells = Vec::new(alloc);
    for fact in facts {
        match only_cell(symbol, holds, fact) {
            None => return Ok(None),
            Some(cell) => cells.push(cell)?,
        }
    }
    Ok(Some(cells))
}

/// One more fact, with this cell as its only argument.
fn push_cell<'a>(
    alloc: Global,
    symbol: usize,
    holds: bool,
    cell: Cell<'a>,
    facts: &mut Vec<Fact<'a>>,
) -> Result<(), Memory>
    ensures { OnOk result (map fact_view facts.new.items ≡ map fact_view facts.old.items
        ++ fact_over symbol holds (cell_view cell.entry) ∷ []) }
{
    let mut args = Vec::new(alloc);
    args.push(cell)?;
    facts.push(Fact {
        place: 0,
        symbol,
        holds,
        args,
        value: None,
    })?;
    Ok(())
}

fn push_words<'a>(
    alloc: Global,
    symbol: usize,
    holds: bool,
    words: &[&'a [u8]],
    facts: &mut Vec<Fact<'a>>,
) -> Result<(), Memory>
    ensures { OnOk result (map fact_view facts.new.items ≡ map fact_view facts.old.items
        ++ facts_over symbol holds (map (λ w. one (elem.Named w.now)) words.now)) }
{
    for word in words {
        push_cell(alloc, symbol, holds, Cell::One(Element::Word(word)), facts)?;
    }
    Ok(())
}

fn push_intervals<'a>(
    alloc: Global,
    symbol: usize,
    holds: bool,
    intervals: &[Interval],
    facts: &mut Vec<Fact<'a>>,
) -> Result<(), Memory>
    ensures { OnOk result (map fact_view facts.new.items ≡ map fact_view facts.old.items
        ++ facts_over symbol holds (map (λ i. span (interval_view i).low (interval_view i).high) intervals.now)) }
{
    for interval in intervals {
        push_cell(
            alloc,
            symbol,
            holds,
            Cell::Span(interval.low, interval.high),
            facts,
        )?;
    }
    Ok(())
}

/// The facts of a set's elements.
fn facts_of<'a>(
    alloc: Global,
    symbol: usize,
    holds: bool,
    elements: &ElementSet<'a>,
) -> Result<Vec<Fact<'a>>, Memory>
    ensures { IfOk result (λ facts. map fact_view facts.items ≡ facts_over symbol holds (cells_in elements.now)) }
{
    let mut facts = Vec::new(alloc);
    push_words(alloc, symbol, holds, elements.words.as_slice(), &mut facts)?;
    push_intervals(alloc, symbol, holds, &elements.intervals, &mut facts)?;
    Ok(facts)
}

/// What facts say with these arguments, of which there are some.
fn add_cells(
    alloc: Global,
    symbol: usize,
    holds: bool,
    cells: &[Cell<'_>],
    partial: &mut Partial,
) -> Result<(), Memory>
    requires some { 0 < length cells.now }
    requires over { AllByRecursion (IsFactOver partial.old.symbols partial.old.domains)
        (facts_over symbol holds (map cell_view cells.now)) }
    requires open_to { IsOpenTo partial.old (facts_over symbol holds (map cell_view cells.now)) }
    ensures { OnOk result (Adds partial.old partial.new (facts_over symbol holds (map cell_view cells.now))) }
{
    let elements = ElementSet::of(alloc, cells)?;
    let facts = facts_of(alloc, symbol, holds, &elements)?;
    add_each(alloc, &facts, partial)
}

/// What some facts say; where they differ in their only argument alone, of each element once.
fn add_alike(
    alloc: Global,
    symbol: usize,
    holds: bool,
    facts: &[Fact<'_>],
    partial: &mut Partial,
) -> Result<(), Memory>
    requires some { 0 < length facts.now }
    requires over { AllByRecursion (IsFactOver partial.old.symbols partial.old.domains) (map fact_view facts.now) }
    requires open_to { IsOpenTo partial.old (map fact_view facts.now) }
    ensures { OnOk result (Adds partial.old partial.new (map fact_view facts.now)) }
{
    match only_cells(alloc, symbol, holds, facts)? {
        Some(cells) => add_cells(alloc, symbol, holds, &cells, partial),
        None => add_each(alloc, facts, partial),
    }
}

/// What some facts say.
pub fn add_together(alloc: Global, facts: &[Fact<'_>], partial: &mut Partial) -> Result<(), Memory>
    requires over { AllByRecursion (IsFactOver partial.old.symbols partial.old.domains) (map fact_view facts.now) }
    requires open_to { IsOpenTo partial.old (map fact_view facts.now) }
    ensures { OnOk result (Adds partial.old partial.new (map fact_view facts.now)) }
{
    match facts.first() {
        None => Ok(()),
        Some(first) => add_alike(alloc, first.symbol, first.holds, facts, partial),
    }
}
