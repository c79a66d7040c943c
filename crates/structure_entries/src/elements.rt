//! Elements, and what stands for some of them.
ghost use Rattle.std.specs.Prelude.{◌≡◌, option_map};
ghost use Rattle.grammar.specs.BlockView.{element_view, item_view};
ghost use Rattle.stage_definitions.specs.Elements.{is_between, is_in, same_element};
ghost use Rattle.stage_definitions.specs.DataEntries as said;
ghost use Rattle.stage_definitions.specs.DataFacts as stated;
ghost use Rattle.structure_entries.specs.WholeViews.{whole_view};
ghost use Rattle.structure_entries.specs.EntryViews.{cell_view, elem_view};

use crate::wholes::Whole;
use grammar::{RawElement, RawItem};

/// An element as it is written.
#[derive(Clone, Copy)]
pub enum Element<'a> {
    Word(&'a [u8]),
    Number(Whole),
}

/// One element, or the integers from the first to the second.
#[derive(Clone, Copy)]
pub enum Cell<'a> {
    One(Element<'a>),
    Span(Whole, Whole),
}

pub fn element_of<'a>(raw: &'a RawElement) -> Element<'a>
    ensures { elem_view result ≡ said.element_of (element_view raw.now) }
{
    match raw {
        RawElement::Name(name) => Element::Word(name.text.as_slice()),
        RawElement::Integer(n) => Element::Number(Whole {
            negative: false,
            digits: n.value,
        }),
        RawElement::Negative(_, n) => Element::Number(Whole {
            negative: true,
            digits: n.value,
        }),
    }
}

/// Where an element begins; one with a minus, at the minus.
pub fn place_of_element(raw: &RawElement) -> usize
    ensures { result ≡ said.place_of_element (element_view raw.now) }
{
    match raw {
        RawElement::Name(name) => name.place,
        RawElement::Integer(n) => n.place,
        RawElement::Negative(place, _) => *place,
    }
}

pub fn place_of_item(raw: &RawItem) -> usize
    ensures { result ≡ said.place_of_item (item_view raw.now) }
{
    place_of_element(&raw.first)
}

fn range_of<'a>(first: Element<'a>, last: Element<'a>) -> Option<Cell<'a>>
    ensures { option_map cell_view result ≡ said.range_of (elem_view first.entry) (elem_view last.entry) }
{
    match first {
        Element::Word(_) => None,
        Element::Number(a) => match last {
            Element::Word(_) => None,
            Element::Number(b) => Some(Cell::Span(a, b)),
        },
    }
}

/// An item that is no range.
pub fn single_element<'a>(item: &'a RawItem) -> Option<Element<'a>>
    ensures { option_map elem_view result ≡ stated.single_element (item_view item.now) }
{
    match &item.to {
        None => Some(element_of(&item.first)),
        Some(_) => None,
    }
}

/// What an item stands for; a range stands for something only in a plain list, and between integers.
pub fn cell_of<'a>(in_plain_list: bool, raw: &'a RawItem) -> Option<Cell<'a>>
    ensures { option_map cell_view result ≡ said.cell_of in_plain_list (item_view raw.now) }
{
    match &raw.to {
        None => Some(Cell::One(element_of(&raw.first))),
        Some(range) => {
            if in_plain_list {
                range_of(element_of(&raw.first), element_of(&range.get().last))
            } else {
                None
            }
        }
    }
}

/// Whether both are the same word, or the same integer.
pub fn same_element(x: Element<'_>, y: Element<'_>) -> bool
    ensures { result ≡ same_element (elem_view x.entry) (elem_view y.entry) }
{
    match x {
        Element::Word(a) => match y {
            Element::Word(b) => a == b,
            Element::Number(_) => false,
        },
        Element::Number(a) => match y {
            Element::Word(_) => false,
            Element::Number(b) => a.same(b),
        },
    }
}

fn is_between(low: Whole, high: Whole, n: Whole) -> bool
    ensures { result ≡ is_between (whole_view low) (whole_view high) (whole_view n) }
{
    !n.is_below(low) && !high.is_below(n)
}

/// Whether the element is one of the cell's.
pub fn is_in(x: Element<'_>, cell: Cell<'_>) -> bool
    ensures { result ≡ is_in (elem_view x.entry) (cell_view cell.entry) }
{
    match cell {
        Cell::One(y) => same_element(x, y),
        Cell::Span(a, b) => match x {
            Element::Word(_) => false,
            Element::Number(n) => is_between(a, b, n),
        },
    }
}
