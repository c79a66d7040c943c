//! Elements of domains from what is written.
ghost use Rattle.std.specs.Prelude.{◌≡◌, map, IfOk, IfSome};
ghost use Rattle.std.specs.Option.{option_map};
ghost use Rattle.kb_logic.specs.declared.elements.Elem.TheVariants as elem;
ghost use Rattle.row_tries.specs.Lent.{lent_view};
ghost use Rattle.stage_definitions.specs.Elements.{one};
ghost use Rattle.structure_entries.specs.EntryViews.{cell_view, elem_view};

use kb_logic::{Elem, ElemList, Memory, Name};
use partial_structures::LentElem;
use std::alloc::Global;
use structure_entries::elements::{Cell, Element};

/// An integer as an element, which lies from -1,000,000 to 1,000,000; none beyond is in a domain.
fn in_domains(n: i128) -> Option<i64>
    ensures { IfSome result (λ z. z ≡ n) }
{
    if n < -1_000_000 {
        None
    } else if n > 1_000_000 {
        None
    } else {
        Some(n as i64)
    }
}

pub fn number(n: i128) -> Result<Elem, Memory>
    ensures { IfOk result (λ x. x ≡ elem.Num n) }
{
    match in_domains(n) {
        Some(n) => Ok(Elem::Num(n)),
        None => Err(Memory),
    }
}

pub fn elem_of(alloc: Global, x: Element<'_>) -> Result<Elem, Memory>
    ensures { IfOk result (λ y. y ≡ elem_view x.entry) }
{
    match x {
        Element::Word(word) => Ok(Elem::Named(Name::new(alloc, word)?)),
        Element::Number(n) => number(n.value()),
    }
}

/// An element as it stands in the text.
pub fn lent_of<'a>(x: Element<'a>) -> Result<LentElem<'a>, Memory>
    ensures { IfOk result (λ y. lent_view y ≡ elem_view x.entry) }
{
    match x {
        Element::Word(word) => Ok(LentElem::Named(word)),
        Element::Number(n) => match in_domains(n.value()) {
            Some(n) => Ok(LentElem::Num(n)),
            None => Err(Memory),
        },
    }
}

/// The elements of cells, unless a range is among them.
pub fn elems_of(alloc: Global, cells: &[Cell<'_>]) -> Result<Option<ElemList>, Memory>
    ensures { IfOk result (λ o. IfSome o (λ xs. map (λ x. one x) xs ≡ map cell_view cells.now)) }
{
    let mut elems = ElemList::new(alloc);
    for cell in cells {
        match cell {
            Cell::One(x) => elems.push(elem_of(alloc, *x)?)?,
            Cell::Span(_, _) => return Ok(None),
        }
    }
    Ok(Some(elems))
}

pub fn value_of(alloc: Global, value: Option<Element<'_>>) -> Result<Option<Elem>, Memory>
    ensures { IfOk result (λ o. o ≡ option_map elem_view value.entry) }
{
    match value {
        Some(x) => Ok(Some(elem_of(alloc, x)?)),
        None => Ok(None),
    }
}
