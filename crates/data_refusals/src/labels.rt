//! Elements as keys of a table.
ghost use Rattle.std.specs.Prelude.{◌≡◌};
ghost use Rattle.structure_entries.specs.EntryViews.{elem_view};
ghost use Rattle.data_refusals.specs.Labels.{label_view};

use structure_entries::elements::Element;

/// An element by its word, or by its number.
#[derive(Clone, Copy, PartialEq, Eq, Hash)]
pub enum Label<'a> {
    Word(&'a [u8]),
    Number(i128),
}

pub fn label_of<'a>(x: Element<'a>) -> Label<'a>
    ensures { label_view result ≡ elem_view x.entry }
{
    match x {
        Element::Word(word) => Label::Word(word),
        Element::Number(n) => Label::Number(n.value()),
    }
}
