//! The items of rows, as they stand in the tree.
ghost use Rattle.std.specs.Prelude.{◌≡◌, ◌∷◌, [], length, MatchOption};
ghost use Rattle.grammar.specs.BlockView.{item_view, items_view};
ghost use Rattle.stage_definitions.specs.DataEntries as said;
ghost use Rattle.structure_entries.specs.EntryViews.{items_of, tail_items};

use grammar::{RawItem, RawItemTail, RawItems};

/// No items, or a first one and those after it, where the tree has them: a row takes no memory for its items.
#[derive(Clone, Copy)]
pub struct RowItems<'a> {
    pub first: Option<&'a RawItem>,
    pub more: &'a [RawItemTail],
}

impl<'a> RowItems<'a> {
    pub fn none() -> RowItems<'a>
        ensures { items_of result ≡ [] }
    {
        RowItems {
            first: None,
            more: &[],
        }
    }

    /// An item by itself.
    pub fn single(item: &'a RawItem) -> RowItems<'a>
        ensures { items_of result ≡ item_view item.now ∷ [] }
    {
        RowItems {
            first: Some(item),
            more: &[],
        }
    }

    /// Items, without the commas between them.
    pub fn of(raw: &'a RawItems) -> RowItems<'a>
        ensures { items_of result ≡ said.items_in (items_view raw.now) }
    {
        RowItems {
            first: Some(&raw.first),
            more: raw.more.as_slice(),
        }
    }

    pub fn len(self) -> usize
        ensures { result ≡ length (items_of self.entry) }
    {
        match self.first {
            None => 0,
            Some(_) => self.more.len() + 1,
        }
    }

    /// The items after the first one of these.
    fn after(more: &'a [RawItemTail]) -> RowItems<'a>
        ensures { items_of result ≡ tail_items more.now }
    {
        match more.split_first() {
            None => RowItems::none(),
            Some((tail, more)) => RowItems {
                first: Some(&tail.item),
                more,
            },
        }
    }

    /// The first item and the others.
    pub fn split_first(self) -> Option<(&'a RawItem, RowItems<'a>)>
        ensures { MatchOption result (items_of self.entry ≡ []) (λ r. items_of self.entry ≡ item_view r.0.now
            ∷ items_of r.1) }
    {
        match self.first {
            None => None,
            Some(first) => Some((first, RowItems::after(self.more))),
        }
    }
}
