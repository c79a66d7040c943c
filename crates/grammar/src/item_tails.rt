//! The items after the first one.
ghost use Rattle.std.specs.Prelude.{◌≡◌, ◌++◌, ◌∷◌, [], OnOk};

use crate::raw_blocks::RawItemTail;
use sqlite_items::Items;
use std::alloc::{AllocError, Global};
use std::marker::Model;

/// Most rows of a structure have two items: the second one stands in the value itself, and takes no memory of its own.
#[derive(Drop)]
pub(crate) enum Tails {
    None,
    One(RawItemTail),
    More(Items<RawItemTail>),
}

impl Tails {
    ghost use Rattle.std.specs.Prelude.{◌≡◌, ◌++◌, ◌∷◌, [], IfOk};
    ghost use Rattle.grammar.specs.Tails.{tails_in};

    fn with(self, alloc: Global, tail: RawItemTail) -> Result<Tails, AllocError>
        ensures { IfOk result (λ t. tails_in t ≡ tails_in self ++ tail ∷ []) }
    {
        match self {
            Tails::None => Ok(Tails::One(tail)),
            Tails::One(first) => {
                let mut items = Items::new(alloc);
                items.push(first)?;
                items.push(tail)?;
                Ok(Tails::More(items))
            }
            Tails::More(items) => {
                let mut items = items;
                items.push(tail)?;
                Ok(Tails::More(items))
            }
        }
    }
}

/// The items after the first one, seen as their list.
#[derive(Drop)]
pub struct ItemTails {
    tails: Tails,
}

impl Model for ItemTails {
    ghost use Rattle.std.specs.Prelude.{List};
    ghost use Rattle.grammar.specs.declared.raw_blocks.RawItemTail.{RawItemTail};
    ghost use Rattle.grammar.specs.Tails.{tails_in};

    ghost Value = { List RawItemTail };

    ghost view = { λ t. tails_in t.tails };
}

impl ItemTails {
    pub fn new() -> ItemTails
        ensures { result ≡ [] }
    {
        ItemTails { tails: Tails::None }
    }

    pub fn push(&mut self, alloc: Global, tail: RawItemTail) -> Result<(), AllocError>
        ensures { OnOk result (self.new ≡ self.old ++ tail ∷ []) }
    {
        let held = std::mem::replace(&mut self.tails, Tails::None);
        self.tails = held.with(alloc, tail)?;
        Ok(())
    }

    pub fn as_slice(&self) -> &[RawItemTail]
        ensures { result.now ≡ self.now }
    {
        match &self.tails {
            Tails::None => &[],
            Tails::One(one) => std::slice::from_ref(one),
            Tails::More(items) => items.as_slice(),
        }
    }
}
