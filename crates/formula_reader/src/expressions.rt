//! What the readers of formulas and terms have in common: the readers of what nests in them, each a parameter, so
//! that each rule of the grammar is proved by itself.
ghost use Rattle.std.specs.Prelude.{◌≤◌, ◌<◌, length, IfOk};
ghost use Rattle.grammar.specs.Terminals.{toks};
ghost use Rattle.formula_reader.specs.Results.{Readers, FormulaRead, ContentRead, TermRead};

use crate::kinds::Content;
use grammar::{Item, RawFormula, RawTermTree};
use sqlite_items::Boxed;
use std::alloc::Global;
use token_reader::cursor::Found;

/// The readers of a text whose end is at the place `end`; what nests in it has fewer tokens than `left`.
#[derive(Clone, Copy)]
pub struct Reader<F, G, H> {
    pub alloc: Global,
    pub end: usize,
    pub left: usize,
    pub formula: F,
    pub content: G,
    pub term: H,
}

impl<
    'a,
    F: Fn(Global, &'a [Item<'a>], usize) -> Found<'a, Boxed<RawFormula>>,
    G: Fn(Global, &'a [Item<'a>], usize) -> Found<'a, Content>,
    H: Fn(Global, &'a [Item<'a>], usize) -> Found<'a, Boxed<RawTermTree>>,
> Reader<F, G, H> {
    /// The formula that nests here.
    pub fn formula(&self, items: &'a [Item<'a>]) -> Found<'a, Boxed<RawFormula>>
        requires nests { Readers self.now.left (F.pre self.now.formula) (F.post self.now.formula)
            (G.pre self.now.content) (G.post self.now.content) (H.pre self.now.term) (H.post self.now.term) }
        requires fewer { length items.now < self.now.left }
        ensures reads { FormulaRead (toks items.now) self.now.end result }
        ensures shorter { IfOk result (λ p. length p.1.now ≤ length items.now) }
    {
        (self.formula)(self.alloc, items, self.end)
    }

    /// What stands in brackets here, a formula or a term.
    pub fn content(&self, items: &'a [Item<'a>]) -> Found<'a, Content>
        requires nests { Readers self.now.left (F.pre self.now.formula) (F.post self.now.formula)
            (G.pre self.now.content) (G.post self.now.content) (H.pre self.now.term) (H.post self.now.term) }
        requires fewer { length items.now < self.now.left }
        ensures reads { ContentRead (toks items.now) self.now.end result }
        ensures shorter { IfOk result (λ p. length p.1.now ≤ length items.now) }
    {
        (self.content)(self.alloc, items, self.end)
    }

    /// The term that nests here.
    pub fn term(&self, items: &'a [Item<'a>]) -> Found<'a, Boxed<RawTermTree>>
        requires nests { Readers self.now.left (F.pre self.now.formula) (F.post self.now.formula)
            (G.pre self.now.content) (G.post self.now.content) (H.pre self.now.term) (H.post self.now.term) }
        requires fewer { length items.now < self.now.left }
        ensures reads { TermRead (toks items.now) self.now.end result }
        ensures shorter { IfOk result (λ p. length p.1.now ≤ length items.now) }
    {
        (self.term)(self.alloc, items, self.end)
    }
}
