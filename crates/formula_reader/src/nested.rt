//! The readers of formulas and terms, each of which reads what nests in it by all of them.
ghost use Rattle.std.specs.Prelude.{◌≤◌, length, IfOk};
ghost use Rattle.grammar.specs.Terminals.{toks};
ghost use Rattle.formula_reader.specs.Results.{FormulaRead, ContentRead, TermRead};

use crate::expressions::Reader;
use crate::kinds::Content;
use grammar::{Item, RawFormula, RawTermTree};
use sqlite_items::Boxed;
use std::alloc::Global;
use token_reader::cursor::Found;

/// A formula at the start of the tokens; the text ends at the place `end`.
#[cycle(nested)]
pub fn formula<'a>(alloc: Global, items: &'a [Item<'a>], end: usize) -> Found<'a, Boxed<RawFormula>>
    ensures reads { FormulaRead (toks items.now) end result }
    ensures shorter { IfOk result (λ p. length p.1.now ≤ length items.now) }
{
    let reader = Reader {
        alloc,
        end,
        left: items.len(),
        formula,
        content,
        term,
    };
    reader.whole_formula(items)
}

/// What may stand in brackets.
#[cycle(nested)]
pub fn content<'a>(alloc: Global, items: &'a [Item<'a>], end: usize) -> Found<'a, Content>
    ensures reads { ContentRead (toks items.now) end result }
    ensures shorter { IfOk result (λ p. length p.1.now ≤ length items.now) }
{
    let reader = Reader {
        alloc,
        end,
        left: items.len(),
        formula,
        content,
        term,
    };
    reader.whole_content(items)
}

/// A term at the start of the tokens; the text ends at the place `end`.
#[cycle(nested)]
pub fn term<'a>(alloc: Global, items: &'a [Item<'a>], end: usize) -> Found<'a, Boxed<RawTermTree>>
    ensures reads { TermRead (toks items.now) end result }
    ensures shorter { IfOk result (λ p. length p.1.now ≤ length items.now) }
{
    let reader = Reader {
        alloc,
        end,
        left: items.len(),
        formula,
        content,
        term,
    };
    reader.whole_term(items)
}
