//! Applications, terms and formulas as they stand in a theory or in a term's block.
ghost use Rattle.std.specs.Prelude.{◌≤◌, ◌<◌, length, IfOk};
ghost use Rattle.grammar.specs.Terminals.{toks};
ghost use Rattle.fo_reader.specs.TheoryReads.{ApplicationRead, InnerTermRead, StatementRead};

use formula_reader::expressions::Reader;
use formula_reader::nested::{content, formula, term};
use grammar::{Item, Outer, RawApp, RawFormula, RawTermTree, Terminal};
use std::alloc::Global;
use token_reader::binders::word;
use token_reader::cursor::{Found, sealed, sign};

/// A word with its arguments, if it has any.
pub fn application<'a>(alloc: Global, items: &'a [Item<'a>], end: usize) -> Found<'a, RawApp>
    ensures reads { ApplicationRead (toks items.now) end result }
    ensures shorter { IfOk result (λ p. length p.1.now < length items.now) }
{
    let (name, rest) = word(alloc, items, end)?;
    let reader = Reader {
        alloc,
        end,
        left: items.len(),
        formula,
        content,
        term,
    };
    let (app, last) = reader.arguments(name, rest)?;
    sealed(last)?;
    Ok((app.into_inner(), last))
}

/// A term.
pub fn inner_term<'a>(alloc: Global, items: &'a [Item<'a>], end: usize) -> Found<'a, RawTermTree>
    ensures reads { InnerTermRead (toks items.now) end result }
    ensures shorter { IfOk result (λ p. length p.1.now ≤ length items.now) }
{
    let (found, rest) = term(alloc, items, end)?;
    Ok((found.into_inner(), rest))
}

/// A formula, with its full stop ahead.
pub fn statement<'a>(alloc: Global, items: &'a [Item<'a>], end: usize) -> Found<'a, RawFormula>
    ensures reads { StatementRead (toks items.now) end result }
    ensures shorter { IfOk result (λ p. length p.1.now ≤ length items.now) }
{
    let (found, rest) = formula(alloc, items, end)?;
    let (_dot, _last) = sign(Terminal::Outer(Outer::Dot), rest, end)?;
    Ok((found.into_inner(), rest))
}
