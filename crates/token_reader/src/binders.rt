//! Variables where they are bound, and the number of instances before them.
ghost use Rattle.std.specs.Prelude.{◌≡◌, ◌∷◌, ◌≤◌, ◌<◌, List, length, map, IfOk, IfSome, IfNone};
ghost use Rattle.grammar.specs.Trees as tree;
ghost use Rattle.grammar.specs.Terminals.{Tok, tok, toks};
ghost use Rattle.grammar.specs.Trees.{Var};
ghost use Rattle.grammar.specs.View.{name_view, var_view, var_tail_view, vars_view, vars_of, number_view};
ghost use Rattle.token_reader.specs.Binders.{VarRead, BinderRead, NumberRead, IntegerRead, VarAhead, NoVar};
ghost use Rattle.token_reader.specs.Variables.{VarsAre, MoreVars};
ghost use Rattle.token_reader.specs.Signs.{WordRead};

use crate::build::named;
use crate::cursor::{Found, sign, skip, split, start};
use grammar::{
    Comparison, Item, RawInteger, RawName, RawNumber, RawVar, RawVarTail, RawVarType, RawVars,
    ReadError, Terminal,
};
use sqlite_items::{Boxed, Items};
use std::alloc::{AllocError, Global};

/// A word that is not reserved.
pub fn word<'a>(
    alloc: Global,
    items: &'a [Item<'a>],
    end: usize,
) -> Result<(RawName, &'a [Item<'a>]), ReadError>
    ensures reads { WordRead (toks items.now) end result }
    ensures shorter { IfOk result (λ p. length p.1.now < length items.now) }
{
    let Some((item, rest)) = split(items) else {
        return Err(ReadError::Stuck(end));
    };
    match item.terminal {
        Terminal::Word => Ok((named(alloc, item.text, item.place)?, rest)),
        _ => Err(ReadError::Stuck(item.place)),
    }
}

fn untyped(name: RawName) -> RawVar
    ensures { var_view result ≡ tree.untyped (name_view name) }
{
    RawVar { name, of: None }
}

fn typed(name: RawName, start: usize, of: RawName, close: usize) -> RawVar
    ensures { var_view result ≡ tree.typed (name_view name) start (name_view of) close }
{
    RawVar {
        name,
        of: Some(RawVarType {
            open: start,
            name: of,
            close,
        }),
    }
}

fn var<'a>(
    alloc: Global,
    items: &'a [Item<'a>],
    end: usize,
) -> Result<(RawVar, &'a [Item<'a>]), ReadError>
    ensures reads { VarRead (toks items.now) end result }
    ensures shorter { IfOk result (λ p. length p.1.now < length items.now) }
{
    let (name, rest) = word(alloc, items, end)?;
    let Some((start, after)) = skip(Terminal::OpenSquare, rest) else {
        return Ok((untyped(name), rest));
    };
    let (of, after) = word(alloc, after, end)?;
    let (close, last) = sign(Terminal::CloseSquare, after, end)?;
    Ok((typed(name, start, of, close), last))
}

fn tail(comma: Option<usize>, var: RawVar) -> RawVarTail
    ensures { var_tail_view result ≡ (comma, var_view var) }
{
    RawVarTail { comma, var }
}

fn listed(
    alloc: Global,
    first: RawVar,
    more: Items<RawVarTail>,
) -> Result<Boxed<RawVars>, AllocError>
    ensures { IfOk result (λ vars. vars_view vars ≡ vars_of (var_view first) (map var_tail_view more)) }
{
    Boxed::new(alloc, RawVars { first, more })
}

// Where the next variable begins, if one comes, with the comma before it.
fn ahead<'a>(items: &'a [Item<'a>]) -> Option<(Option<usize>, &'a [Item<'a>])>
    ensures some { IfSome result (λ p. VarAhead (toks items.now) p.0 (toks p.1.now)) }
    ensures shorter { IfSome result (λ p. length p.1.now ≤ length items.now) }
    ensures none { IfNone result (NoVar (toks items.now)) }
{
    let (item, rest) = split(items)?;
    match item.terminal {
        Terminal::Comma => Some((Some(item.place), rest)),
        Terminal::Word => Some((None, items)),
        _ => None,
    }
}

// The further variables, and the place of the colon after them. The list is lent, so that no way out gives it up.
fn more_vars<'a>(
    alloc: Global,
    more: &mut Items<RawVarTail>,
    items: &'a [Item<'a>],
    end: usize,
) -> Found<'a, usize>
    ensures reads { (ts : List Tok) (v : Var) → VarsAre ts v (map var_tail_view more.old) (toks items.now)
        → MoreVars ts v (map var_tail_view more.new) end result }
    ensures shorter { IfOk result (λ p. length p.1.now < length items.now) }
{
    let (_count, mut rest) = start(items);
    while let Some((comma, after)) = ahead(rest) {
        let (further, after) = var(alloc, after, end)?;
        more.push(tail(comma, further))?;
        rest = after;
    }
    sign(Terminal::Colon, rest, end)
}

/// One or more variables and the colon after them: its place.
pub fn binder<'a>(
    alloc: Global,
    items: &'a [Item<'a>],
    end: usize,
) -> Result<(Boxed<RawVars>, usize, &'a [Item<'a>]), ReadError>
    ensures reads { BinderRead (toks items.now) end result }
    ensures shorter { IfOk result (λ p. length p.2.now < length items.now) }
{
    let (first, rest) = var(alloc, items, end)?;
    let mut more = Items::new(alloc);
    let (place, last) = more_vars(alloc, &mut more, rest, end)?;
    let vars = listed(alloc, first, more)?;
    Ok((vars, place, last))
}

fn integer<'a>(items: &'a [Item<'a>], end: usize) -> Result<(u64, usize, &'a [Item<'a>]), ReadError>
    ensures reads { IntegerRead (toks items.now) end result }
    ensures shorter { IfOk result (λ p. length p.2.now ≤ length items.now) }
{
    let Some((item, rest)) = split(items) else {
        return Err(ReadError::Stuck(end));
    };
    match item.terminal {
        Terminal::Integer(value) => Ok((value, item.place, rest)),
        _ => Err(ReadError::Stuck(item.place)),
    }
}

fn compared(sign: Comparison, start: usize, value: u64, place: usize) -> RawNumber
    ensures { number_view result ≡ tree.compared sign start value place }
{
    RawNumber::Compared(sign, start, RawInteger { value, place })
}

/// The number of instances, if one is given.
pub fn number<'a>(
    items: &'a [Item<'a>],
    end: usize,
) -> Result<(RawNumber, &'a [Item<'a>]), ReadError>
    ensures reads { NumberRead (toks items.now) end result }
    ensures shorter { IfOk result (λ p. length p.1.now ≤ length items.now) }
{
    let Some((item, rest)) = split(items) else {
        return Err(ReadError::Stuck(end));
    };
    match item.terminal {
        Terminal::Word => Ok((RawNumber::Any, items)),
        Terminal::Integer(value) => {
            let given = RawInteger {
                value,
                place: item.place,
            };
            Ok((RawNumber::Exactly(given), rest))
        }
        Terminal::Compare(sign) => match sign {
            Comparison::NotEqual => Err(ReadError::Stuck(item.place)),
            _ => {
                let (value, place, last) = integer(rest, end)?;
                Ok((compared(sign, item.place, value, place), last))
            }
        },
        _ => Err(ReadError::Stuck(item.place)),
    }
}
