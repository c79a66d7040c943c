//! The structure, and how a theory, a structure and a term begin.
ghost use Rattle.std.specs.Prelude.{◌≡◌, ◌∷◌, ◌≤◌, ◌<◌, length, IfOk, IfSome, IfNone};
ghost use Rattle.std.specs.Option.{option_map};
ghost use Rattle.grammar.specs.BlockTrees as tree;
ghost use Rattle.grammar.specs.View.{name_view};
ghost use Rattle.grammar.specs.BlockView.{mark_of, mark_view, rows_view};
ghost use Rattle.grammar.specs.Terminals.{toks};
ghost use Rattle.grammar.specs.Terminals as terminals;
ghost use Rattle.block_reader.specs.BlockParts.{EndsItem, EndsRow, NoTruth};
ghost use Rattle.token_reader.specs.Signs.{next, Is};
ghost use Rattle.block_reader.specs.BlockReads.{HeaderRead, ElementRead, ItemRead, ItemTailsRead, ItemsRead, ArrowRead};
ghost use Rattle.block_reader.specs.BlockReads.{RowRead, RowTailsRead, RowsRead, ValueRead, EqualRead, EntryRead};
ghost use Rattle.block_reader.specs.BlockReads.{EntriesRead, StructureRead, table_of};
ghost use Rattle.grammar.specs.declared.terminal.Terminal.TheVariants as t;
ghost use Rattle.grammar.specs.declared.terminal.Outer.TheVariants as o;
ghost use Rattle.token_reader.specs.Parts.{NoInteger};
ghost use Rattle.grammar.specs.declared.terminal.Adding.TheVariants.{Minus};
ghost use Rattle.grammar.specs.declared.terminal.Comparison.TheVariants as cmp;

use crate::block_ends::{closes, item_ends, row_ends};
use grammar::{
    Adding, Comparison, Item, ItemTails, Outer, RawElement, RawEntry, RawHeader, RawInteger,
    RawItem, RawItemTail, RawItems, RawMark, RawName, RawRange, RawRow, RawRowTail, RawRows,
    RawStructure, RawTable, RawTo, RawValue, ReadError, Terminal,
};
use sqlite_items::{Boxed, Items};
use std::alloc::Global;
use token_reader::binders::word;
use token_reader::cursor::{Found, place_at, sign, skip, split, start};

/// How a theory, a structure or a term begins, after its word.
pub fn header<'a>(
    alloc: Global,
    with: Outer,
    place: usize,
    items: &'a [Item<'a>],
    end: usize,
) -> Found<'a, RawHeader>
    ensures reads { HeaderRead with (terminals.sign (t.Outer with) place ∷ toks items.now) end result }
    ensures shorter { IfOk result (λ p. length p.1.now ≤ length items.now) }
{
    let (called, rest) = word(alloc, items, end)?;
    let (colon, rest) = sign(Terminal::Colon, rest, end)?;
    let (of, rest) = word(alloc, rest, end)?;
    let (open, last) = sign(Terminal::OpenBrace, rest, end)?;
    let found = RawHeader {
        place,
        name: called,
        colon,
        of,
        open,
    };
    Ok((found, last))
}

// The tokens after an integer, if it is next.
fn integer<'a>(items: &'a [Item<'a>]) -> Option<(RawInteger, &'a [Item<'a>])>
    ensures some { IfSome result (λ p. toks items.now ≡ terminals.sign (t.Integer p.0.value) p.0.place ∷ toks p.1.now) }
    ensures shorter { IfSome result (λ p. length p.1.now < length items.now) }
    ensures none { IfNone result (NoInteger (toks items.now)) }
{
    let (item, rest) = split(items)?;
    match item.terminal {
        Terminal::Integer(value) => {
            let found = RawInteger {
                value,
                place: item.place,
            };
            Some((found, rest))
        }
        _ => None,
    }
}

// An integer after `-`.
fn negative<'a>(place: usize, items: &'a [Item<'a>], end: usize) -> Found<'a, RawElement>
    ensures reads { ElementRead (terminals.sign (t.Add Minus) place ∷ toks items.now) end result }
    ensures shorter { IfOk result (λ p. length p.1.now < length items.now) }
{
    let Some((found, last)) = integer(items) else {
        return Err(ReadError::Stuck(place_at(items, end)));
    };
    Ok((RawElement::Negative(place, found), last))
}

// A word, or an integer with or without `-`.
fn element<'a>(alloc: Global, items: &'a [Item<'a>], end: usize) -> Found<'a, RawElement>
    ensures reads { ElementRead (toks items.now) end result }
    ensures shorter { IfOk result (λ p. length p.1.now < length items.now) }
{
    if let Some((place, behind)) = skip(Terminal::Add(Adding::Minus), items) {
        return negative(place, behind, end);
    }
    if let Some((found, last)) = integer(items) {
        return Ok((RawElement::Integer(found), last));
    }
    let (found, last) = word(alloc, items, end)?;
    Ok((RawElement::Name(found), last))
}

// An element, or a range that begins with it.
fn item<'a>(alloc: Global, items: &'a [Item<'a>], end: usize) -> Found<'a, RawItem>
    ensures reads { ItemRead (toks items.now) end result }
    ensures shorter { IfOk result (λ p. length p.1.now < length items.now) }
{
    let (first, rest) = element(alloc, items, end)?;
    let Some((place, behind)) = skip(Terminal::Outer(Outer::Range), rest) else {
        item_ends(rest, end)?;
        return Ok((RawItem { first, to: None }, rest));
    };
    let (last, behind) = element(alloc, behind, end)?;
    item_ends(behind, end)?;
    let to = Some(Boxed::new(alloc, RawRange { place, last })?);
    Ok((RawItem { first, to }, behind))
}

// The commas that come, with an item after each.
fn item_tails<'a>(alloc: Global, items: &'a [Item<'a>], end: usize) -> Found<'a, ItemTails>
    requires { EndsItem (next (toks items.now)) }
    ensures reads { ItemTailsRead (toks items.now) end result }
    ensures shorter { IfOk result (λ p. length p.1.now ≤ length items.now) }
{
    let (_count, mut rest) = start(items);
    let mut more = ItemTails::new();
    while let Some((place, behind)) = skip(Terminal::Comma, rest) {
        let (item, last) = item(alloc, behind, end)?;
        more.push(alloc, RawItemTail { place, item })?;
        rest = last;
    }
    Ok((more, rest))
}

// Items between commas.
fn row_items<'a>(alloc: Global, items: &'a [Item<'a>], end: usize) -> Found<'a, RawItems>
    ensures reads { ItemsRead (toks items.now) end result }
    ensures shorter { IfOk result (λ p. length p.1.now < length items.now) }
{
    let (first, rest) = item(alloc, items, end)?;
    let (more, last) = item_tails(alloc, rest, end)?;
    Ok((RawItems { first, more }, last))
}

// The arrow and its element, if there is one, at the end of a row.
fn arrow<'a>(alloc: Global, items: &'a [Item<'a>], end: usize) -> Found<'a, Option<Boxed<RawTo>>>
    ensures reads { ArrowRead (toks items.now) end result }
    ensures shorter { IfOk result (λ p. length p.1.now ≤ length items.now) }
{
    let Some((place, behind)) = skip(Terminal::Outer(Outer::To), items) else {
        row_ends(items, end)?;
        return Ok((None, items));
    };
    let (element, last) = element(alloc, behind, end)?;
    row_ends(last, end)?;
    Ok((Some(Boxed::new(alloc, RawTo { place, element })?), last))
}

// A row in brackets, after the opening one.
fn bracketed<'a>(
    alloc: Global,
    begin: usize,
    items: &'a [Item<'a>],
    end: usize,
) -> Found<'a, RawRow>
    ensures reads { RowRead (terminals.sign t.Open begin ∷ toks items.now) end result }
    ensures shorter { IfOk result (λ p. length p.1.now ≤ length items.now) }
{
    let (found, rest) = row_items(alloc, items, end)?;
    let (close, rest) = sign(Terminal::Close, rest, end)?;
    let (to, last) = arrow(alloc, rest, end)?;
    Ok((RawRow::Bracketed(begin, found, close, to), last))
}

// A row that is an arrow and an element, after the arrow.
fn lone<'a>(alloc: Global, place: usize, items: &'a [Item<'a>], end: usize) -> Found<'a, RawRow>
    ensures reads { RowRead (terminals.sign (t.Outer o.To) place ∷ toks items.now) end result }
    ensures shorter { IfOk result (λ p. length p.1.now ≤ length items.now) }
{
    let (element, last) = element(alloc, items, end)?;
    row_ends(last, end)?;
    Ok((RawRow::Only(RawTo { place, element }), last))
}

// A row that begins with an item.
fn plain<'a>(alloc: Global, items: &'a [Item<'a>], end: usize) -> Found<'a, RawRow>
    ensures reads { (Is t.Open (next (toks items.now)) → ⊥) → (Is (t.Outer o.To) (next (toks items.now)) → ⊥)
        → RowRead (toks items.now) end result }
    ensures shorter { IfOk result (λ p. length p.1.now < length items.now) }
{
    let (found, rest) = row_items(alloc, items, end)?;
    let (to, last) = arrow(alloc, rest, end)?;
    Ok((RawRow::Plain(found, to), last))
}

// A row, with what may follow one after it.
fn row<'a>(alloc: Global, items: &'a [Item<'a>], end: usize) -> Found<'a, RawRow>
    ensures reads { RowRead (toks items.now) end result }
    ensures shorter { IfOk result (λ p. length p.1.now < length items.now) }
{
    if let Some((begin, behind)) = skip(Terminal::Open, items) {
        return bracketed(alloc, begin, behind, end);
    }
    match skip(Terminal::Outer(Outer::To), items) {
        Some((place, behind)) => lone(alloc, place, behind, end),
        None => plain(alloc, items, end),
    }
}

// The semicolons that come, with a row after each; the last one may stand alone.
fn row_tails<'a>(
    alloc: Global,
    items: &'a [Item<'a>],
    end: usize,
) -> Found<'a, (Items<RawRowTail>, Option<usize>)>
    requires { EndsRow (next (toks items.now)) }
    ensures reads { RowTailsRead (toks items.now) end result }
    ensures shorter { IfOk result (λ p. length p.1.now ≤ length items.now) }
{
    let (_count, mut rest) = start(items);
    let mut more = Items::new(alloc);
    while let Some((place, behind)) = skip(Terminal::Outer(Outer::Semicolon), rest) {
        if closes(behind) {
            return Ok(((more, Some(place)), behind));
        }
        let (row, last) = row(alloc, behind, end)?;
        more.push(RawRowTail { place, row })?;
        rest = last;
    }
    Ok(((more, None), rest))
}

// Rows in braces, after the opening one.
fn table<'a>(alloc: Global, begin: usize, items: &'a [Item<'a>], end: usize) -> Found<'a, RawValue>
    ensures reads { ValueRead (terminals.sign t.OpenBrace begin ∷ toks items.now) end result }
    ensures shorter { IfOk result (λ p. length p.1.now ≤ length items.now) }
{
    if let Some((close, last)) = skip(Terminal::CloseBrace, items) {
        return Ok((RawValue::Table(filled(begin, None, close)), last));
    }
    let (first, rest) = row(alloc, items, end)?;
    let (tails, rest) = row_tails(alloc, rest, end)?;
    let (more, semicolon) = tails;
    let (close, last) = sign(Terminal::CloseBrace, rest, end)?;
    let rows = RawRows {
        first,
        more,
        last: semicolon,
    };
    Ok((RawValue::Table(filled(begin, Some(rows), close)), last))
}

fn filled(begin: usize, rows: Option<RawRows>, close: usize) -> RawTable
    ensures { table_of result ≡ tree.table begin (option_map rows_view rows) close }
{
    RawTable {
        open: begin,
        rows,
        close,
    }
}

// What a name is given.
fn value<'a>(alloc: Global, items: &'a [Item<'a>], end: usize) -> Found<'a, RawValue>
    ensures reads { ValueRead (toks items.now) end result }
    ensures shorter { IfOk result (λ p. length p.1.now < length items.now) }
{
    if let Some((begin, behind)) = skip(Terminal::OpenBrace, items) {
        return table(alloc, begin, behind, end);
    }
    if let Some((value, place, behind)) = truth(items) {
        return Ok((RawValue::Truth(value, place), behind));
    }
    let (found, last) = element(alloc, items, end)?;
    Ok((RawValue::Element(found), last))
}

fn truth<'a>(items: &'a [Item<'a>]) -> Option<(bool, usize, &'a [Item<'a>])>
    ensures some { IfSome result (λ p. toks items.now ≡ terminals.sign (t.Truth p.0) p.1 ∷ toks p.2.now) }
    ensures shorter { IfSome result (λ p. length p.2.now < length items.now) }
    ensures none { IfNone result (NoTruth (next (toks items.now))) }
{
    let (item, rest) = split(items)?;
    match item.terminal {
        Terminal::Truth(value) => Some((value, item.place, rest)),
        _ => None,
    }
}

// A mark, after its `<`, and the `=` after it.
fn mark<'a>(
    alloc: Global,
    begin: usize,
    items: &'a [Item<'a>],
    end: usize,
) -> Found<'a, (Option<RawMark>, usize)>
    ensures reads { EqualRead (terminals.sign (t.Compare cmp.Less) begin ∷ toks items.now) end result }
    ensures shorter { IfOk result (λ p. length p.1.now ≤ length items.now) }
{
    let (found, rest) = word(alloc, items, end)?;
    if let Some((place, last)) = skip(Terminal::Compare(Comparison::AtLeast), rest) {
        return Ok(((Some(marked(begin, found, None)), place), last));
    }
    let (close, rest) = sign(Terminal::Compare(Comparison::Greater), rest, end)?;
    let (place, last) = sign(Terminal::Compare(Comparison::Equal), rest, end)?;
    Ok(((Some(marked(begin, found, Some(close))), place), last))
}

fn marked(begin: usize, name: RawName, close: Option<usize>) -> RawMark
    ensures { mark_view result ≡ mark_of begin (name_view name) close }
{
    RawMark {
        open: begin,
        name,
        close,
    }
}

// The mark of an entry, if there is one, and `=`.
fn equal<'a>(
    alloc: Global,
    items: &'a [Item<'a>],
    end: usize,
) -> Found<'a, (Option<RawMark>, usize)>
    ensures reads { EqualRead (toks items.now) end result }
    ensures shorter { IfOk result (λ p. length p.1.now < length items.now) }
{
    if let Some((begin, behind)) = skip(Terminal::Compare(Comparison::Less), items) {
        return mark(alloc, begin, behind, end);
    }
    let (place, last) = sign(Terminal::Compare(Comparison::Equal), items, end)?;
    Ok(((None, place), last))
}

// What a structure says of one name.
fn entry<'a>(alloc: Global, items: &'a [Item<'a>], end: usize) -> Found<'a, RawEntry>
    ensures reads { EntryRead (toks items.now) end result }
    ensures shorter { IfOk result (λ p. length p.1.now < length items.now) }
{
    let (name, rest) = word(alloc, items, end)?;
    let (given, rest) = equal(alloc, rest, end)?;
    let (mark, equal) = given;
    let (value, last) = value(alloc, rest, end)?;
    let found = RawEntry {
        name,
        mark,
        equal,
        value,
    };
    Ok((found, last))
}

// Entries up to the closing brace.
fn entries<'a>(alloc: Global, items: &'a [Item<'a>], end: usize) -> Found<'a, Items<RawEntry>>
    ensures reads { EntriesRead (toks items.now) end result }
    ensures shorter { IfOk result (λ p. length p.1.now ≤ length items.now) }
{
    let (_count, mut rest) = start(items);
    let mut found = Items::new(alloc);
    'entries: while !closes(rest) {
        let (next, last) = entry(alloc, rest, end)?;
        found.push(next)?;
        rest = last;
    }
    Ok((found, rest))
}

/// A structure, after its word.
pub fn structure<'a>(
    alloc: Global,
    place: usize,
    items: &'a [Item<'a>],
    end: usize,
) -> Found<'a, RawStructure>
    ensures reads { StructureRead (terminals.sign (t.Outer o.Structure) place ∷ toks items.now) end result }
    ensures shorter { IfOk result (λ p. length p.1.now ≤ length items.now) }
{
    let (header, rest) = header(alloc, Outer::Structure, place, items, end)?;
    let (entries, rest) = entries(alloc, rest, end)?;
    let (close, last) = sign(Terminal::CloseBrace, rest, end)?;
    let found = RawStructure {
        header,
        entries,
        close,
    };
    Ok((found, last))
}
