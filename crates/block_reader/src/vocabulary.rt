//! The vocabulary.
ghost use Rattle.std.specs.Prelude.{◌≡◌, ◌∷◌, ◌≤◌, ◌<◌, length, IfOk, IfSome, IfNone, None};
ghost use Rattle.std.specs.Option.{option_map};
ghost use Rattle.grammar.specs.Terminals.{toks};
ghost use Rattle.grammar.specs.Terminals as terminals;
ghost use Rattle.grammar.specs.Spelling.{put_name};
ghost use Rattle.grammar.specs.View.{name_view};
ghost use Rattle.grammar.specs.BlockTrees as tree;
ghost use Rattle.grammar.specs.BlockView.{positions_view, declaration_view};
ghost use Rattle.grammar.specs.BlockSpelling.{separator};
ghost use Rattle.block_reader.specs.BlockParts.{EndsDeclaration, NoSeparator};
ghost use Rattle.token_reader.specs.Signs.{next, Is, IsSign};
ghost use Rattle.block_reader.specs.BlockReads.{NameTailsRead, PositionsRead, ArgumentsOf, NamedRead, ElementTailsRead};
ghost use Rattle.block_reader.specs.BlockReads.{DeclarationRead, DeclarationsRead, VocabularyRead, FromRead};
ghost use Rattle.block_reader.specs.BlockReads.{placed_name};
ghost use Rattle.grammar.specs.declared.terminal.Terminal.TheVariants as t;
ghost use Rattle.grammar.specs.declared.terminal.Outer.TheVariants as o;

use crate::block_ends::{arguments_end, closes, declaration_ends};
use grammar::{
    Item, Outer, RawConstructed, RawDeclaration, RawElementTail, RawIsa, RawName, RawNameTail,
    RawNames, RawPositions, RawResult, RawSymbol, RawType, RawVocabulary, ReadError, Separator,
    Terminal,
};
use sqlite_items::Items;
use std::alloc::Global;
use token_reader::binders::word;
use token_reader::cursor::{Found, sign, skip, split, start};

// The commas that come, with a name after each.
fn name_tails<'a>(alloc: Global, items: &'a [Item<'a>], end: usize) -> Found<'a, Items<RawNameTail>>
    ensures reads { NameTailsRead (toks items.now) end result }
    ensures shorter { IfOk result (λ p. length p.1.now ≤ length items.now) }
{
    let (_count, mut rest) = start(items);
    let mut more = Items::new(alloc);
    while let Some((place, behind)) = skip(Terminal::Comma, rest) {
        let (name, last) = word(alloc, behind, end)?;
        more.push(RawNameTail { place, name })?;
        rest = last;
    }
    Ok((more, rest))
}

fn empty(begin: usize, close: usize) -> RawPositions
    ensures { positions_view result ≡ tree.positions begin None close }
{
    RawPositions {
        open: begin,
        names: None,
        close,
    }
}

// The types of arguments, after the opening bracket.
fn positions<'a>(
    alloc: Global,
    begin: usize,
    items: &'a [Item<'a>],
    end: usize,
) -> Found<'a, RawPositions>
    ensures reads { PositionsRead (terminals.sign t.Open begin ∷ toks items.now) end result }
    ensures shorter { IfOk result (λ p. length p.1.now ≤ length items.now) }
{
    if let Some((close, last)) = skip(Terminal::Close, items) {
        return Ok((empty(begin, close), last));
    }
    let (first, rest) = word(alloc, items, end)?;
    let (more, rest) = name_tails(alloc, rest, end)?;
    let (close, last) = sign(Terminal::Close, rest, end)?;
    let found = RawPositions {
        open: begin,
        names: Some(RawNames { first, more }),
        close,
    };
    Ok((found, last))
}

// The types of arguments, if there are any.
fn arguments<'a>(
    alloc: Global,
    items: &'a [Item<'a>],
    end: usize,
) -> Found<'a, Option<RawPositions>>
    ensures reads { ArgumentsOf (toks items.now) end result }
    ensures shorter { IfOk result (λ p. length p.1.now ≤ length items.now) }
{
    let Some((begin, behind)) = skip(Terminal::Open, items) else {
        arguments_end(items, end)?;
        return Ok((None, items));
    };
    let (found, rest) = positions(alloc, begin, behind, end)?;
    arguments_end(rest, end)?;
    Ok((Some(found), rest))
}

// This sign and a name after it, if it comes, at the end of a declaration.
fn named<'a>(
    alloc: Global,
    with: Terminal,
    items: &'a [Item<'a>],
    end: usize,
) -> Found<'a, Option<(usize, RawName)>>
    requires sign { IsSign with }
    requires brace { with ≡ t.CloseBrace → ⊥ }
    requires another { with ≡ t.Outer o.Type → ⊥ }
    ensures reads { NamedRead with (toks items.now) end result }
    ensures shorter { IfOk result (λ p. length p.1.now ≤ length items.now) }
{
    let Some((place, behind)) = skip(with, items) else {
        declaration_ends(items, end)?;
        return Ok((None, items));
    };
    let (found, rest) = word(alloc, behind, end)?;
    declaration_ends(rest, end)?;
    Ok((Some((place, found)), rest))
}

// The tokens after a comma or a semicolon, if it is next.
fn separated<'a>(items: &'a [Item<'a>]) -> Option<(Separator, usize, &'a [Item<'a>])>
    ensures some { IfSome result (λ p. toks items.now ≡ terminals.sign (separator p.0) p.1 ∷ toks p.2.now) }
    ensures shorter { IfSome result (λ p. length p.2.now < length items.now) }
    ensures none { IfNone result (NoSeparator (next (toks items.now))) }
{
    let (item, rest) = split(items)?;
    match item.terminal {
        Terminal::Comma => Some((Separator::Comma, item.place, rest)),
        Terminal::Outer(Outer::Semicolon) => Some((Separator::Semicolon, item.place, rest)),
        _ => None,
    }
}

// The further names of a constructed type, up to the closing brace.
fn element_tails<'a>(
    alloc: Global,
    items: &'a [Item<'a>],
    end: usize,
) -> Found<'a, Items<RawElementTail>>
    ensures reads { ElementTailsRead (toks items.now) end result }
    ensures shorter { IfOk result (λ p. length p.1.now ≤ length items.now) }
{
    let (_count, mut rest) = start(items);
    let mut more = Items::new(alloc);
    while let Some((sign, place, behind)) = separated(rest) {
        let (name, last) = word(alloc, behind, end)?;
        more.push(RawElementTail { sign, place, name })?;
        rest = last;
    }
    let (_close, _behind) = sign(Terminal::CloseBrace, rest, end)?;
    Ok((more, rest))
}

// The word "from", which is reserved nowhere else.
fn from_word<'a>(items: &'a [Item<'a>], end: usize) -> Found<'a, usize>
    ensures reads { FromRead (toks items.now) end result }
    ensures shorter { IfOk result (λ p. length p.1.now < length items.now) }
{
    let Some((item, rest)) = split(items) else {
        return Err(ReadError::Stuck(end));
    };
    match item.terminal {
        Terminal::Word => {
            if item.text == b"from".as_slice() {
                Ok((item.place, rest))
            } else {
                Err(ReadError::Stuck(item.place))
            }
        }
        _ => Err(ReadError::Stuck(item.place)),
    }
}

// A type that is constructed from names, after "constructed".
fn construction<'a>(
    alloc: Global,
    place: usize,
    named: RawName,
    constructed: usize,
    items: &'a [Item<'a>],
    end: usize,
) -> Found<'a, RawDeclaration>
    ensures reads { DeclarationRead (terminals.sign (t.Outer o.Type) place ∷ put_name (name_view named)
        (terminals.sign (t.Outer o.Constructed) constructed ∷ toks items.now)) end result }
    ensures shorter { IfOk result (λ p. length p.1.now ≤ length items.now) }
{
    let (from, rest) = from_word(items, end)?;
    let (open, rest) = sign(Terminal::OpenBrace, rest, end)?;
    let (first, rest) = word(alloc, rest, end)?;
    let (more, rest) = element_tails(alloc, rest, end)?;
    let (close, last) = sign(Terminal::CloseBrace, rest, end)?;
    declaration_ends(last, end)?;
    let found = RawConstructed {
        place,
        name: named,
        constructed,
        from,
        open,
        first,
        more,
        close,
    };
    Ok((RawDeclaration::Constructed(found), last))
}

// A declaration of a type, after its word.
fn type_declaration<'a>(
    alloc: Global,
    place: usize,
    items: &'a [Item<'a>],
    end: usize,
) -> Found<'a, RawDeclaration>
    ensures reads { DeclarationRead (terminals.sign (t.Outer o.Type) place ∷ toks items.now) end result }
    ensures shorter { IfOk result (λ p. length p.1.now ≤ length items.now) }
{
    let (name, rest) = word(alloc, items, end)?;
    if let Some((constructed, behind)) = skip(Terminal::Outer(Outer::Constructed), rest) {
        return construction(alloc, place, name, constructed, behind, end);
    }
    let (isa, last) = named(alloc, Terminal::Outer(Outer::Isa), rest, end)?;
    Ok((typed(place, name, isa), last))
}

fn typed(place: usize, name: RawName, isa: Option<(usize, RawName)>) -> RawDeclaration
    ensures { declaration_view result ≡ tree.type_of place (name_view name) (option_map placed_name isa) }
{
    let isa = match isa {
        Some((place, name)) => Some(RawIsa { place, name }),
        None => None,
    };
    RawDeclaration::Type(RawType { place, name, isa })
}

fn symbol_of(
    name: RawName,
    arguments: Option<RawPositions>,
    given: Option<(usize, RawName)>,
) -> RawDeclaration
    ensures { declaration_view result ≡ tree.symbol (name_view name) (option_map positions_view arguments)
        (option_map placed_name given) }
{
    let result = match given {
        Some((place, name)) => Some(RawResult { place, name }),
        None => None,
    };
    RawDeclaration::Symbol(RawSymbol {
        name,
        arguments,
        result,
    })
}

// A declaration of a predicate or a function.
fn symbol<'a>(alloc: Global, items: &'a [Item<'a>], end: usize) -> Found<'a, RawDeclaration>
    ensures reads { (Is (t.Outer o.Type) (next (toks items.now)) → ⊥) → DeclarationRead (toks items.now) end result }
    ensures shorter { IfOk result (λ p. length p.1.now < length items.now) }
{
    let (name, rest) = word(alloc, items, end)?;
    let (arguments, rest) = arguments(alloc, rest, end)?;
    let (given, last) = named(alloc, Terminal::Colon, rest, end)?;
    Ok((symbol_of(name, arguments, given), last))
}

// A declaration.
fn declaration<'a>(alloc: Global, items: &'a [Item<'a>], end: usize) -> Found<'a, RawDeclaration>
    ensures reads { DeclarationRead (toks items.now) end result }
    ensures shorter { IfOk result (λ p. length p.1.now < length items.now) }
{
    match skip(Terminal::Outer(Outer::Type), items) {
        Some((place, behind)) => type_declaration(alloc, place, behind, end),
        None => symbol(alloc, items, end),
    }
}

// Declarations up to the closing brace.
fn declarations<'a>(
    alloc: Global,
    items: &'a [Item<'a>],
    end: usize,
) -> Found<'a, Items<RawDeclaration>>
    ensures reads { DeclarationsRead (toks items.now) end result }
    ensures shorter { IfOk result (λ p. length p.1.now ≤ length items.now) }
{
    let (_count, mut rest) = start(items);
    let mut found = Items::new(alloc);
    'declarations: while !closes(rest) {
        let (next, last) = declaration(alloc, rest, end)?;
        found.push(next)?;
        rest = last;
    }
    Ok((found, rest))
}

/// A vocabulary, after its word.
pub fn vocabulary<'a>(
    alloc: Global,
    place: usize,
    items: &'a [Item<'a>],
    end: usize,
) -> Found<'a, RawVocabulary>
    ensures reads { VocabularyRead (terminals.sign (t.Outer o.Vocabulary) place ∷ toks items.now) end result }
    ensures shorter { IfOk result (λ p. length p.1.now ≤ length items.now) }
{
    let (name, rest) = word(alloc, items, end)?;
    let (open, rest) = sign(Terminal::OpenBrace, rest, end)?;
    let (declarations, rest) = declarations(alloc, rest, end)?;
    let (close, last) = sign(Terminal::CloseBrace, rest, end)?;
    let found = RawVocabulary {
        place,
        name,
        open,
        declarations,
        close,
    };
    Ok((found, last))
}
