//! What may come next in a block.
ghost use Rattle.std.specs.Prelude.{◌≡◌, true, false};
ghost use Rattle.grammar.specs.Terminals.{toks};
ghost use Rattle.token_reader.specs.Signs.{next, No, Is};
ghost use Rattle.block_reader.specs.BlockParts.{EndsAs, EndsDeclaration, EndsArguments, EndsItem, EndsRow, EndsHead};
ghost use Rattle.grammar.specs.declared.terminal.Terminal.TheVariants as t;

use grammar::{Item, Outer, ReadError, Terminal};
use token_reader::cursor::{skip, split};

/// Whether a closing brace comes.
pub fn closes(items: &[Item<'_>]) -> bool
    ensures yes { result ≡ true → Is t.CloseBrace (next (toks items.now)) }
    ensures no { result ≡ false → No t.CloseBrace (next (toks items.now)) }
{
    match skip(Terminal::CloseBrace, items) {
        Some((_place, _rest)) => true,
        None => false,
    }
}

/// A declaration has to end here.
pub fn declaration_ends(items: &[Item<'_>], end: usize) -> Result<(), ReadError>
    ensures { EndsAs EndsDeclaration (toks items.now) end result }
{
    let Some((item, _rest)) = split(items) else {
        return Err(ReadError::Stuck(end));
    };
    match item.terminal {
        Terminal::CloseBrace | Terminal::Outer(Outer::Type) | Terminal::Word => Ok(()),
        _ => Err(ReadError::Stuck(item.place)),
    }
}

/// The arguments of a symbol have to end here.
pub fn arguments_end(items: &[Item<'_>], end: usize) -> Result<(), ReadError>
    ensures { EndsAs EndsArguments (toks items.now) end result }
{
    match skip(Terminal::Colon, items) {
        Some((_place, _rest)) => Ok(()),
        None => declaration_ends(items, end),
    }
}

/// A head has to end here.
pub fn head_ends(items: &[Item<'_>], end: usize) -> Result<(), ReadError>
    ensures { EndsAs EndsHead (toks items.now) end result }
{
    let Some((item, _rest)) = split(items) else {
        return Err(ReadError::Stuck(end));
    };
    match item.terminal {
        Terminal::Outer(Outer::If) | Terminal::Outer(Outer::Dot) => Ok(()),
        _ => Err(ReadError::Stuck(item.place)),
    }
}

/// A row has to end here.
pub fn row_ends(items: &[Item<'_>], end: usize) -> Result<(), ReadError>
    ensures { EndsAs EndsRow (toks items.now) end result }
{
    let Some((item, _rest)) = split(items) else {
        return Err(ReadError::Stuck(end));
    };
    match item.terminal {
        Terminal::CloseBrace | Terminal::Outer(Outer::Semicolon) => Ok(()),
        _ => Err(ReadError::Stuck(item.place)),
    }
}

/// An item of a row has to end here.
pub fn item_ends(items: &[Item<'_>], end: usize) -> Result<(), ReadError>
    ensures { EndsAs EndsItem (toks items.now) end result }
{
    let Some((item, _rest)) = split(items) else {
        return Err(ReadError::Stuck(end));
    };
    match item.terminal {
        Terminal::Comma | Terminal::Close | Terminal::Outer(Outer::To) => Ok(()),
        _ => row_ends(items, end),
    }
}
