//! The file: its blocks by kind.
ghost use Rattle.std.specs.Prelude.{◌≡◌, ◌∷◌, [], ◌++◌, ◌<◌, ℕ, List, None, length, IfOk, true, false};
ghost use Rattle.grammar.specs.Terminals.{toks};
ghost use Rattle.grammar.specs.BlockTrees.{Block};
ghost use Rattle.grammar.specs.BlockView.{IsKb};
ghost use Rattle.token_reader.specs.Signs.{next};
ghost use Rattle.fo_reader.specs.FileResults.{BlockRead, FileRead, block_view};
ghost use Rattle.grammar.specs.FileReads.{KbRead};

use crate::theory::{term_block, theory};
use block_reader::structure::structure;
use block_reader::vocabulary::vocabulary;
use grammar::{
    Item, KbError, Outer, RawKb, RawStructure, RawTerm, RawTheory, RawVocabulary, ReadError,
    Terminal,
};
use kb_text::{K, KbFault};
use sqlite_items::Items;
use std::alloc::{AllocError, Global};
use token_reader::cursor::{Found, place_at, skip, split, start};
use token_reader::items::items;

const LONGEST: usize = 4_194_304;

/// A block of a file; of a procedure its place.
#[derive(Drop)]
pub enum RawBlock {
    Vocabulary(RawVocabulary),
    Theory(RawTheory),
    Structure(RawStructure),
    Term(RawTerm),
    Procedure(usize),
}

// A block.
fn block<'a>(alloc: Global, items: &'a [Item<'a>], end: usize) -> Found<'a, RawBlock>
    ensures reads { BlockRead (toks items.now) end result }
    ensures shorter { IfOk result (λ p. length p.1.now < length items.now) }
{
    if let Some((place, behind)) = skip(Terminal::Outer(Outer::Vocabulary), items) {
        let (vocabulary, last) = vocabulary(alloc, place, behind, end)?;
        return Ok((RawBlock::Vocabulary(vocabulary), last));
    }
    if let Some((place, behind)) = skip(Terminal::Outer(Outer::Theory), items) {
        let (theory, last) = theory(alloc, place, behind, end)?;
        return Ok((RawBlock::Theory(theory), last));
    }
    if let Some((place, behind)) = skip(Terminal::Outer(Outer::Structure), items) {
        let (structure, last) = structure(alloc, place, behind, end)?;
        return Ok((RawBlock::Structure(structure), last));
    }
    if let Some((place, behind)) = skip(Terminal::Outer(Outer::Term), items) {
        let (term, last) = term_block(alloc, place, behind, end)?;
        return Ok((RawBlock::Term(term), last));
    }
    match skip(Terminal::Outer(Outer::Procedure), items) {
        Some((place, last)) => Ok((RawBlock::Procedure(place), last)),
        None => Err(ReadError::Stuck(place_at(items, end))),
    }
}

// Whether the text ends here.
fn ends(items: &[Item<'_>]) -> bool
    ensures yes { result ≡ true → toks items.now ≡ [] }
    ensures no { result ≡ false → next (toks items.now) ≡ None → ⊥ }
{
    match split(items) {
        Some((_item, _rest)) => false,
        None => true,
    }
}

// No blocks, of a text of this length.
fn empty(alloc: Global, end: usize) -> RawKb
    ensures { IsKb [] end result }
{
    RawKb {
        vocabularies: Items::new(alloc),
        theories: Items::new(alloc),
        structures: Items::new(alloc),
        terms: Items::new(alloc),
        end,
    }
}

// One block more, among those of its kind.
fn add(kb: &mut RawKb, next: RawBlock) -> Result<(), AllocError>
    ensures { IfOk result (λ u. (blocks : List Block) (len : ℕ) → IsKb blocks len kb.old
        → IsKb (blocks ++ block_view next ∷ []) len kb.new) }
{
    match next {
        RawBlock::Vocabulary(found) => kb.vocabularies.push(found),
        RawBlock::Theory(found) => kb.theories.push(found),
        RawBlock::Structure(found) => kb.structures.push(found),
        RawBlock::Term(found) => kb.terms.push(found),
        RawBlock::Procedure(_place) => Ok(()),
    }
}

// The blocks of a file whose tokens are these.
fn file(alloc: Global, items: &[Item<'_>], end: usize) -> Result<RawKb, KbError>
    ensures { FileRead (toks items.now) end result }
{
    let (_count, mut rest) = start(items);
    let mut kb = empty(alloc, end);
    'turns: while !ends(rest) {
        let (next, last) = block(alloc, rest, end)?;
        add(&mut kb, next)?;
        rest = last;
    }
    Ok(kb)
}

/// The blocks of the file that the whole text is, by kind; else the first refusal.
///
/// A text of more than 4,194,304 bytes is refused at the first byte past them (`K::TooLong`). A refusal of the grammar
/// (`K::Syntax`) stands at the first token such that the tokens up to it and with it begin no file; the end of the
/// text counts as a last token. Procedures are read and left out.
pub fn read_kb(alloc: Global, src: &[u8]) -> Result<RawKb, KbError>
    ensures { KbRead src.now result }
{
    if src.len() > LONGEST {
        return Err(KbError::Refused(KbFault {
            cause: K::TooLong,
            place: LONGEST,
        }));
    }
    match items(alloc, src) {
        Ok(found) => file(alloc, &found, src.len()),
        Err(e) => Err(e),
    }
}
