//! Whole texts that are one formula or one term.
ghost use Rattle.grammar.specs.Terminals.{toks};
ghost use Rattle.grammar.specs.Spelling.{put_formula, put_term};
ghost use Rattle.grammar.specs.Fine.{FineFormula, FineTerm};
ghost use Rattle.grammar.specs.View.{formula_view, term_view};
ghost use Rattle.grammar.specs.Whole.{Answers, Parses};

use crate::nested::{formula, term};
use grammar::{Item, KbError, RawFormula, RawTermTree, ReadError};
use std::alloc::Global;
use token_reader::cursor::split;
use token_reader::items::items;

fn only_formula<'a>(alloc: Global, items: &'a [Item<'a>], end: usize) -> Result<RawFormula, KbError>
    ensures { Parses formula_view put_formula FineFormula (toks items.now) end result }
{
    let (found, rest) = formula(alloc, items, end)?;
    let Some((item, _after)) = split(rest) else {
        return Ok(found.into_inner());
    };
    Err(KbError::from(ReadError::Stuck(item.place)))
}

fn only_term<'a>(alloc: Global, items: &'a [Item<'a>], end: usize) -> Result<RawTermTree, KbError>
    ensures { Parses term_view put_term FineTerm (toks items.now) end result }
{
    let (found, rest) = term(alloc, items, end)?;
    let Some((extra, _after)) = split(rest) else {
        return Ok(found.into_inner());
    };
    Err(KbError::from(ReadError::Stuck(extra.place)))
}

/// The formula that the whole text is; else the first refusal.
///
/// A refusal of the grammar stands at the first token such that the tokens up to it and with it begin no formula; the
/// end of the text counts as a last token.
pub fn read_formula(alloc: Global, src: &[u8]) -> Result<RawFormula, KbError>
    ensures { Answers formula_view put_formula FineFormula src.now result }
{
    match items(alloc, src) {
        Ok(found) => only_formula(alloc, &found, src.len()),
        Err(e) => Err(e),
    }
}

/// The term that the whole text is; else the first refusal, as of a formula.
pub fn read_term(alloc: Global, src: &[u8]) -> Result<RawTermTree, KbError>
    ensures { Answers term_view put_term FineTerm src.now result }
{
    match items(alloc, src) {
        Ok(found) => only_term(alloc, &found, src.len()),
        Err(e) => Err(e),
    }
}
