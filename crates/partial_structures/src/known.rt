//! What is known, as it is lent to an evaluator.
ghost use Rattle.partial_structures.specs.Elements.{labels_in, TellsElements};
ghost use Rattle.row_tries.specs.Words.{words_in};

use crate::elements::Elements;
use kb_logic::{ElemList, Symbol};
use row_tries::Rows;

/// The parts of a partial structure that say what is known.
#[derive(Clone, Copy)]
pub struct Known<'a> {
    pub symbols: &'a [Symbol],
    pub domains: &'a [ElemList],
    pub(crate) closed: &'a [bool],
    pub(crate) rows: &'a Rows,
    pub(crate) elements: &'a Elements,
    ghost hashed: { TellsElements (words_in rows.now.words) domains.now (labels_in elements.now) },
}
