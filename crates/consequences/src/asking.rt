//! What is asked.
use lit_core::{Lit, Values};

/// Which of the literals `ask` are true wherever the problem and the literals `assume` hold.
#[derive(Clone, Copy)]
pub struct Question<'a> {
    pub assume: &'a [Lit],
    pub ask: &'a [Lit],
    /// Values of the ground atoms, each of a valuation that satisfies the problem and what is assumed.
    pub seen: &'a [Values],
    /// So many of the first variables are those of ground atoms. Their values in `seen` spare searches.
    pub atoms: u64,
}
