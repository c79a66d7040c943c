//! Rows as keys of a table.
use data_refusals::labels::Label;

/// A symbol with arguments, and with a value where it is that of a function's atom.
#[derive(PartialEq, Eq, Hash, Drop)]
pub struct Key<'a> {
    pub symbol: usize,
    pub args: Vec<Label<'a>>,
    pub value: Option<Label<'a>>,
}
