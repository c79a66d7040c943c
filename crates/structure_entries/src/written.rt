//! Entries.
use crate::rows::Row;
use crate::subjects::Subject;
use grammar::RawName;

/// An entry: its word, what this names, its mark, whether its value is of the form that is asked for, and its rows.
#[derive(Drop)]
pub struct Entry<'a> {
    pub word: &'a RawName,
    pub subject: Subject<'a>,
    pub mark: Option<&'a RawName>,
    pub fits: bool,
    pub rows: Vec<Row<'a>>,
}
