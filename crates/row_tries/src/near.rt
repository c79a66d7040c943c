//! Where the row before led, since rows are mostly written in order.
//!
//! What stands here is only where to look first. Each place is compared before it is used, so nothing rests on it.

/// How many of the first elements of a row are noted.
const COLUMNS: usize = 8;

/// The numbers of the words of the row before, and the node of its symbol.
#[derive(Drop)]
pub(crate) struct Near {
    words: [usize; COLUMNS],
    pub root: usize,
}

impl Near {
    /// No row before.
    pub fn new() -> Near {
        Near {
            words: [0; COLUMNS],
            root: 0,
        }
    }

    /// The number of the word that stood in this column.
    pub fn word(&self, column: usize) -> usize {
        match self.words.get(column) {
            Some(number) => *number,
            None => 0,
        }
    }

    /// Notes the number of the word that stands in this column.
    pub fn note_word(&mut self, column: usize, number: usize) {
        if let Some(place) = self.words.get_mut(column) {
            *place = number;
        }
    }
}
