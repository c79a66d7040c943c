//! The bytes of a word.
ghost use Rattle.std.specs.Prelude.{◌≡◌, IfOk};

use sqlite_items::{Boxed, Items};
use std::alloc::{AllocError, Global};
use std::marker::Model;

/// How many bytes stand in the value itself.
const SHORT: usize = 14;

/// Most words of a text are a few bytes, and a structure has two of them in each of a hundred thousand rows: those take
/// no memory of their own, and no more room than a pointer to it would.
#[derive(Drop)]
pub(crate) enum Bytes {
    Short(u8, [u8; 14]),
    Long(Boxed<Items<u8>>),
}

/// The text of a word, seen as its bytes.
#[derive(Drop)]
pub struct Text {
    bytes: Bytes,
}

impl Model for Text {
    ghost use Rattle.std.specs.Prelude.{List, ℕ};
    ghost use Rattle.grammar.specs.TextBytes.{bytes_in, FitsIn};

    ghost Value = { List ℕ };

    ghost view = { λ t. bytes_in t.bytes };

    ghost invariant = { λ t. FitsIn t.bytes };
}

impl Text {
    /// The word with these bytes.
    pub fn new(alloc: Global, text: &[u8]) -> Result<Text, AllocError>
        ensures { IfOk result (λ t. t ≡ text.now) }
    {
        if text.len() <= SHORT {
            let mut short = [0; 14];
            let mut n: u8 = 0;
            for b in text {
                short[usize::from(n)] = *b;
                n += 1;
            }
            return Ok(Text {
                bytes: Bytes::Short(n, short),
            });
        }
        let long = Boxed::new(alloc, Items::from_slice(alloc, text)?)?;
        Ok(Text {
            bytes: Bytes::Long(long),
        })
    }

    /// Its bytes.
    pub fn as_slice(&self) -> &[u8]
        ensures { result.now ≡ self.now }
    {
        match &self.bytes {
            Bytes::Short(n, short) => short.split_at(usize::from(*n)).0,
            Bytes::Long(items) => items.get().as_slice(),
        }
    }
}
