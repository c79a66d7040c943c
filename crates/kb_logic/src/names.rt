//! Words.
ghost use Rattle.std.specs.Prelude.{◌≡◌, List, ℕ, IfOk};

use crate::lists::Copied;
use std::alloc::{AllocError as Memory, Global};
use std::marker::Model;

/// A word, seen as its bytes.
#[derive(Drop)]
pub struct Name {
    bytes: Vec<u8>,
}

impl Model for Name {
    ghost Value = { List ℕ };

    ghost view = { λ n. n.bytes.items };
}

impl Name {
    /// The word with this text.
    pub fn new(alloc: Global, text: &[u8]) -> Result<Name, Memory>
        ensures { IfOk result (λ n. n ≡ text.now) }
    {
        Ok(Name {
            bytes: Vec::from_slice(alloc, text)?,
        })
    }

    /// Its bytes.
    pub fn text(&self) -> &[u8]
        ensures { result.now ≡ self.now }
    {
        &self.bytes
    }

    pub fn copy(&self, alloc: Global) -> Result<Name, Memory>
        ensures { IfOk result (λ n. n ≡ self.now) }
    {
        Name::new(alloc, self.text())
    }
}

impl Copied for Name {
    fn copied(&self, alloc: Global) -> Result<Name, Memory> {
        self.copy(alloc)
    }
}
