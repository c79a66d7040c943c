//! The names among the elements, each with a number.
ghost use Rattle.std.specs.Prelude.{◌≡◌, [], Some, IfOk, IsTrue, OnOk, OnErr, slice_get, option_map};
ghost use Rattle.row_tries.specs.Words.{place, words_in, words_of, with_word, with_element};
ghost use Rattle.std.specs.Str.{bytes_eq};

use indexmap::IndexSet;
use kb_logic::{DomainList, Elem, Memory};
use std::alloc::Global;

/// Words, each numbered by its place.
#[derive(Drop)]
pub struct Words {
    pub words: IndexSet<Vec<u8>>,
}

impl Words {
    /// The names of these elements.
    pub fn of(alloc: Global, domains: &DomainList) -> Result<Words, Memory>
        ensures { IfOk result (λ w. words_in w ≡ words_of domains.now) }
    {
        let mut words = Words {
            words: IndexSet::new(alloc),
        };
        for domain in domains.as_slice() {
            for elem in domain.as_slice() {
                words.add_element(alloc, elem)?;
            }
        }
        Ok(words)
    }

    fn add_element(&mut self, alloc: Global, elem: &Elem) -> Result<(), Memory>
        ensures { OnOk result (words_in self.new ≡ with_element (words_in self.old) elem.now) }
    {
        match elem {
            Elem::Named(name) => {
                self.add(alloc, name.text())?;
                Ok(())
            }
            Elem::Num(_) => Ok(()),
        }
    }

    fn add(&mut self, alloc: Global, word: &[u8]) -> Result<(), Memory>
        ensures { OnOk result (words_in self.new ≡ with_word (words_in self.old) word.now) }
    {
        if !self.words.contains(word) {
            self.words.insert_full(Vec::from_slice(alloc, word)?)?;
        }
        Ok(())
    }

    /// The number of a word.
    pub fn number(&self, word: &[u8]) -> Option<usize>
        ensures { result ≡ place (bytes_eq word.now) (words_in self.now) }
    {
        self.words.get_index_of(word)
    }

    /// Whether the word has this number.
    fn is_word(&self, word: &[u8], number: usize) -> bool
        ensures { IsTrue result → place (bytes_eq word.now) (words_in self.now) ≡ Some number }
    {
        // Says that no word stands twice.
        let _count = self.words.len();
        match self.words.get_index(number) {
            Some(there) => there.as_slice() == word,
            None => false,
        }
    }

    /// The number of a word, which may be this one or the next.
    ///
    /// The word is compared with both before it is hashed: rows are mostly written in order, so that a word is that of
    /// the row before it, or the one that came after that.
    pub fn number_near(&self, word: &[u8], near: usize) -> Option<usize>
        ensures { result ≡ place (bytes_eq word.now) (words_in self.now) }
    {
        if self.is_word(word, near) {
            return Some(near);
        }
        let next = near.saturating_add(1);
        if self.is_word(word, next) {
            return Some(next);
        }
        self.number(word)
    }

    /// The word with this number.
    pub fn word(&self, number: usize) -> Option<&[u8]>
        ensures { option_map (λ w. w.now) result ≡ slice_get (words_in self.now) number }
    {
        match self.words.get_index(number) {
            Some(word) => Some(word.as_slice()),
            None => None,
        }
    }
}
