//! A place of a text, and what stands around it.
use crate::signs::{has_sign, sentence_of, sign_at, without_spaces, word_before};
use memchr::memmem;

/// The kinds of blocks that a place may be in.
#[derive(Clone, Copy, PartialEq, Eq)]
pub enum Block {
    Vocabulary,
    Theory,
    Structure,
    /// Another one, or none.
    Other,
}

/// A place of a text.
#[derive(Clone, Copy)]
pub struct Place<'a> {
    /// What stands before it, and without the spaces at its end.
    pub front: &'a [u8],
    pub trimmed: &'a [u8],
    /// What stands behind it.
    pub behind: &'a [u8],
    /// The word or sign that begins there; nothing at the text's end.
    pub sign: &'a [u8],
    /// The part before it of the sentence, item or entry that it is in.
    pub sentence: &'a [u8],
    pub block: Block,
}

/// Where the word stands last in a text, counted from 1; 0 where it does not.
fn last_of(text: &[u8], word: &[u8]) -> usize {
    match memmem::rfind(text, word) {
        Some(start) => start.saturating_add(1),
        None => 0,
    }
}

/// The kind of block that this text ends in, by the last word that begins one.
fn block_of(front: &[u8]) -> Block {
    let vocabulary = last_of(front, b"vocabulary ");
    let theory = last_of(front, b"theory ");
    let structure = last_of(front, b"structure ");
    if structure > theory && structure > vocabulary {
        return Block::Structure;
    }
    if theory > vocabulary {
        return Block::Theory;
    }
    if vocabulary > 0 {
        return Block::Vocabulary;
    }
    Block::Other
}

/// The place between the two texts.
pub fn place_between<'a>(front: &'a [u8], behind: &'a [u8]) -> Place<'a> {
    let trimmed = without_spaces(front);
    Place {
        front,
        trimmed,
        behind,
        sign: sign_at(behind),
        sentence: sentence_of(trimmed),
        block: block_of(front),
    }
}

impl Place<'_> {
    /// Whether a line ends between the place and what stands before it.
    pub fn begins_line(&self) -> bool {
        let spaces = &self.front[self.trimmed.len().min(self.front.len())..];
        spaces.contains(&b'\n')
    }

    /// Whether the sentence before the place has this word or sign.
    pub fn has(&self, sign: &[u8]) -> bool {
        has_sign(self.sentence, sign)
    }

    /// Whether the place follows this word.
    pub fn follows(&self, word: &[u8]) -> bool {
        word_before(self.trimmed) == word
    }

    /// Whether more brackets are open before the place than closed.
    pub fn has_open_bracket(&self) -> bool {
        let mut opened = 0usize;
        let mut closed = 0usize;
        for b in self.sentence {
            if *b == b'(' {
                opened = opened.saturating_add(1);
            }
            if *b == b')' {
                closed = closed.saturating_add(1);
            }
        }
        opened > closed
    }

    /// Whether a quantifier before the place has no colon.
    pub fn has_open_quantifier(&self) -> bool {
        let mut is_open = false;
        for b in self.sentence {
            if *b == b'!' || *b == b'?' {
                is_open = true;
            }
            if *b == b':' {
                is_open = false;
            }
        }
        is_open
    }
}
