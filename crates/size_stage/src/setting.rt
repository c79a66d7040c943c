//! What the bounds of terms are over.
use crate::domains::Domains;
use crate::ranges::Range;
use kb_logic::Vocabulary;

/// A vocabulary, the domains of its types, and the range of the integers in each of them.
#[derive(Clone, Copy)]
pub struct Setting<'a> {
    pub vocab: &'a Vocabulary,
    pub domains: &'a Domains<'a, 'a>,
    pub ranges: &'a [Range],
}
