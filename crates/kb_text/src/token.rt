//! Tokens.
/// What a token is.
#[derive(Clone, Copy, Debug, PartialEq, Eq)]
pub enum Kind {
    /// A letter or `_`, followed by letters, digits and `_`.
    Word,
    /// One or more digits.
    Int,
    /// One to three signs.
    Sign,
    /// From the word `procedure` to the brace that closes its first one; the text is passed over.
    Procedure,
}

/// A token, and where it lies in the text.
#[derive(Clone, Copy, Debug)]
pub struct Token<'a> {
    pub kind: Kind,
    /// The bytes of the text from `start` to `end`.
    pub text: &'a [u8],
    /// The number of bytes before its first one.
    pub start: usize,
    /// The number of bytes before the one after its last.
    pub end: usize,
}
