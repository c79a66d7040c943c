//! The three truth values of Kleene's logic.

/// What is known of an atom or of a formula.
#[derive(Clone, Copy, PartialEq)]
pub enum Truth {
    Yes,
    No,
    Unknown,
}
