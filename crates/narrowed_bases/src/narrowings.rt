//! What the data of a knowledge base are narrowed to.

use partial_structures::Partial;

/// What the data are narrowed to before the knowledge base is grounded.
#[derive(Drop)]
pub enum Narrowing {
    /// The weight is small: the data are taken as they are.
    Plain,
    /// The least that knows the data and is closed under what the theory fixes.
    Narrowed(Partial),
    /// The theory contradicts the data.
    Contradiction,
}
