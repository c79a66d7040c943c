//! A literal that follows.
use lit_core::Lit;

/// A literal that follows from the choices, and the number of a clause by which it does.
#[derive(Clone, Copy)]
pub struct Forcing {
    pub lit: Lit,
    pub clause: u64,
}
