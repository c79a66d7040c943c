//! What is asked of a task.
use lit_core::{Lit, Values};

/// The atoms that the data leave unknown, and what was seen of them.
#[derive(Clone, Copy)]
pub struct Unknown<'a> {
    /// The literals of their variables, as `open_literals` lists them.
    pub lits: &'a [Lit],
    /// Values of the ground atoms in models under the choices.
    pub seen: &'a [Values],
}
