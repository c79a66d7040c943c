//! Several models.
use kb_logic::ListOf;
use lit_core::Values;

/// Models, no two of which have the same ground atoms.
#[derive(Drop)]
pub struct Several {
    pub found: ListOf<Values>,
    /// Whether there is no other.
    pub complete: bool,
}
