//! Why nothing is narrowed.
ghost use Rattle.std.specs.Prelude.{◌≡◌};
ghost use Rattle.quantifier_bounds.specs.declared.fault.BoundFault.TheVariants as fault;

use kb_logic::Memory;
use thiserror::Error;

/// Why narrowing ended without a narrowed structure.
#[derive(Clone, Copy, Debug, Error)]
pub enum BoundFault {
    /// Nothing is closed.
    #[error("the theory contradicts the data")]
    Contradiction,
    #[error("out of memory")]
    Memory,
}

impl From<Memory> for BoundFault {
    ghost from_gives = { λ _ e. e ≡ fault.Memory };

    fn from(_error: Memory) -> BoundFault {
        BoundFault::Memory
    }
}
