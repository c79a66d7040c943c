//! Flags of symbols.
ghost use Rattle.std.specs.Prelude.{◌≡◌};
ghost use Rattle.partial_structures.specs.Flags.{is_closed};

/// Whether the rest of the symbol is false.
pub(crate) fn flag(closed: &[bool], symbol: u32) -> bool
    ensures { result ≡ is_closed closed.now symbol }
{
    match closed.get(symbol as usize) {
        Some(closed) => *closed,
        None => false,
    }
}
