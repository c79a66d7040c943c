//! The types at the positions of a symbol.
ghost use Rattle.std.specs.Prelude.{◌≡◌, slice_get};
ghost use Rattle.stage_definitions.specs.Demands as said;

use kb_logic::Symbol;

/// The types of a symbol's arguments.
pub fn argument_types(symbols: &[Symbol], symbol: u32) -> &[u32]
    ensures { result.now ≡ said.argument_types (slice_get symbols.now symbol) }
{
    match symbols.get(symbol as usize) {
        Some(symbol) => symbol.args.as_slice(),
        None => &[],
    }
}
