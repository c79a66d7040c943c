//! The order in which a pass goes through items.
//!
//! What is known at one element often says something of the next one, up or down. So of two passes one goes up and one
//! down, and a chain of elements in either order takes one of them, not a pass for each element.
ghost use Rattle.std.specs.Prelude.{◌<◌};
ghost use Rattle.quantifier_bounds.specs.Walks.{IsNth};

/// The number of the item that comes after so many others, of a count of them.
pub fn nth(falling: bool, turn: u64, count: u64) -> u64
    requires { turn < count }
    ensures nth { IsNth falling turn count result }
    ensures within { result < count }
{
    if falling { count - 1 - turn } else { turn }
}
