//! Lists of literals.
ghost use Rattle.std.specs.Prelude.{◌≡◌, ◌++◌, IfOk};

use ground_core::Memory;
use lit_core::Lit;
use std::alloc::Global;

/// The literals, and then the others.
pub fn joined(alloc: Global, lits: &[Lit], last: &[Lit]) -> Result<Vec<Lit>, Memory>
    ensures { IfOk result (λ list. list.items ≡ lits.now ++ last.now) }
{
    let mut list = Vec::from_slice(alloc, lits)?;
    list.extend_from_slice(last)?;
    Ok(list)
}
