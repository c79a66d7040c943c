//! Lists of literals.
ghost use Rattle.std.specs.Prelude.{◌≡◌, ◌<◌, length, IfOk};
ghost use Rattle.support_explainer.specs.Reasons.{without_item};

use ground_core::Memory;
use lit_core::Lit;
use model_search::joined;
use std::alloc::Global;

/// The literals but the one at this index.
pub fn without_at(alloc: Global, lits: &[Lit], at: usize) -> Result<Vec<Lit>, Memory>
    requires { at < length lits.now }
    ensures { IfOk result (λ list. list.items ≡ without_item lits.now at) }
{
    joined(alloc, &lits[..at], &lits[at + 1..])
}
