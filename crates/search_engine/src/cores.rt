//! Which assumptions are to blame.
ghost use Rattle.std.specs.Prelude.{◌≡◌, Contains, ◌⊎◌, IfOk};
ghost use Rattle.lit_core.specs.declared.literals.Lit.{Lit};
ghost use Rattle.ground_core.specs.Solving.{IsSublist};
ghost use Rattle.search_engine.specs.Cores.{IsCoreOf};

use crate::lit_sets::LitSet;
use ground_core::{LitList, Memory};
use kb_logic::ListOf;
use lit_core::Lit;
use std::alloc::Global;

/// Those of the assumptions, in their order, that are in the set.
pub fn chosen(alloc: Global, assume: &[Lit], blamed: &LitSet) -> Result<LitList, Memory>
    ensures { IfOk result (λ core. IsCoreOf assume.now blamed.now core) }
{
    let mut core = Vec::new(alloc);
    for assumed in assume {
        if blamed.has(*assumed) {
            core.push(*assumed)?;
        }
    }
    Ok(ListOf::from_vec(core))
}

/// Those of the assumptions, in their order, that are the literal or one of these others.
pub fn core_of(alloc: Global, assume: &[Lit], lit: Lit, others: &[Lit]) -> Result<LitList, Memory>
    ensures sublist { IfOk result (λ core. IsSublist core assume.now) }
    ensures covers { IfOk result (λ core. (l : Lit) → Contains assume.now l → (l ≡ lit) ⊎ Contains others.now l
        → Contains core l) }
    ensures from { IfOk result (λ core. (l : Lit) → Contains core l → (l ≡ lit) ⊎ Contains others.now l) }
{
    let mut blamed = LitSet::of(alloc, others)?;
    blamed.insert(lit)?;
    chosen(alloc, assume, &blamed)
}
