//! Bounds that may be assumed where a tighter one is.
//!
//! What is learnt under a bound names its selector, and so says nothing under a tighter bound on the same term that is
//! assumed alone. But the wider bound holds wherever the tighter one does: its selector is assumed with it, and is left
//! out of what is answered.
ghost use Rattle.std.specs.Prelude.{◌≡◌, List, All, Contains, IfOk, IsTrue};
ghost use Rattle.lit_core.specs.declared.literals.Lit.{Lit as LitRow};
ghost use Rattle.ground_core.specs.declared.parts.TermBound.{TermBound as BoundRow};
ghost use Rattle.search_engine.specs.LitSets.{IsSetOf};
ghost use Rattle.clause_learning.specs.LiveBounds.{IsNarrowed, IsOutputOfWider, IsWider, without_output};

use ground_core::{LitList, Memory, TermBound};
use lit_core::Lit;
use search_engine::{LitSet, chosen};
use std::alloc::Global;
use term_bounds::is_at_most;

/// Whether the bound follows from one whose output is assumed, and its own output is not.
fn is_wider(live: &[TermBound], assumed: &LitSet, bound: TermBound) -> bool
    ensures { (lits : List LitRow) → IsSetOf lits assumed.now → Contains live.now bound → IsTrue result
        → IsWider live.now lits bound }
{
    if assumed.has(bound.out) || assumed.has(bound.out.negated()) {
        return false;
    }
    for other in live {
        if other.term == bound.term
            && is_at_most(other.below, bound.below)
            && assumed.has(other.out)
        {
            return true;
        }
    }
    false
}

/// The outputs of those bounds that follow from one that is assumed.
pub fn outputs_of_wider(
    alloc: Global,
    live: &[TermBound],
    assume: &[Lit],
) -> Result<Vec<Lit>, Memory>
    ensures { IfOk result (λ more. All (IsOutputOfWider live.now assume.now) more.items) }
{
    let assumed = LitSet::of(alloc, assume)?;
    let mut more = Vec::new(alloc);
    for bound in live {
        if !is_wider(live, &assumed, *bound) {
            continue;
        }
        more.push(bound.out)?;
    }
    Ok(more)
}

/// Those of the assumptions that are in the core or the output of one of the bounds.
pub fn narrowed(
    alloc: Global,
    live: &[TermBound],
    assume: &[Lit],
    core: &[Lit],
) -> Result<LitList, Memory>
    ensures { IfOk result (IsNarrowed live.now assume.now core.now) }
{
    let mut blamed = LitSet::of(alloc, core)?;
    for bound in live {
        blamed.insert(bound.out)?;
    }
    chosen(alloc, assume, &blamed)
}

/// Gives up the bound with this output.
pub fn give_up(live: &mut Vec<TermBound>, output: Lit)
    ensures { live.new.items ≡ without_output output live.old.items }
{
    live.retain(|bound| bound.out.var.0 != output.var.0);
}
