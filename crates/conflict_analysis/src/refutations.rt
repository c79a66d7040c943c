//! Which decisions make a literal false, and why a clause is false with no decision.
ghost use Rattle.std.specs.Prelude.{◌≡◌, ◌<◌, ◌≤◌, length, Some, false, [], ◌∷◌, IfOk, OnOk};
ghost use Rattle.std.specs.Bool.{OnFalse, OnTrue};
ghost use Rattle.lit_core.specs.Literals.{value_in, negated};
ghost use Rattle.clause_store.specs.TrailLaws.{IsFixed};
ghost use Rattle.clause_store.specs.StoreState.{IsConflict, IsStore};
ghost use Rattle.conflict_analysis.specs.Analyses.{FollowsFrom, IsRefuted};
ghost use Rattle.conflict_analysis.specs.Resolvents.{IsOfStep};
ghost use Rattle.conflict_analysis.specs.Tracing.{IsTracing, IsTraced};

use crate::resolvent::Resolvent;
use clause_store::Store;
use lit_core::{Lit, Memory};
use std::alloc::Global;

/// Decisions that make a literal false.
#[derive(Debug, Drop)]
pub struct Refuted {
    pub lits: Vec<Lit>,
    /// Clauses from which that follows, in order. There are none where `lits` is the literal's negation.
    pub hints: Vec<u64>,
}

/// Resolves the last marked place with its reason, or notes it as a decision; answers whether there was one.
fn trace_last(
    store: &Store,
    resolvent: &mut Resolvent,
    decisions: &mut Vec<Lit>,
    end: usize,
) -> Result<bool, Memory>
    requires tracing { IsTracing store.now end resolvent.old decisions.old.items }
    ensures tracing { OnOk result (IsTracing store.now end resolvent.new decisions.new.items) }
    ensures more { IfOk result (λ more. OnTrue more (resolvent.new.top < resolvent.old.top)) }
    ensures done { IfOk result (λ more. OnFalse more (resolvent.new.upper ≡ [])) }
{
    let Some(place) = resolvent.take_last() else {
        return Ok(false);
    };
    let step = store.step(place);
    match step.reason {
        Some(reason) => {
            resolvent.absorb(store, reason)?;
            Ok(true)
        }
        None => {
            decisions.push(step.lit)?;
            Ok(true)
        }
    }
}

/// The decisions that make a clause false below a place on the trail.
fn trace(alloc: Global, store: &Store, clause: u64, end: usize) -> Result<Refuted, Memory>
    requires laws { IsStore store.now }
    requires clause { IsOfStep store.now end clause }
    ensures { IfOk result (IsTraced store.now end) }
{
    let mut resolvent = Resolvent::new(alloc, 0, end);
    let mut lits = Vec::new(alloc);
    resolvent.absorb(store, clause)?;
    while trace_last(store, &mut resolvent, &mut lits, end)? {}
    Ok(Refuted {
        lits,
        hints: resolvent.into_hints(),
    })
}

fn alone(alloc: Global, lit: Lit) -> Result<Vec<Lit>, Memory>
    ensures { IfOk result (λ lits. lits.items ≡ lit ∷ []) }
{
    let mut lits = Vec::new(alloc);
    lits.push(lit)?;
    Ok(lits)
}

/// The decisions that make a literal false, with the clauses that tell why.
///
/// The hints come in the order in which unit propagation meets them when the literal and the
/// decisions are true.
pub fn final_core(alloc: Global, store: &Store, lit: Lit) -> Result<Refuted, Memory>
    requires is_false { value_in store.now.trail.values lit ≡ Some false }
    requires unfixed { IsFixed store.now.trail (negated lit) → ⊥ }
    ensures { IfOk result (IsRefuted store.now lit) }
{
    let place = store.place_of(lit.var);
    match store.step(place).reason {
        Some(reason) => trace(alloc, store, reason, place),
        None => Ok(Refuted {
            lits: alone(alloc, lit.negated())?,
            hints: Vec::new(alloc),
        }),
    }
}

/// The clauses from which the empty clause follows in order, where a clause is false with no decision.
pub fn root_hints(alloc: Global, store: &Store, conflict: u64) -> Result<Vec<u64>, Memory>
    requires conflict { IsConflict store.now conflict }
    requires level { store.now.trail.level ≡ 0 }
    ensures { IfOk result (λ hints. FollowsFrom store.now [] hints.items) }
{
    let refuted = trace(alloc, store, conflict, store.trail().len())?;
    Ok(refuted.hints)
}
