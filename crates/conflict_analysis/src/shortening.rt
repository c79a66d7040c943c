//! Leaving out the literals that a learnt clause can do without.
ghost use Rattle.std.specs.Prelude.{◌<◌, length, Contains, IfOk, IfSome};
ghost use Rattle.clause_store.specs.StoreState.{IsStore};
ghost use Rattle.conflict_analysis.specs.Shortening.{IsRedundant, IsShort};

use crate::place_sets::PlaceSet;
use clause_store::Store;
use lit_core::Memory;
use std::alloc::Global;

/// The reason of the step at a place, where its other literals became false at places of the set.
fn redundant_by(store: &Store, place: usize, lower: &PlaceSet) -> Option<u64>
    requires laws { IsStore store.now }
    requires place { place < length store.now.trail.steps }
    ensures { IfSome result (IsRedundant store.now place lower.now) }
{
    let step = store.step(place);
    let reason = step.reason?;
    let lits = store.lend(reason);
    for lit in lits {
        let other = store.place_of(lit.lit().var);
        if other != place && !lower.contains(other) {
            return None;
        }
    }
    Some(reason)
}

/// The lower places without those whose literals follow from others that are left.
///
/// See Sörensson and Biere, "Minimizing learned clauses". The places are gone through from the last one down, so that
/// the reason of one that is left out stands before the hints that need it.
pub fn shorten(
    alloc: Global,
    store: &Store,
    place: usize,
    lower: PlaceSet,
    hints: &mut Vec<u64>,
) -> Result<PlaceSet, Memory>
    requires laws { IsStore store.now }
    requires long { IsShort store.now place (Contains lower) hints.old.items }
    ensures { IfOk result (λ kept. IsShort store.now place (Contains kept) hints.new.items) }
{
    let mut kept = PlaceSet::new(alloc);
    let mut left = lower;
    while let Some(next) = left.pop_last() {
        if let Some(reason) = redundant_by(store, next, &left) {
            hints.push(reason)?;
            continue;
        }
        kept.insert(next)?;
    }
    Ok(kept)
}
