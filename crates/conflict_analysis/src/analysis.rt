//! Learning a clause from a false one.
ghost use Rattle.std.specs.Prelude.{◌≡◌, ◌<◌, ℕ, [], length, Contains, IfOk, IfNone, IfSome};
ghost use Rattle.clause_store.specs.StoreState.{IsConflict, IsStore};
ghost use Rattle.conflict_analysis.specs.Analyses.{HasCurrent, IsAnalysis};
ghost use Rattle.conflict_analysis.specs.Learning.{IsLastLevel, IsClauseOf};
ghost use Rattle.conflict_analysis.specs.Tracing.{IsCurrent, IsLast};

use crate::place_sets::PlaceSet;
use crate::resolvent::Resolvent;
use crate::shortening::shorten;
use clause_store::Store;
use lit_core::{Lit, Memory};
use std::alloc::Global;

/// A clause that was learnt from a false one.
#[derive(Debug, Drop)]
pub struct Analysis {
    /// False literals, first the one that is unassigned once the trail is back at the level.
    pub clause: Vec<Lit>,
    /// The level at which the clause becomes unit.
    pub level: u64,
    /// The clauses from which it follows, in order.
    pub hints: Vec<u64>,
}

/// Resolves the last marked place with its reason; answers it where it is the only one of its level.
fn resolve_last(store: &Store, resolvent: &mut Resolvent) -> Result<Option<usize>, Memory>
    requires current { IsCurrent store.now resolvent.old }
    requires level { 0 < store.now.trail.level }
    ensures last { IfOk result (λ last. IfSome last (λ place. IsLast store.now place resolvent.new)) }
    ensures current { IfOk result (λ last. IfNone last (IsCurrent store.now resolvent.new)) }
    ensures down { IfOk result (λ last. IfNone last (resolvent.new.top < resolvent.old.top)) }
{
    let Some(place) = resolvent.take_last() else {
        unreachable!()
    };
    if resolvent.upper.is_empty() {
        return Ok(Some(place));
    }
    let Some(reason) = store.step(place).reason else {
        unreachable!()
    };
    resolvent.absorb(store, reason)?;
    Ok(None)
}

/// The level of the last place, or 0 where there is none.
fn last_level(store: &Store, places: &PlaceSet) -> u64
    requires { (k : ℕ) → Contains places.now k → k < length store.now.trail.steps }
    ensures { IsLastLevel store.now.trail.steps places.now result }
{
    match places.last() {
        Some(place) => store.step(place).level,
        None => 0,
    }
}

/// The clause of the literals that became false at a place and at lower ones.
fn clause_of(
    alloc: Global,
    store: &Store,
    place: usize,
    lower: PlaceSet,
) -> Result<Vec<Lit>, Memory>
    requires place { place < length store.now.trail.steps }
    requires lower { (k : ℕ) → Contains lower k → k < place }
    ensures { IfOk result (λ clause. IsClauseOf store.now.trail.steps place lower clause.items) }
{
    let mut clause = Vec::new(alloc);
    clause.push(store.step(place).lit.negated())?;
    let mut places = lower;
    while let Some(next) = places.pop_last() {
        clause.push(store.step(next).lit.negated())?;
    }
    Ok(clause)
}

/// The clause that is learnt where one literal of the current level is left.
fn learn(
    alloc: Global,
    store: &Store,
    place: usize,
    resolvent: Resolvent,
) -> Result<Analysis, Memory>
    requires last { IsLast store.now place resolvent }
    requires laws { IsStore store.now }
    requires level { 0 < store.now.trail.level }
    ensures { IfOk result (IsAnalysis store.now) }
{
    let Resolvent { lower, hints, .. } = resolvent;
    let mut hints = hints;
    let kept = shorten(alloc, store, place, lower, &mut hints)?;
    let level = last_level(store, &kept);
    let clause = clause_of(alloc, store, place, kept)?;
    hints.reverse();
    Ok(Analysis {
        clause,
        level,
        hints,
    })
}

/// Learns a clause from a false one, by resolution up to the first unique implication point, and leaves out literals
/// that follow from others of it.
///
/// A literal that is false at level 0 is left out where its clause has no other, and stays where it follows from some
/// that are not in the learnt clause. See Marques-Silva and Sakallah, "GRASP: a search algorithm for propositional
/// satisfiability", and Zhang and others, "Efficient conflict driven learning in a Boolean satisfiability solver".
pub fn analyse(alloc: Global, store: &Store, conflict: u64) -> Result<Analysis, Memory>
    requires conflict { IsConflict store.now conflict }
    requires level { 0 < store.now.trail.level }
    requires current { HasCurrent store.now conflict }
    ensures { IfOk result (IsAnalysis store.now) }
{
    let mut resolvent = Resolvent::new(alloc, store.level(), store.trail().len());
    resolvent.absorb(store, conflict)?;
    loop {
        if let Some(place) = resolve_last(store, &mut resolvent)? {
            return learn(alloc, store, place, resolvent);
        }
    }
}
