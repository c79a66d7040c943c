//! Sets of places on the trail.
ghost use Rattle.std.specs.Prelude.{◌≡◌, ◌↔◌, ◌⊎◌, ℕ, [], Contains, IsTrue, IfNone, IfSome, OnOk};
ghost use Rattle.conflict_analysis.specs.Marked.{HasAsLast, Inserts, PopsLast};

use crate::near_sets::NearSet;
use lit_core::Memory;
use std::alloc::Global;
use std::collections::BTreeSet;
use std::marker::Model;

/// The places below this one have marks.
const NEAR: usize = 65_536;

/// A set of places on the trail.
///
/// Resolution walks back along the trail over seen marks: a mark is a byte that is written once, where a tree of places
/// would be gone down, filled and split at each literal of each clause. Marks reach from the trail's beginning to the
/// last place that is marked, and a conflict clears what lies there. So that a conflict on a trail of some 100,000
/// places does not clear them all where few are marked, there are marks for the first places alone, and a tree has
/// the others.
#[derive(Debug, Drop)]
pub struct PlaceSet {
    near: NearSet,
    far: BTreeSet<usize>,
}

impl Model for PlaceSet {
    ghost use Rattle.std.specs.Prelude.{List, ℕ, ◌++◌};

    ghost Value = { List ℕ };

    ghost use Rattle.conflict_analysis.specs.Marked.{AreApart};

    ghost view = { λ s. s.near ++ s.far.keys };

    ghost invariant = { λ s. AreApart s.near s.far.keys };
}

/// Takes off the last place.
fn pop_far(far: &mut BTreeSet<usize>) -> Option<usize>
    ensures none { IfNone result ((far.old.keys ≡ []) × (far.new.keys ≡ [])) }
    ensures some { IfSome result (λ place. PopsLast far.old.keys place far.new.keys) }
{
    far.pop_last()
}

/// Whether the place is one of these.
fn is_far(far: &BTreeSet<usize>, place: usize) -> bool
    ensures { IsTrue result ↔ Contains far.now.keys place }
{
    far.contains(&place)
}

/// The last place.
fn last_far(far: &BTreeSet<usize>) -> Option<usize>
    ensures none { IfNone result (far.now.keys ≡ []) }
    ensures some { IfSome result (HasAsLast far.now.keys) }
{
    match far.last() {
        Some(place) => Some(*place),
        None => None,
    }
}

/// Adds a place.
#[inline(never)]
fn insert_far(far: &mut BTreeSet<usize>, place: usize) -> Result<(), Memory>
    ensures inserts { OnOk result (Inserts far.old.keys place far.new.keys) }
    ensures from { (k : ℕ) → Contains far.new.keys k → Contains far.old.keys k ⊎ (place ≡ k) }
{
    far.insert(place)?;
    Ok(())
}

impl PlaceSet {
    /// No place.
    pub fn new(alloc: Global) -> PlaceSet
        ensures { result ≡ [] }
    {
        PlaceSet {
            near: NearSet::new(alloc),
            far: BTreeSet::new(alloc),
        }
    }

    /// Whether there is no place.
    pub fn is_empty(&self) -> bool
        ensures { IsTrue result ↔ (self.now ≡ []) }
    {
        match self.last() {
            Some(_) => false,
            None => true,
        }
    }

    /// Whether the place is one of these.
    pub fn contains(&self, place: usize) -> bool
        ensures { IsTrue result ↔ Contains self.now place }
    {
        if place < NEAR {
            return self.near.contains(place);
        }
        is_far(&self.far, place)
    }

    /// The last place.
    pub fn last(&self) -> Option<usize>
        ensures none { IfNone result (self.now ≡ []) }
        ensures some { IfSome result (HasAsLast self.now) }
    {
        match last_far(&self.far) {
            Some(place) => Some(place),
            None => self.near.last(),
        }
    }

    /// Adds a place.
    pub fn insert(&mut self, place: usize) -> Result<(), Memory>
        ensures { OnOk result (Inserts self.old place self.new) }
    {
        if place < NEAR {
            return self.near.insert(place);
        }
        insert_far(&mut self.far, place)
    }

    /// Takes off the last place.
    pub fn pop_last(&mut self) -> Option<usize>
        ensures none { IfNone result ((self.old ≡ []) × (self.new ≡ self.old)) }
        ensures some { IfSome result (λ place. PopsLast self.old place self.new) }
    {
        match pop_far(&mut self.far) {
            Some(place) => Some(place),
            None => self.near.pop_last(),
        }
    }
}
