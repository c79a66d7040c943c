//! Sets of places near the beginning of the trail.
ghost use Rattle.std.specs.Prelude.{◌≡◌, ◌↔◌, ◌⊎◌, ℕ, [], ◌<◌, ◌≤◌, length, slice_index, Contains, IsTrue, IfNone};
ghost use Rattle.std.specs.Prelude.{IfSome, OnOk};
ghost use Rattle.conflict_analysis.specs.Marked.{HasAsLast, Inserts, PopsLast};

use lit_core::Memory;
use memchr::memrchr;
use std::alloc::Global;
use std::marker::Model;

/// A set of places, a mark each, from which the last one is taken by a search for a mark from the end, of many at a
/// time.
#[derive(Debug, Drop)]
pub struct NearSet {
    /// 1 at each place of the set, and 0 at the others.
    marks: Vec<u8>,
}

impl Model for NearSet {
    ghost use Rattle.std.specs.Prelude.{List, ℕ};

    ghost Value = { List ℕ };

    ghost use Rattle.memchr.specs.Find.{is_byte, places};

    ghost view = { λ s. places (is_byte 1) s.marks.items };
}

/// Marks of places that are not in the set, as many as are added at a time.
const UNMARKED: [u8; 256] = [0; 256];

/// Adds marks of places that are not in the set, up to this place and some beyond it.
///
/// This is seldom done, and is kept out of where marks are set, so that to set one is a test and a write.
#[inline(never)]
fn lengthen(marks: &mut Vec<u8>, place: usize) -> Result<(), Memory>
    requires { length marks.old.items ≤ place }
    ensures same { (k : ℕ) → slice_index marks.new.items k ≡ slice_index marks.old.items k }
    ensures longer { length marks.old.items ≤ length marks.new.items }
    ensures enough { OnOk result (place < length marks.new.items) }
{
    // Copied from marks that stand ready: to write one after another took a fifth of a search with many conflicts.
    while marks.len() <= place {
        marks.extend_from_slice(&UNMARKED)?;
    }
    Ok(())
}

/// Adds marks of places that are not in the set, so that there is one of this place.
fn cover(marks: &mut Vec<u8>, place: usize) -> Result<(), Memory>
    ensures same { (k : ℕ) → slice_index marks.new.items k ≡ slice_index marks.old.items k }
    ensures longer { length marks.old.items ≤ length marks.new.items }
    ensures enough { OnOk result (place < length marks.new.items) }
{
    if marks.len() <= place {
        lengthen(marks, place)?;
    }
    Ok(())
}

impl NearSet {
    /// No place.
    pub fn new(alloc: Global) -> NearSet
        ensures { result ≡ [] }
    {
        NearSet {
            marks: Vec::new(alloc),
        }
    }

    /// Whether there is no place.
    pub fn is_empty(&self) -> bool
        ensures { IsTrue result ↔ (self.now ≡ []) }
    {
        match self.last() {
            Some(_) => false,
            None => true,
        }
    }

    /// Whether the place is one of these.
    pub fn contains(&self, place: usize) -> bool
        ensures { IsTrue result ↔ Contains self.now place }
    {
        match self.marks.get(place) {
            Some(mark) => *mark == 1,
            None => false,
        }
    }

    /// The last place.
    pub fn last(&self) -> Option<usize>
        ensures none { IfNone result (self.now ≡ []) }
        ensures some { IfSome result (HasAsLast self.now) }
    {
        memrchr(1, &self.marks)
    }

    /// Adds a place.
    pub fn insert(&mut self, place: usize) -> Result<(), Memory>
        ensures inserts { OnOk result (Inserts self.old place self.new) }
        ensures from { (k : ℕ) → Contains self.new k → Contains self.old k ⊎ (place ≡ k) }
    {
        cover(&mut self.marks, place)?;
        self.marks[place] = 1;
        Ok(())
    }

    /// Takes off the last place.
    pub fn pop_last(&mut self) -> Option<usize>
        ensures none { IfNone result ((self.old ≡ []) × (self.new ≡ self.old)) }
        ensures some { IfSome result (λ place. PopsLast self.old place self.new) }
    {
        let place = memrchr(1, &self.marks)?;
        self.marks.truncate(place);
        Some(place)
    }
}
