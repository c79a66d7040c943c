//! Unit propagation over the short clauses that are listed under their literals.
//!
//! A list has the other literals of each clause beside its number, so the walk reads one array in order and mostly
//! looks at no clause. Nothing moves at a visit. A clause that was removed stays in its lists: whether it is still held
//! is asked only where it would make a literal true or is false.
ghost use Rattle.std.specs.Prelude.{◌≡◌, ℕ, ◌<◌, length, Option, Some, None, List, MatchOption};
ghost use Rattle.lit_core.specs.declared.literals.Lit.{Lit};
ghost use Rattle.clause_base.specs.StoreState.{IsHeld, Propagates};
ghost use Rattle.clause_store.specs.Visits.{IsNext, KeepsLists, OccurrenceGives, OccursUnder, ShortGives};
ghost use Rattle.clause_store.specs.Watching.{store_of, IsWatcher};

use crate::watched::Watcher;
use clause_base::{Occurrence, Rest};
use lit_core::Lit;

impl Watcher {
    ghost use Rattle.clause_store.specs.declared.watched.Watcher.{Watcher};

    /// The number of the clause of an occurrence, if the clause was not removed.
    fn held_id(&self, occurrence: Occurrence) -> Option<u64>
        requires { occurrence.id < length self.now.held.clauses }
        ensures { MatchOption result ((c : List Lit) → IsHeld (store_of self.now) occurrence.id c → ⊥)
            (λ id. (id ≡ occurrence.id) × ((c : List Lit) × IsHeld (store_of self.now) occurrence.id c)) }
    {
        self.held.get(occurrence.id as usize)?;
        Some(occurrence.id as u64)
    }

    /// Looks at a short clause from a literal that became false, and makes its last literal true.
    fn meet(&mut self, occurrence: Occurrence, falsified: Lit) -> Option<u64>
        requires watcher { IsWatcher self.old }
        requires falsified { IsNext self.old falsified }
        requires occurs { OccursUnder self.old falsified occurrence }
        ensures watcher { IsWatcher self.new }
        ensures same { Propagates (store_of self.old) (store_of self.new) }
        ensures keeps { KeepsLists self.old self.new }
        ensures visit { OccurrenceGives self.new occurrence result }
    {
        match occurrence.look(self.trail.assignment()) {
            Rest::Open => None,
            Rest::Unit(lit) => {
                if let Some(id) = self.held_id(occurrence) {
                    self.trail.assign(lit, Some(id));
                }
                None
            }
            Rest::False => self.held_id(occurrence),
        }
    }

    /// Looks at the short clauses that are listed under the literal that became false.
    pub fn visit_short(&mut self, falsified: Lit) -> Option<u64>
        requires watcher { IsWatcher self.old }
        requires falsified { IsNext self.old falsified }
        ensures watcher { IsWatcher self.new }
        ensures same { Propagates (store_of self.old) (store_of self.new) }
        ensures keeps { KeepsLists self.old self.new }
        ensures visits { ShortGives self.new result }
    {
        // Where nothing was packed no list is loaded.
        if self.short.packed() == 0 {
            return None;
        }
        let count = self.short.of(falsified).len();
        for place in 0..count {
            let occurrence = self.short.of(falsified)[place];
            if let Some(id) = self.meet(occurrence, falsified) {
                return Some(id);
            }
        }
        None
    }
}
