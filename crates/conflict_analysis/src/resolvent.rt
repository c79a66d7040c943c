//! Resolution of a false clause with the reasons of its literals, from the end of the trail down.
ghost use Rattle.std.specs.Prelude.{◌≡◌, OnOk, IfNone, IfSome, ◌⊎◌, reverse};
ghost use Rattle.lit_core.specs.Literals.{negated};
ghost use Rattle.clause_store.specs.TrailLaws.{IsFixed};
ghost use Rattle.clause_store.specs.StoreState.{IsMadeBefore, IsStore};
ghost use Rattle.conflict_analysis.specs.Resolvents.{IsMadeAt, IsOfStep, IsNew, Gathers, Absorbs, TakesNone, TakesLast};

use crate::place_sets::PlaceSet;
use clause_store::Store;
use lit_core::{Lit, Memory};
use std::alloc::Global;

/// The clause that resolution has come to, by the places on the trail that made its literals false.
#[derive(Debug, Drop)]
pub struct Resolvent {
    /// Literals that became false at lower levels are not resolved.
    pub floor: u64,
    /// The places that are still to be resolved are below this one.
    pub top: usize,
    /// The places at levels from the floor up.
    pub upper: PlaceSet,
    /// The places at lower levels.
    pub lower: PlaceSet,
    /// The clauses that were resolved, the false clause first.
    pub hints: Vec<u64>,
}

impl Resolvent {
    /// No clause yet, on the part of the trail below `top`.
    pub fn new(alloc: Global, floor: u64, top: usize) -> Resolvent
        ensures { IsNew floor top result }
    {
        Resolvent {
            floor,
            top,
            upper: PlaceSet::new(alloc),
            lower: PlaceSet::new(alloc),
            hints: Vec::new(alloc),
        }
    }

    /// Takes the last place that is to be resolved.
    pub fn take_last(&mut self) -> Option<usize>
        ensures none { IfNone result (TakesNone self.old self.new) }
        ensures some { IfSome result (λ place. TakesLast self.old place self.new) }
    {
        let place = self.upper.pop_last()?;
        self.top = place;
        Some(place)
    }

    /// Marks the place that made a literal false, if it is below the top.
    fn mark(&mut self, store: &Store, lit: Lit) -> Result<(), Memory>
        requires laws { IsStore store.now }
        requires made { IsMadeBefore store.now.trail.steps self.old.top (negated lit) ⊎ IsMadeAt store.now.trail.steps
            self.old.top lit }
        requires unfixed { IsFixed store.now.trail (negated lit) → ⊥ }
        ensures ok { OnOk result (Gathers store.now.trail.steps self.old (λ m. m ≡ lit) self.new) }
        ensures hints { self.new.hints.items ≡ self.old.hints.items }
    {
        let place = store.place_of(lit.var);
        if place >= self.top {
            return Ok(());
        }
        if store.step(place).level < self.floor {
            self.lower.insert(place)?;
            return Ok(());
        }
        self.upper.insert(place)?;
        Ok(())
    }

    /// Resolves with a clause: marks what made its literals false, below the top.
    pub fn absorb(&mut self, store: &Store, clause: u64) -> Result<(), Memory>
        requires clause { IsOfStep store.now self.old.top clause }
        ensures ok { OnOk result (Absorbs store.now self.old clause self.new) }
    {
        let lits = store.lend(clause);
        for lit in lits {
            self.mark(store, lit.lit())?;
        }
        self.hints.push(clause)?;
        Ok(())
    }

    /// The clauses that were resolved, the false clause last.
    pub fn into_hints(self) -> Vec<u64>
        ensures { result.items ≡ reverse self.hints.items }
    {
        let mut hints = self.hints;
        hints.reverse();
        hints
    }
}
