//! Sets of literals.
ghost use Rattle.std.specs.Prelude.{◌≡◌, ◌↔◌, ℕ, IsTrue, All, Contains, ◌⊎◌, IfOk, OnOk};
ghost use Rattle.lit_core.specs.declared.literals.Lit.{Lit};
ghost use Rattle.search_engine.specs.LitSets.{HasLit, IsEmptySet, IsSetOf};

use ground_core::Memory;
use lit_core::Lit;
use std::alloc::Global;
use std::collections::BTreeSet;

/// Literals by their variables' numbers, so that a look-up takes time logarithmic in their number.
#[derive(Drop)]
pub struct LitSet {
    pub positive: BTreeSet<u64>,
    pub negative: BTreeSet<u64>,
}

impl LitSet {
    /// No literals.
    pub fn new(alloc: Global) -> LitSet
        ensures { IsEmptySet result }
    {
        LitSet {
            positive: BTreeSet::new(alloc),
            negative: BTreeSet::new(alloc),
        }
    }

    /// Puts in a literal.
    pub fn insert(&mut self, lit: Lit) -> Result<(), Memory>
        ensures kept { OnOk result ((l : Lit) → HasLit self.old l → HasLit self.new l) }
        ensures new { OnOk result (HasLit self.new lit) }
        ensures from { OnOk result ((l : Lit) → HasLit self.new l → HasLit self.old l ⊎ (lit ≡ l)) }
    {
        if lit.positive {
            self.positive.insert(lit.var.0)?;
            return Ok(());
        }
        self.negative.insert(lit.var.0)?;
        Ok(())
    }

    /// These literals.
    pub fn of(alloc: Global, lits: &[Lit]) -> Result<LitSet, Memory>
        ensures { IfOk result (IsSetOf lits.now) }
    {
        let mut set = LitSet::new(alloc);
        for lit in lits {
            set.insert(*lit)?;
        }
        Ok(set)
    }

    /// Whether the literal is one of them.
    pub fn has(&self, lit: Lit) -> bool
        ensures { IsTrue result ↔ HasLit self.now lit }
    {
        if lit.positive {
            self.positive.contains(&lit.var.0)
        } else {
            self.negative.contains(&lit.var.0)
        }
    }

    /// Whether all of these are among them.
    pub fn has_all(&self, lits: &[Lit]) -> bool
        ensures { IsTrue result ↔ All (HasLit self.now) lits.now }
    {
        for lit in lits {
            if !self.has(*lit) {
                return false;
            }
        }
        true
    }
}
