//! Literals that are put into a set and taken out again.
ghost use Rattle.std.specs.Prelude.{◌≡◌, List, ◌++◌, [], ◌∷◌, slice_index_or, true, false, IfOk, OnOk, IsTrue, ◌↔◌};
ghost use Rattle.lit_core.specs.declared.literals.Lit.{Lit};
ghost use Rattle.log_checker.specs.Sets.{IsSetAt, has, Turns, OnlyIn, IsMarked};
ghost use Rattle.derivation_log.specs.Steps.{HasOpposites};

use crate::literal_sets::LiteralSet;
use ground_core::Memory;
use lit_core::Lit;
use std::alloc::Global;

/// The value at the place, false past the end.
fn at(list: &[bool], var: u64) -> bool
    ensures { result ≡ slice_index_or list.now var false }
{
    match list.get(var as usize) {
        Some(value) => *value,
        None => false,
    }
}

/// Puts true there, and false where the list has to grow.
fn put_at(list: &mut Vec<bool>, var: u64) -> Result<(), Memory>
    ensures { OnOk result (IsSetAt list.old.items var true list.new.items) }
{
    let place = var as usize;
    if place >= list.len() {
        if place == usize::MAX {
            return Err(Memory);
        }
        list.resize(place + 1, false)?;
    }
    list[place] = true;
    Ok(())
}

/// Puts false there.
fn clear_at(list: &mut Vec<bool>, var: u64)
    ensures { IsSetAt list.old.items var false list.new.items }
{
    let place = var as usize;
    if place < list.len() {
        list[place] = false;
    }
}

impl LiteralSet {
    /// No literal.
    pub fn new(alloc: Global) -> LiteralSet
        ensures { OnlyIn result [] }
    {
        LiteralSet {
            positive: Vec::new(alloc),
            negative: Vec::new(alloc),
        }
    }

    /// Whether the literal is in the set.
    pub fn has(&self, lit: Lit) -> bool
        ensures { result ≡ has self.now lit }
    {
        if lit.positive {
            at(&self.positive, lit.var.0)
        } else {
            at(&self.negative, lit.var.0)
        }
    }

    /// Puts one more literal into the set.
    pub fn mark(&mut self, lit: Lit) -> Result<(), Memory>
        ensures { OnOk result (Turns self.old lit true self.new) }
    {
        if lit.positive {
            put_at(&mut self.positive, lit.var.0)
        } else {
            put_at(&mut self.negative, lit.var.0)
        }
    }

    /// Takes the literal out of the set.
    fn clear(&mut self, lit: Lit)
        ensures { Turns self.old lit false self.new }
    {
        if lit.positive {
            clear_at(&mut self.positive, lit.var.0)
        } else {
            clear_at(&mut self.negative, lit.var.0)
        }
    }

    /// Puts the literals into the set.
    pub fn mark_all(&mut self, lits: &[Lit]) -> Result<(), Memory>
        requires { OnlyIn self.old [] }
        ensures { OnOk result (IsMarked self.new lits.now) }
    {
        for lit in lits {
            self.mark(*lit)?;
        }
        Ok(())
    }

    /// Takes the literals out of the set, in which no others are.
    pub fn unmark_all(&mut self, lits: &[Lit])
        requires { OnlyIn self.old lits.now }
        ensures { OnlyIn self.new [] }
    {
        for lit in lits {
            self.clear(*lit);
        }
    }
}

/// Whether a literal of the list is there with its negation.
pub fn has_opposites(set: &mut LiteralSet, lits: &[Lit]) -> Result<bool, Memory>
    requires { OnlyIn set.old [] }
    ensures decides { IfOk result (λ b. IsTrue b ↔ HasOpposites lits.now) }
    ensures clean { OnOk result (OnlyIn set.new []) }
{
    set.mark_all(lits)?;
    let found = any_opposite(set, lits);
    set.unmark_all(lits);
    Ok(found)
}

/// Whether the negation of one of the literals is in the set.
fn any_opposite(set: &LiteralSet, lits: &[Lit]) -> bool
    requires { IsMarked set.now lits.now }
    ensures { IsTrue result ↔ HasOpposites lits.now }
{
    for lit in lits {
        if set.has(lit.negated()) {
            return true;
        }
    }
    false
}
