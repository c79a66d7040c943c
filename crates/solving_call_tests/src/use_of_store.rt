//! Calls of a store that ask first whether they may be made.
ghost use Rattle.std.specs.Prelude.{◌≡◌, ◌<◌, length, IsTrue, All};
ghost use Rattle.lit_core.specs.Literals.{negated};
ghost use Rattle.clause_store.specs.TrailLaws.{IsFixed};

use clause_store::Store;
use lit_core::{Lit, Memory};
use std::test::Fail;

/// Whether the negation of the literal may be fixed.
fn is_opposed(store: &Store, lit: Lit) -> bool
    requires { lit.var.0 < length store.now.trail.values }
    ensures { IsFixed store.now.trail (negated lit) → IsTrue result }
{
    match store.assignment().value(lit) {
        Some(false) => store.level_of(lit.var) == 0 && store.reason(lit.var).is_none(),
        _ => false,
    }
}

/// Whether a clause of these literals may be pushed.
pub fn may_push(store: &Store, lits: &[Lit]) -> bool
    ensures in_range { IsTrue result → All (λ l. l.var.0 < length store.now.trail.values) lits.now }
    ensures unopposed { IsTrue result → All (λ l. IsFixed store.now.trail (negated l) → ⊥) lits.now }
{
    for lit in lits {
        if lit.var.0 >= store.assignment().len() as u64 || is_opposed(store, *lit) {
            return false;
        }
    }
    true
}

/// Pushes a clause, and returns how many literals it holds.
pub fn push(store: &mut Store, lits: &[Lit]) -> Result<usize, Fail> {
    if !may_push(store, lits) {
        return Err(Fail::from("no clause of the store"));
    }
    let id = store.push_clause(lits)?;
    Ok(store.lend(id).len())
}

/// Whether the literal is unassigned.
pub fn is_free(store: &Store, lit: Lit) -> bool {
    lit.var.0 < store.assignment().len() as u64 && store.assignment().value(lit).is_none()
}

/// Makes a decision where it may be made.
pub fn decide(store: &mut Store, lit: Lit) {
    if lit.var.0 < store.assignment().len() as u64 && store.assignment().value(lit).is_none() {
        store.assign(lit, None);
    }
}

/// Fixes a literal where there is no clause.
pub fn fix_in_empty(store: &mut Store, lit: Lit) {
    if store.is_empty()
        && store.level() == 0
        && lit.var.0 < store.assignment().len() as u64
        && store.assignment().value(lit).is_none()
    {
        store.fix(lit);
    }
}

/// The level and the reason of a literal that is true.
pub fn found(store: &Store, lit: Lit) -> Option<(u64, Option<u64>)> {
    if lit.var.0 < store.assignment().len() as u64 && store.assignment().value(lit) == Some(true) {
        Some((store.level_of(lit.var), store.reason(lit.var)))
    } else {
        None
    }
}

/// Goes back where that is back.
pub fn go_back(store: &mut Store, level: u64) {
    if level <= store.level() {
        store.back_to(level);
    }
}

/// Lists the short clauses where nothing is assigned.
pub fn pack(store: &mut Store) -> Result<(), Memory> {
    store.clear();
    store.pack()
}

/// Removes a clause where nothing is assigned.
pub fn remove(store: &mut Store, id: u64) {
    store.clear();
    if id < store.len() as u64 {
        store.remove(id);
    }
}
