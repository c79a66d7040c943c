//! What is learnt from a conflict, and which decisions are blamed, over a store of the clauses alone.
ghost use Rattle.std.specs.Prelude.{◌≡◌, ◌<◌, length, IsTrue, IfSome};
ghost use Rattle.lit_core.specs.Literals.{negated};
ghost use Rattle.clause_store.specs.TrailLaws.{IsFixed};
ghost use Rattle.clause_store.specs.StoreState.{IsConflict};
ghost use Rattle.conflict_analysis.specs.Analyses.{HasCurrent};

use clause_store::Store;
use conflict_analysis::{Analysis, Refuted, analyse, final_core, root_hints};
use lit_core::Lit;
use solving_judge::faults::Fault;
use solving_judge::problems::{Said, Spoken};
use std::alloc::Global;

/// Pushes a clause while nothing is assigned.
fn push(store: &mut Store, lits: &[Lit]) -> Result<(), Fault> {
    let vars = store.assignment().len() as u64;
    if !store.trail().is_empty() || !lits.iter().all(|lit| lit.var.0 < vars) {
        return Err(Fault::Literal);
    }
    store.push_clause(lits)?;
    Ok(())
}

/// Makes a decision where it may be made.
fn decide(store: &mut Store, lit: Lit) {
    if lit.var.0 < store.assignment().len() as u64 && store.assignment().value(lit).is_none() {
        store.assign(lit, None);
    }
}

/// A store of the clauses.
fn store_of(alloc: Global, spoken: &Spoken) -> Result<Store, Fault> {
    let mut store = Store::new(alloc)?;
    store.reserve_vars(u64::from(spoken.atoms) + 1)?;
    for said in &spoken.said {
        if let Said::Clause(lits) = said {
            push(&mut store, lits)?;
        }
    }
    Ok(store)
}

/// Makes these decisions, and what follows from them.
fn decide_all(store: &mut Store, lits: &[Lit]) -> Option<u64>
    ensures { IfSome result (λ id. IsConflict store.new id) }
{
    let _ = store.propagate();
    for lit in lits {
        decide(store, *lit);
    }
    store.propagate()
}

/// Whether the false clause has a literal of the current level.
fn has_current(store: &Store, conflict: u64) -> bool
    requires { IsConflict store.now conflict }
    ensures { IsTrue result → HasCurrent store.now conflict }
{
    let lits = store.lend(conflict);
    for lit in lits {
        if store.level_of(lit.lit().var) == store.level() {
            return true;
        }
    }
    false
}

/// Whether the literal is fixed.
fn is_fixed(store: &Store, lit: Lit) -> bool
    requires { lit.var.0 < length store.now.trail.values }
    ensures { IsFixed store.now.trail (negated lit) → IsTrue result }
{
    match store.assignment().value(lit) {
        Some(false) => store.level_of(lit.var) == 0 && store.reason(lit.var).is_none(),
        _ => false,
    }
}

/// What is learnt where these decisions make a clause false; None where nothing is.
pub fn learnt(
    alloc: Global,
    spoken: &Spoken,
    decisions: &[Lit],
) -> Result<Option<Analysis>, Fault> {
    let mut store = store_of(alloc, spoken)?;
    let Some(conflict) = decide_all(&mut store, decisions) else {
        return Ok(None);
    };
    if store.level() == 0 || !has_current(&store, conflict) {
        return Ok(None);
    }
    Ok(Some(analyse(alloc, &store, conflict)?))
}

/// Those of the decisions that make a literal false; None where none do.
pub fn blamed(
    alloc: Global,
    spoken: &Spoken,
    lit: Lit,
    decisions: &[Lit],
) -> Result<Option<Refuted>, Fault> {
    let mut store = store_of(alloc, spoken)?;
    if decide_all(&mut store, decisions).is_some() || lit.var.0 >= store.assignment().len() as u64 {
        return Ok(None);
    }
    if store.assignment().value(lit) != Some(false) || is_fixed(&store, lit) {
        return Ok(None);
    }
    Ok(Some(final_core(alloc, &store, lit)?))
}

/// The clauses by which one is false with no decision; None where none is.
pub fn refutation(alloc: Global, spoken: &Spoken) -> Result<Option<Vec<u64>>, Fault> {
    let mut store = store_of(alloc, spoken)?;
    let Some(conflict) = store.propagate() else {
        return Ok(None);
    };
    if store.level() > 0 {
        return Ok(None);
    }
    Ok(Some(root_hints(alloc, &store, conflict)?))
}
