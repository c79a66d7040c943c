//! Clauses that are held only as long as one of their literals is true.
//!
//! What a constraint implies is found anew whenever the constraint is asked, and a search meets more such clauses than
//! it could watch: those that stayed took half of its time and more. Each is held when a literal follows by it, as its
//! reason, and what was made true later is taken back before; so the numbers are a stack, and a backtrack gives back
//! the newest. The log keeps what was stated of them.
ghost use Rattle.std.specs.Prelude.{◌≡◌, ◌<◌, ◌-◌, ◌++◌, ◌∷◌, [], length, slice_get, All, IfOk, IfSome, List, OnErr, ℕ};
ghost use Rattle.lit_core.specs.declared.literals.Lit.{Lit};
ghost use Rattle.lit_core.specs.Literals.{negated};
ghost use Rattle.clause_store.specs.Releasing.{HasTrue};
ghost use Rattle.clause_store.specs.StoreState.{IsEachOnceOf, IsStore, with_clause};
ghost use Rattle.clause_store.specs.TrailLaws.{IsFixed};
ghost use Rattle.search_engine.specs.Passing.{GivesBack};

use clause_store::Store;
use ground_core::Memory;
use lit_core::Lit;

/// Holds a clause up to the backtrack after which none of its literals is true.
pub fn hold_passing(
    store: &mut Store,
    passing: &mut Vec<u64>,
    clause: &[Lit],
) -> Result<u64, Memory>
    requires laws { IsStore store.old }
    requires in_range { All (λ l. l.var.0 < length store.old.trail.values) clause.now }
    requires unopposed { All (λ l. IsFixed store.old.trail (negated l) → ⊥) clause.now }
    ensures ok { IfOk result (λ id. (id ≡ length store.old.clauses) × ((c : List Lit) × IsEachOnceOf clause.now c
        × (store.new ≡ with_clause store.old c))
        × (passing.new.items ≡ passing.old.items ++ length store.old.clauses ∷ [])) }
    ensures err { OnErr result (store.new ≡ store.old) }
    ensures same { OnErr result (passing.new.items ≡ passing.old.items) }
    ensures laws { IsStore store.new }
{
    passing.reserve(1)?;
    let id = store.push_clause(clause)?;
    passing.push_reserved(id);
    Ok(id)
}

/// The newest of the numbers.
fn newest(passing: &[u64]) -> Option<u64>
    ensures { result ≡ slice_get passing.now (length passing.now - 1) }
{
    passing.last().copied()
}

/// Removes the newest of these clauses, up to the first of which a literal is true.
pub fn give_back(store: &mut Store, passing: &mut Vec<u64>)
    requires laws { IsStore store.old }
    requires within { All (λ id. id < length store.old.clauses) passing.old.items }
    ensures trail { store.new.trail ≡ store.old.trail }
    ensures given { GivesBack passing.old.items store.old.clauses passing.new.items store.new.clauses }
    ensures stops { IfSome (slice_get passing.new.items (length passing.new.items - 1)) (HasTrue store.new) }
    ensures needed { (id : ℕ) → HasTrue store.old id → HasTrue store.new id }
    ensures laws { IsStore store.new }
{
    while let Some(id) = newest(passing.as_slice()) {
        if !store.release(id) {
            return;
        }
        let _ = passing.pop();
    }
}
