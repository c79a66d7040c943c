//! Holding the clauses of a problem.
ghost use Rattle.std.specs.Prelude.{◌≡◌, ◌≤◌, ◌<◌, [], length, flat_map, take, slice_get, All, OnOk, Some};
ghost use Rattle.clause_store.specs.StoreState.{IsStore};
ghost use Rattle.ground_core.specs.GateClauses.{clauses_of, gate_clauses};
ghost use Rattle.search_engine.specs.Knowledge.{Pushes, RemovesAll, RemovesFrom};

use clause_store::Store;
use ground_core::{Gate, Memory, Problem, clauses_of_gate};
use lit_core::{ClauseList, Lit, PackedLit};
use std::alloc::Global;

/// Writes the literals over what stood in the buffer.
fn unpack(lits: &[PackedLit], buffer: &mut Vec<Lit>) -> Result<(), Memory>
    ensures { OnOk result (buffer.new.items ≡ lits.now) }
{
    buffer.clear();
    buffer.reserve(lits.len())?;
    for lit in lits {
        buffer.push_reserved(lit.lit());
    }
    Ok(())
}

/// Writes the literals of the clause at a place over what stood in the buffer.
fn unpack_clause(clauses: &ClauseList, place: usize, buffer: &mut Vec<Lit>) -> Result<(), Memory>
    requires { place < length clauses.now }
    ensures { OnOk result (slice_get clauses.now place ≡ Some buffer.new.items) }
{
    match clauses.get(place) {
        Some(lits) => unpack(lits, buffer),
        None => unreachable!(),
    }
}

/// Holds the clauses in order.
///
/// Their literals are unpacked into one buffer, which keeps its memory from clause to clause.
fn push_clauses(alloc: Global, store: &mut Store, clauses: &ClauseList) -> Result<(), Memory>
    requires laws { IsStore store.old }
    requires in_range { All (All (λ l. l.var.0 < length store.old.trail.values)) clauses.now }
    requires cleared { store.old.trail.steps ≡ [] }
    ensures trail { store.new.trail ≡ store.old.trail }
    ensures front { store.old.clauses ≡ take (length store.old.clauses) store.new.clauses }
    ensures ok { OnOk result (Pushes store.old.clauses store.new.clauses clauses.now) }
    ensures laws { IsStore store.new }
{
    let mut buffer = Vec::new(alloc);
    for place in 0..clauses.len() {
        unpack_clause(clauses, place, &mut buffer)?;
        store.push_clause(buffer.as_slice())?;
    }
    Ok(())
}

/// Holds the clauses of the gates in order.
fn push_gates(alloc: Global, store: &mut Store, gates: &[Gate]) -> Result<(), Memory>
    requires laws { IsStore store.old }
    requires in_range { All (All (λ l. l.var.0 < length store.old.trail.values)) (flat_map gate_clauses gates.now) }
    requires cleared { store.old.trail.steps ≡ [] }
    ensures trail { store.new.trail ≡ store.old.trail }
    ensures front { store.old.clauses ≡ take (length store.old.clauses) store.new.clauses }
    ensures ok { OnOk result (Pushes store.old.clauses store.new.clauses (flat_map gate_clauses gates.now)) }
    ensures laws { IsStore store.new }
{
    for gate in gates {
        let clauses = clauses_of_gate(alloc, gate)?;
        push_clauses(alloc, store, &clauses)?;
    }
    Ok(())
}

/// Holds all clauses of the problem: those of its gates in order, then its own.
pub fn push_problem(alloc: Global, store: &mut Store, more: &Problem) -> Result<(), Memory>
    requires laws { IsStore store.old }
    requires in_range { more.now.vars < length store.old.trail.values }
    requires cleared { store.old.trail.steps ≡ [] }
    ensures trail { store.new.trail ≡ store.old.trail }
    ensures front { store.old.clauses ≡ take (length store.old.clauses) store.new.clauses }
    ensures ok { OnOk result (Pushes store.old.clauses store.new.clauses (clauses_of more.now)) }
    ensures laws { IsStore store.new }
{
    push_gates(alloc, store, more.gates())?;
    push_clauses(alloc, store, more.clauses())
}

/// Removes the clauses from a number on.
pub fn remove_from(store: &mut Store, first: usize)
    requires laws { IsStore store.old }
    requires cleared { store.old.trail.steps ≡ [] }
    ensures trail { store.new.trail ≡ store.old.trail }
    ensures removed { RemovesFrom first store.old.clauses store.new.clauses }
    ensures laws { IsStore store.new }
{
    for id in first..store.len() {
        store.remove(id as u64);
    }
}

/// Removes the clauses with these numbers.
pub fn remove_all(store: &mut Store, ids: &[u64])
    requires laws { IsStore store.old }
    requires cleared { store.old.trail.steps ≡ [] }
    requires within { All (λ id. id < length store.old.clauses) ids.now }
    ensures trail { store.new.trail ≡ store.old.trail }
    ensures removed { RemovesAll ids.now store.old.clauses store.new.clauses }
    ensures laws { IsStore store.new }
{
    for id in ids {
        store.remove(*id);
    }
}
