//! What is stated in the log, where one is kept.
ghost use Rattle.std.specs.Prelude.{◌≡◌, ◌<◌, length, OnErr};
ghost use Rattle.clause_store.specs.StoreState.{IsConflict};
ghost use Rattle.search_log.specs.Entries.{Grows};

use clause_store::Store;
use conflict_analysis::root_hints;
use ground_core::{Memory, exclusion};
use kb_logic::ExtInt;
use kept_problem::KeptProblem;
use lit_core::{Lit, Values, Var};
use search_log::SearchLog;
use std::alloc::Global;

/// States that the problem is refuted, where a clause is false with no decision.
pub fn note_refuted(
    alloc: Global,
    log: &mut SearchLog,
    store: &Store,
    conflict: u64,
) -> Result<(), Memory>
    requires conflict { IsConflict store.now conflict }
    requires level { store.now.trail.level ≡ 0 }
    ensures grows { Grows log.old.entries log.new.entries }
{
    if !log.is_kept() {
        return Ok(());
    }
    let hints = root_hints(alloc, store, conflict)?;
    log.refute(&[], &hints)
}

/// States that a bound is added under the next variable.
pub fn note_bound(
    log: &mut SearchLog,
    problem: &KeptProblem,
    term: u32,
    below: ExtInt,
) -> Result<(), Memory>
    ensures grows { Grows log.old.entries log.new.entries }
    ensures err { OnErr result (log.new.entries ≡ log.old.entries) }
{
    let Some(var) = problem.vars().checked_add(1) else {
        return Err(Memory);
    };
    log.bound(Var(var), term, below)
}

/// States that values are excluded under the next variable, by the clause that is held next.
pub fn note_exclusion(
    alloc: Global,
    log: &mut SearchLog,
    problem: &KeptProblem,
    id: u64,
    values: &Values,
) -> Result<(), Memory>
    requires atoms { length problem.now.atoms < length values.now }
    ensures grows { Grows log.old.entries log.new.entries }
    ensures err { OnErr result (log.new.entries ≡ log.old.entries) }
{
    if !log.is_kept() {
        return Ok(());
    }
    let Some(var) = problem.vars().checked_add(1) else {
        return Err(Memory);
    };
    let out = Lit {
        var: Var(var),
        positive: true,
    };
    let atoms = problem.atom_count() as usize;
    let clause = exclusion(alloc, out, values, atoms)?;
    log.exclude(id, Var(var), clause.as_slice().split_at(1).1)
}
