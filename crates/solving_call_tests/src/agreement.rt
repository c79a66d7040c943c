//! The store beside the plain propagation on generated clauses, and on many clauses in time.
ghost use Rattle.std.specs.Prelude.{◌<◌};

use crate::plain::{Plain, value_of};
use crate::random::Random;
use crate::use_of_store::{decide, go_back, is_free, pack, push};
use clause_store::Store;
use lit_core::{Assignment, ClauseList, Lit, Var};
use std::alloc::Global;
use std::process::Abort;
use std::test::Fail;

const VARS: u64 = 8;

/// A store of so many variables.
fn store_of(alloc: Global, vars: u64) -> Result<Store, Fail> {
    let mut store = Store::new(alloc)?;
    store.reserve_vars(vars)?;
    Ok(store)
}

/// The two on the same clauses and decisions.
#[derive(Drop)]
struct Pair {
    store: Store,
    plain: Plain,
}

fn pair_of(alloc: Global) -> Result<Pair, Fail> {
    Ok(Pair {
        store: store_of(alloc, VARS)?,
        plain: Plain {
            vars: VARS,
            clauses: ClauseList::new(alloc),
            decisions: Vec::new(alloc),
        },
    })
}

fn push_both(pair: &mut Pair, lits: &[Lit]) -> Result<(), Fail> {
    push(&mut pair.store, lits)?;
    pair.plain.clauses.push(lits)?;
    Ok(())
}

fn decide_both(pair: &mut Pair, lit: Lit) -> Result<(), Fail> {
    if is_free(&pair.store, lit) {
        pair.plain.decisions.push(lit)?;
        decide(&mut pair.store, lit);
    }
    Ok(())
}

fn go_back_both(pair: &mut Pair, level: u64) {
    go_back(&mut pair.store, level);
    pair.plain.decisions.truncate(level as usize);
}

/// Whether the store has these values.
fn has_values(store: &Store, values: &Assignment) -> bool {
    for var in 0..VARS {
        let lit = Lit {
            var: Var(var),
            positive: true,
        };
        if value_of(store.assignment(), lit) != value_of(values, lit) {
            return false;
        }
    }
    true
}

/// Propagates; whether both find a false clause, or the same values. A false clause takes back all.
fn agree(alloc: Global, pair: &mut Pair) -> Result<bool, Fail> {
    let quiet = pair.store.propagate().is_none();
    match pair.plain.consequences(alloc)? {
        Some(values) => Ok(quiet && has_values(&pair.store, &values)),
        None => {
            go_back_both(pair, 0);
            Ok(!quiet)
        }
    }
}

fn change(alloc: Global, pair: &mut Pair, random: &mut Random) -> Result<(), Fail> {
    match random.below(8) {
        0 => push_both(pair, &[random.lit(VARS), random.lit(VARS)])?,
        1 => go_back_both(pair, random.below(4)),
        2 => {
            pair.store.clear();
            pair.plain.decisions.clear();
        }
        3 => {
            pack(&mut pair.store)?;
            pair.plain.decisions.clear();
        }
        _ => decide_both(pair, random.lit(VARS))?,
    }
    Ok(())
}

fn run(rt: &impl Abort, alloc: Global, seed: u64) -> Result<(), Fail> {
    let mut random = Random(seed);
    let mut pair = pair_of(alloc)?;
    for _ in 0..20 {
        push_both(
            &mut pair,
            &[random.lit(VARS), random.lit(VARS), random.lit(VARS)],
        )?;
    }
    for _ in 0..60 {
        change(alloc, &mut pair, &mut random)?;
        if random.below(3) > 0 {
            assert!(rt; agree(alloc, &mut pair)?);
        }
    }
    Ok(())
}

#[test]
fn both_agree(rt: HostRuntime) -> Result<(), Fail> {
    for seed in 0..50 {
        run(&rt, rt.alloc(), seed)?;
    }
    Ok(())
}

/// Makes so many decisions, each propagated, and goes back where a clause is false. Returns how often.
fn drive(store: &mut Store, random: &mut Random, vars: u64, decisions: u64) -> u64
    requires { 0 < vars }
{
    let mut conflicts: u64 = 0;
    for _ in 0..decisions {
        decide(store, random.lit(vars));
        if store.propagate().is_some() {
            conflicts = conflicts.saturating_add(1);
            let level = store.level();
            go_back(store, level - level / 4);
        }
    }
    conflicts
}

#[test]
fn many_clauses_are_propagated_in_time(rt: HostRuntime) -> Result<(), Fail> {
    let vars = 20_000;
    let mut random = Random(1);
    let mut store = store_of(rt.alloc(), vars)?;
    for _ in 0..70_000 {
        push(
            &mut store,
            &[random.lit(vars), random.lit(vars), random.lit(vars)],
        )?;
    }
    assert!(rt; drive(&mut store, &mut random, vars, 200_000) > 0);
    Ok(())
}

/// Each of the literals twice, the greatest first.
fn doubled(alloc: Global, vars: u64) -> Result<Vec<Lit>, Fail> {
    let mut lits = Vec::new(alloc);
    for var in (0..vars).rev() {
        let lit = Lit {
            var: Var(var),
            positive: true,
        };
        lits.push(lit)?;
        lits.push(lit)?;
    }
    Ok(lits)
}

#[test]
fn a_long_clause_is_pushed_in_time(rt: HostRuntime) -> Result<(), Fail> {
    let mut store = store_of(rt.alloc(), 200_000)?;
    let lits = doubled(rt.alloc(), 200_000)?;
    store.reserve_clause(400_000)?;
    assert_eq!(rt; push(&mut store, lits.as_slice())?, 200_000);
    Ok(())
}
