//! Stories: what is done to a store, and what must be seen of it then, as data.

use crate::use_of_store::{decide, fix_in_empty, found, go_back, pack, push, remove};
use clause_store::Store;
use lit_core::{Lit, Var};
use std::alloc::Global;
use std::process::Abort;
use std::test::Fail;

/// One act of a story. A literal is its variable's number, from 1 on, negative where the literal is.
#[derive(Clone, Copy)]
pub enum Act {
    /// Pushes a clause, which then holds so many literals.
    Push(&'static [i64], usize),
    Decide(i64),
    /// Fixes a literal of a store of no clause.
    Fix(i64),
    BackTo(u64),
    Clear,
    /// Lists the short clauses where nothing is assigned.
    Pack,
    /// Removes the clause with this number where nothing is assigned.
    Remove(u64),
    /// Propagates; whether no clause is false then.
    Propagate(bool),
    /// These are the true literals, in order.
    Trail(&'static [i64]),
    /// The literal is true at this level, by this clause.
    Found(i64, u64, Option<u64>),
    /// The literal is not true.
    Untrue(i64),
}

fn lit_of(number: i64) -> Lit {
    Lit {
        var: Var(number.unsigned_abs()),
        positive: number > 0,
    }
}

/// Whether these are the literals.
fn are(lits: &[Lit], numbers: &[i64]) -> bool {
    if lits.len() != numbers.len() {
        return false;
    }
    for (lit, number) in lits.iter().zip(numbers) {
        if *lit != lit_of(*number) {
            return false;
        }
    }
    true
}

fn push_numbers(alloc: Global, store: &mut Store, numbers: &[i64]) -> Result<usize, Fail> {
    let mut lits = Vec::new(alloc);
    for number in numbers {
        lits.push(lit_of(*number))?;
    }
    push(store, lits.as_slice())
}

/// Does one act; whether what must be seen is.
fn do_act(alloc: Global, store: &mut Store, act: Act) -> Result<bool, Fail> {
    match act {
        Act::Push(numbers, len) => return Ok(push_numbers(alloc, store, numbers)? == len),
        Act::Decide(number) => decide(store, lit_of(number)),
        Act::Fix(number) => fix_in_empty(store, lit_of(number)),
        Act::BackTo(level) => go_back(store, level),
        Act::Clear => store.clear(),
        Act::Pack => pack(store)?,
        Act::Remove(id) => remove(store, id),
        Act::Propagate(quiet) => return Ok(store.propagate().is_none() == quiet),
        Act::Trail(numbers) => return Ok(are(store.trail(), numbers)),
        Act::Found(number, level, reason) => {
            return Ok(found(store, lit_of(number)) == Some((level, reason)));
        }
        Act::Untrue(number) => return Ok(found(store, lit_of(number)).is_none()),
    }
    Ok(true)
}

/// Plays a story over a store of these variables.
pub fn play(rt: &impl Abort, alloc: Global, vars: u64, story: &[Act]) -> Result<(), Fail> {
    let mut store = Store::new(alloc)?;
    store.reserve_vars(vars)?;
    for act in story {
        assert!(rt; do_act(alloc, &mut store, *act)?);
    }
    Ok(())
}
