//! What holds of the ground atoms before any sentence: a function has one value at each tuple, and known atoms
//! are facts.
ghost use Rattle.std.specs.Prelude.{◌≡◌, ◌<◌, ◌≤◌, ◌^◌, [], if◌then◌else◌, length, IfOk, OnOk};
ghost use Rattle.term_values.specs.GroundBases.{tuples_at, values_at};
ghost use Rattle.term_values.specs.KnownBases.{IsGroundBase};
ghost use Rattle.def_ground.specs.Cases.{with_clauses};
ghost use Rattle.def_ground.specs.Problems.{one_of_clauses, one_of_sums, said_tuples, function_says, functions_say};
ghost use Rattle.def_ground.specs.Problems.{fact_clause, fact_clauses, saying, start_problem};
ghost use Rattle.ground_walk.specs.Groundable.{HasVars, KnowsAtoms};

use crate::exactly_one::push_one_of;
use ground_core::{AtomTable, Memory, Problem};
use lit_core::{Clause, Lit, Var};
use std::alloc::Global;
use term_values::GroundData;

// A function with no value takes the empty clause once: memory may not hold as many as it has tuples.
/// How many of a function's tuples take clauses. Out of memory where a `u64` cannot count them.
fn said_count(base: &GroundData<'_>, symbol: u32) -> Result<u64, Memory>
    ensures { IfOk result (λ n. n ≡ length (said_tuples (values_at base.now symbol) (tuples_at base.now symbol))) }
{
    let count = base.tuple_count(symbol);
    if base.values(symbol).is_empty() {
        return Ok(count.min(1));
    }
    if count == u64::MAX {
        Err(Memory)
    } else {
        Ok(count)
    }
}

/// Says that the function has one value at each tuple.
fn push_function(
    alloc: Global,
    base: &GroundData<'_>,
    symbol: u32,
    problem: &mut Problem,
) -> Result<(), Memory>
    requires given { IsGroundBase base.now }
    requires known { KnowsAtoms base.now }
    requires declared { symbol < length base.now.vocabulary.symbols }
    requires room { HasVars base.now problem.old }
    ensures { OnOk result (problem.new ≡ saying problem.old
        (function_says (one_of_clauses (length base.now.known)) base.now symbol)
        (function_says (one_of_sums (length base.now.known)) base.now symbol)) }
{
    let values = base.values(symbol);
    let count = said_count(base, symbol)?;
    // The number of atoms is read for its bound: the variables of all of them are below 2^63.
    let _atoms = base.atoms();
    let mut next = base.first_var(symbol);
    for _tuple in 0..count {
        push_one_of(alloc, base, next, values, problem)?;
        next += values.len() as u64;
    }
    Ok(())
}

/// Says that a symbol has one value at each tuple, if it is a function.
fn push_symbol(
    alloc: Global,
    base: &GroundData<'_>,
    symbol: u32,
    is_function: bool,
    problem: &mut Problem,
) -> Result<(), Memory>
    requires given { IsGroundBase base.now }
    requires known { KnowsAtoms base.now }
    requires declared { symbol < length base.now.vocabulary.symbols }
    requires room { HasVars base.now problem.old }
    ensures { OnOk result (problem.new ≡ saying problem.old
        (if is_function then function_says (one_of_clauses (length base.now.known)) base.now symbol else [])
        (if is_function then function_says (one_of_sums (length base.now.known)) base.now symbol else [])) }
{
    if is_function {
        push_function(alloc, base, symbol, problem)
    } else {
        Ok(())
    }
}

/// Says that each function has one value at each tuple.
fn push_functions(alloc: Global, base: &GroundData<'_>, problem: &mut Problem) -> Result<(), Memory>
    requires given { IsGroundBase base.now }
    requires known { KnowsAtoms base.now }
    requires few { length base.now.vocabulary.symbols ≤ 2 ^ 32 }
    requires room { HasVars base.now problem.old }
    ensures { OnOk result (problem.new ≡ saying problem.old
        (functions_say (one_of_clauses (length base.now.known)) base.now)
        (functions_say (one_of_sums (length base.now.known)) base.now)) }
{
    let symbols = base.vocabulary().symbols.as_slice();
    for symbol in 0..symbols.len() {
        let is_function = symbols[symbol].value.is_some();
        push_symbol(alloc, base, symbol as u32, is_function, problem)?;
    }
    Ok(())
}

/// Says what is known of a variable's atom.
fn push_fact(
    alloc: Global,
    var: u64,
    known: Option<bool>,
    problem: &mut Problem,
) -> Result<(), Memory>
    requires low { 1 ≤ var }
    requires high { var ≤ problem.old.vars }
    ensures { OnOk result (problem.new ≡ with_clauses problem.old (fact_clause var known)) }
{
    match known {
        None => Ok(()),
        Some(positive) => {
            let fact = Lit {
                var: Var(var),
                positive,
            };
            problem.add_clause(Clause::from_slice(alloc, &[fact])?)
        }
    }
}

/// Says what is known of each atom.
fn push_facts(alloc: Global, base: &GroundData<'_>, problem: &mut Problem) -> Result<(), Memory>
    requires known { KnowsAtoms base.now }
    requires room { HasVars base.now problem.old }
    ensures { OnOk result (problem.new ≡ with_clauses problem.old (fact_clauses 1 base.now.known)) }
{
    for place in 0..base.atoms() {
        let var = place + 1;
        push_fact(alloc, var, base.known(var), problem)?;
    }
    Ok(())
}

/// What holds of the ground atoms before any sentence.
pub fn start(alloc: Global, base: &GroundData<'_>) -> Result<Problem, Memory>
    requires given { IsGroundBase base.now }
    requires known { KnowsAtoms base.now }
    requires few { length base.now.vocabulary.symbols ≤ 2 ^ 32 }
    ensures { IfOk result (λ p. p ≡ start_problem base.now) }
{
    let symbols = base.vocabulary().symbols.as_slice();
    let atoms = AtomTable::over(alloc, symbols, base.domains())?;
    let mut problem = Problem::new(alloc, atoms);
    push_functions(alloc, base, &mut problem)?;
    push_facts(alloc, base, &mut problem)?;
    Ok(problem)
}
