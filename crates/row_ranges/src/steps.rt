//! The steps of an atom's arguments, and of the variables that they are.
ghost use Rattle.std.specs.Prelude.{◌≡◌, ◌↔◌, [], map, IfOk, IfSome, IsTrue};
ghost use Rattle.kb_logic.specs.Trees.{terms_of, variable};
ghost use Rattle.kb_logic.specs.Views.{term_view};
ghost use Rattle.row_ranges.specs.Keys.{HaveType, HaveSteps, own_step, step_of};
ghost use Rattle.row_ranges.specs.Leads.{AreWide, reach};

use kb_logic::values::domain_in;
use kb_logic::{Bound, ElemList, Memory, Term};
use std::alloc::Global;

/// When the argument has its element: constants before the first variable.
fn rank(arg: &Term) -> u64 {
    match arg {
        Term::Var(n) => *n as u64 + 1,
        _ => 0,
    }
}

/// Whether the first of two arguments has its element after the other.
fn is_after(args: &[Term], first: usize, other: usize) -> bool {
    let (Some(a), Some(b)) = (args.get(first), args.get(other)) else {
        return false;
    };
    let (late, early) = (rank(a), rank(b));
    late > early || (late == early && first > other)
}

// So the keys of rows stand in the order in which the variables have their elements.
/// A step for each argument: in how many ways those that have their elements after it may have them.
pub(crate) fn own_steps(
    alloc: Global,
    domains: &[ElemList],
    types: &[u32],
    args: &[Term],
) -> Result<Vec<u64>, Memory> {
    let mut steps = Vec::with_capacity(alloc, types.len())?;
    for place in 0..types.len() {
        let mut step = 1u64;
        for other in 0..types.len() {
            if is_after(args, other, place) {
                step = step.saturating_mul(domain_in(domains, types[other]).len() as u64);
            }
        }
        steps.push(step)?;
    }
    Ok(steps)
}

/// The step of an argument, where it is the variable.
fn own_step(step: u64, arg: &Term, n: usize) -> u64
    ensures { result ≡ own_step step (term_view arg.now) n }
{
    match arg {
        Term::Var(m) => if *m as usize == n { step } else { 0 },
        _ => 0,
    }
}

/// Whether the argument is the variable.
fn is_variable(arg: &Term, n: usize) -> bool
    ensures { IsTrue result ↔ (term_view arg.now ≡ variable n) }
{
    match arg {
        Term::Var(m) => *m as usize == n,
        _ => false,
    }
}

/// The step of a variable of this type: those of the arguments that it is. There is none where it leaves 64 bits, or
/// where it is an argument of another type.
fn variable_step(types: &[u32], own: &[u64], args: &[Term], n: usize, ty: u32) -> Option<u64>
    ensures step { IfSome result (λ s. s ≡ step_of types.now own.now (terms_of (map term_view args.now)) n) }
    ensures typed { IfSome result (λ s. HaveType types.now ty (terms_of (map term_view args.now)) n) }
{
    let Some((own_type, types)) = types.split_first() else {
        return Some(0);
    };
    let Some((step, own)) = own.split_first() else {
        return None;
    };
    let Some((arg, args)) = args.split_first() else {
        return Some(0);
    };
    let Some(rest) = variable_step(types, own, args, n, ty) else {
        return None;
    };
    if is_variable(arg, n) && *own_type != ty {
        return None;
    }
    own_step(*step, arg, n).checked_add(rest)
}

/// The steps of the variables.
pub(crate) fn variable_steps(
    alloc: Global,
    types: &[u32],
    own: &[u64],
    args: &[Term],
    bounds: &[Bound],
) -> Result<Option<Vec<u64>>, Memory>
    ensures { IfOk result (λ o. IfSome o
        (λ steps. HaveSteps types.now own.now (terms_of (map term_view args.now)) 0 bounds.now steps.items)) }
{
    let mut steps = Vec::with_capacity(alloc, bounds.len())?;
    for n in 0..bounds.len() {
        let Some(step) = variable_step(types, own, args, n, bounds[n].ty) else {
            return Ok(None);
        };
        steps.push(step)?;
    }
    Ok(Some(steps))
}

/// How far the variables together may move a key, and 1. There is none where it leaves 64 bits, or where a variable's
/// step is below what those after it move the key.
pub(crate) fn reach(domains: &[ElemList], steps: &[u64], bounds: &[Bound]) -> Option<u64>
    ensures reach { IfSome result (λ r. r ≡ reach domains.now steps.now bounds.now) }
    ensures wide { IfSome result (λ r. AreWide domains.now steps.now bounds.now) }
{
    let Some((bound, bounds)) = bounds.split_first() else {
        return Some(1);
    };
    let Some((step, steps)) = steps.split_first() else {
        return Some(1);
    };
    let Some(rest) = reach(domains, steps, bounds) else {
        return None;
    };
    if *step > 0 && *step < rest {
        return None;
    }
    let size = domain_in(domains, bound.ty).len() as u64;
    match size.saturating_sub(1).checked_mul(*step) {
        Some(first) => first.checked_add(rest),
        None => None,
    }
}
