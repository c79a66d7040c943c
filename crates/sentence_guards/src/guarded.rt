//! The rows of a known table that lead to those instances of a sentence that may add something.
ghost use Rattle.std.specs.Prelude.{◌≡◌, [], true, map, IfOk, IfSome};
ghost use Rattle.kb_logic.specs.Trees.{terms_of};
ghost use Rattle.kb_logic.specs.Views.{formula_view, term_view};
ghost use Rattle.plain_evaluation.specs.Environments.{env_view};
ghost use Rattle.term_values.specs.KnownBases.{IsGroundBase};
ghost use Rattle.row_ranges.specs.Leads.{IsInOrder, Leads};
ghost use Rattle.sentence_guards.specs.Guards.{AddsNothing, IsKnownFalse};

use crate::guards::{Guard, guard_in};
use crate::rows::rows_left;
use kb_logic::values::domain_in;
use kb_logic::{Bound, ElemList, Formula, Memory};
use plain_evaluation::environments::Env;
use row_ranges::{BoundAtom, Ranges};
use std::alloc::Global;
use term_values::GroundData;

/// How many assignments the variables have, or the greatest number.
fn assignments(domains: &[ElemList], bounds: &[Bound]) -> u64 {
    let mut count = 1u64;
    for bound in bounds {
        count = count.saturating_mul(domain_in(domains, bound.ty).len() as u64);
    }
    count
}

/// Whether no variable has an element yet.
fn is_outermost(env: &Env<'_>) -> bool
    ensures { result ≡ true → env_view env.now ≡ [] }
{
    match env {
        Env::Given(given) => given.is_empty(),
        Env::Bound(..) => false,
    }
}

// The table is looked through once. That pays where the assignments are as many as its tuples.
/// The rows of the guard's table, where they are few.
fn ranges_of<'a>(
    alloc: Global,
    base: &GroundData<'_>,
    guard: Guard<'a>,
    bounds: &[Bound],
) -> Result<Option<Ranges>, Memory>
    requires given { IsGroundBase base.now }
    ensures leads { IfOk result (λ o. IfSome o (λ r.
        Leads (IsKnownFalse base.now guard.entry.symbol (terms_of (map term_view guard.entry.args.now)))
        base.now.domains r.keys.items r.start r.steps.items bounds.now [])) }
    ensures order { IfOk result (λ o. IfSome o
        (λ r. IsInOrder base.now.domains r.keys.items r.start r.steps.items bounds.now)) }
{
    let Some(declared) = base.vocabulary().symbols.get(guard.symbol as usize) else {
        return Ok(None);
    };
    let count = base.tuple_count(guard.symbol);
    if count >= 1 << 63 || count > assignments(base.domains(), bounds) {
        return Ok(None);
    }
    let Some(rows) = rows_left(alloc, base, guard.symbol)? else {
        return Ok(None);
    };
    let atom = BoundAtom {
        types: declared.args.as_slice(),
        args: guard.args,
        bounds,
    };
    Ranges::new(alloc, base.domains(), atom, count, rows.as_slice())
}

/// The rows of a table that lead to those instances of the formula, or of its negation where the sign is false, that
/// may add something. There are none where no table helps; they are looked for in the outermost binders of sentences
/// alone.
pub fn ranges_for<'a>(
    alloc: Global,
    base: &GroundData<'_>,
    sign: bool,
    bounds: &[Bound],
    formula: &'a Formula,
    env: &Env<'_>,
) -> Result<Option<Ranges>, Memory>
    requires given { IsGroundBase base.now }
    ensures leads { IfOk result (λ o. IfSome o (λ r.
        Leads (AddsNothing base.now sign (formula_view formula.now)) base.now.domains r.keys.items r.start r.steps.items
        bounds.now (env_view env.now))) }
    ensures order { IfOk result (λ o. IfSome o
        (λ r. IsInOrder base.now.domains r.keys.items r.start r.steps.items bounds.now)) }
{
    if !is_outermost(env) {
        return Ok(None);
    }
    if bounds.len() > 16 || assignments(base.domains(), bounds) < 256 {
        return Ok(None);
    }
    for passed in 0..8 {
        let mut left = passed;
        let Some(guard) = guard_in(sign, formula, &mut left) else {
            return Ok(None);
        };
        let ranges = ranges_of(alloc, base, guard, bounds)?;
        if ranges.is_some() {
            return Ok(ranges);
        }
    }
    Ok(None)
}
