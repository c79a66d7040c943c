//! The rows of a known table that lead to those instances of a formula that it does not settle.
ghost use Rattle.std.specs.Prelude.{◌≡◌, [], length, map, IfOk, IfSome};
ghost use Rattle.kb_logic.specs.Structures.{tuples_of};
ghost use Rattle.kb_logic.specs.Trees.{terms_of};
ghost use Rattle.kb_logic.specs.Views.{formula_view, term_view};
ghost use Rattle.row_ranges.specs.Leads.{IsInOrder, Leads};
ghost use Rattle.known_guards.specs.Guards.{ArePlain, IsFalseAtom, IsRuledOut};

use crate::guards::{Guard, guard_in};
use crate::rows::rows_left;
use kb_logic::values::domain_in;
use kb_logic::{Bound, ElemList, Formula, Memory};
use partial_structures::Partial;
use row_ranges::{BoundAtom, Ranges};
use std::alloc::Global;

/// How many assignments the variables have, or the greatest number.
fn assignments(domains: &[ElemList], bounds: &[Bound]) -> u64 {
    let mut count = 1u64;
    for bound in bounds {
        count = count.saturating_mul(domain_in(domains, bound.ty).len() as u64);
    }
    count
}

/// How many tuples of these types there are. None where 64 bits cannot count them.
fn tuple_count(domains: &[ElemList], types: &[u32]) -> Option<u64>
    ensures { IfSome result (λ n. n ≡ length (tuples_of domains.now types.now)) }
{
    let mut count = 1u64;
    for ty in types {
        match count.checked_mul(domain_in(domains, *ty).len() as u64) {
            Some(product) => count = product,
            None => return None,
        }
    }
    Some(count)
}

// The table is looked through once. That pays where the assignments are as many as its tuples.
/// The rows of the guard's table, where they are few.
fn ranges_of(
    alloc: Global,
    known: &Partial,
    guard: Guard<'_>,
    bounds: &[Bound],
) -> Result<Option<Ranges>, Memory>
    requires plain { ArePlain (terms_of (map term_view guard.args.now)) }
    ensures leads { IfOk result (λ o. IfSome o (λ r.
        Leads (IsFalseAtom known.now guard.entry.symbol (terms_of (map term_view guard.entry.args.now)))
        known.now.domains r.keys.items r.start r.steps.items bounds.now [])) }
    ensures order { IfOk result (λ o. IfSome o
        (λ r. IsInOrder known.now.domains r.keys.items r.start r.steps.items bounds.now)) }
{
    let Some(declared) = known.symbols().get(guard.symbol as usize) else {
        return Ok(None);
    };
    if declared.value.is_some() {
        return Ok(None);
    }
    let domains = known.domains().as_slice();
    let Some(count) = tuple_count(domains, declared.args.as_slice()) else {
        return Ok(None);
    };
    if count > assignments(domains, bounds) {
        return Ok(None);
    }
    let Some(rows) = rows_left(alloc, known, guard.symbol)? else {
        return Ok(None);
    };
    let atom = BoundAtom {
        types: declared.args.as_slice(),
        args: guard.args,
        bounds,
    };
    Ranges::new(alloc, domains, atom, count, rows.as_slice())
}

/// The rows of a table that lead to those instances of the formula that do not certainly have the value, under the
/// assignments of an outermost binder. There are none where no table helps.
pub fn ranges_for(
    alloc: Global,
    known: &Partial,
    v: bool,
    bounds: &[Bound],
    formula: &Formula,
) -> Result<Option<Ranges>, Memory>
    ensures leads { IfOk result (λ o. IfSome o (λ r.
        Leads (IsRuledOut known.now v (formula_view formula.now)) known.now.domains r.keys.items r.start r.steps.items
        bounds.now [])) }
    ensures order { IfOk result (λ o. IfSome o
        (λ r. IsInOrder known.now.domains r.keys.items r.start r.steps.items bounds.now)) }
{
    if bounds.len() > 16 || assignments(known.domains().as_slice(), bounds) < 256 {
        return Ok(None);
    }
    for passed in 0..8 {
        let mut left = passed;
        let Some(guard) = guard_in(v, formula, &mut left) else {
            return Ok(None);
        };
        let ranges = ranges_of(alloc, known, guard, bounds)?;
        if ranges.is_some() {
            return Ok(ranges);
        }
    }
    Ok(None)
}
