//! The rows of a table, as an atom's variables lead to them.
ghost use Rattle.std.specs.Prelude.{◌≡◌, [], length, map, IfOk, IfSome};
ghost use Rattle.std.specs.List.{AllByRecursion};
ghost use Rattle.kb_logic.specs.Structures.{IsDistinct, tuples_of};
ghost use Rattle.kb_logic.specs.Trees.{terms_of};
ghost use Rattle.kb_logic.specs.Views.{term_view};
ghost use Rattle.row_ranges.specs.Arguments.{IsNoRow};
ghost use Rattle.row_ranges.specs.Leads.{HaveNoSteps, Leads, IsInOrder};

use crate::arguments::constant_key;
use crate::keys::sorted_keys;
use crate::places::RowPlace;
use crate::steps::{own_steps, reach, variable_steps};
use kb_logic::{Bound, ElemList, Memory, Term};
use std::alloc::Global;

/// An atom's arguments and their types, and the variables of the binder below which it stands.
#[derive(Clone, Copy)]
pub struct BoundAtom<'a> {
    pub types: &'a [u32],
    pub args: &'a [Term],
    pub bounds: &'a [Bound],
}

/// The keys of the rows of a table, in the order in which the variables of a binder have their elements.
#[derive(Drop)]
pub struct Ranges {
    pub keys: Vec<u64>,
    pub steps: Vec<u64>,
    pub start: u64,
    pub needed: usize,
}

/// After how many variables the rows say nothing of the others: those that have no step.
fn needed(steps: &[u64]) -> usize
    ensures { HaveNoSteps steps.now result }
{
    let mut count = 0;
    for n in 0..steps.len() {
        if steps[n] > 0 {
            count = n + 1;
        }
    }
    count
}

impl Ranges {
    /// The rows of a table over so many tuples of the atom's types, each by its index among them, as the arguments lead
    /// to them. There are none where their keys do not fit 64 bits, or where a variable is an argument of another type.
    pub fn new(
        alloc: Global,
        domains: &[ElemList],
        atom: BoundAtom<'_>,
        count: u64,
        rows: &[u64],
    ) -> Result<Option<Ranges>, Memory>
        requires distinct { AllByRecursion IsDistinct domains.now }
        requires count { count ≡ length (tuples_of domains.now atom.types.now) }
        ensures leads { IfOk result (λ o. IfSome o (λ r.
            Leads (IsNoRow domains.now atom.entry.types.now rows.now (terms_of (map term_view atom.entry.args.now)))
            domains.now r.keys.items r.start r.steps.items atom.entry.bounds.now [])) }
        ensures order { IfOk result (λ o. IfSome o
            (λ r. IsInOrder domains.now r.keys.items r.start r.steps.items atom.entry.bounds.now)) }
        ensures needed { IfOk result (λ o. IfSome o (λ r. HaveNoSteps r.steps.items r.needed)) }
    {
        let (types, args, bounds) = (atom.types, atom.args, atom.bounds);
        let steps_of_arguments = own_steps(alloc, domains, types, args)?;
        let own = steps_of_arguments.as_slice();
        let Some(start) = constant_key(domains, types, own, args) else {
            return Ok(None);
        };
        let Some(steps) = variable_steps(alloc, types, own, args, bounds)? else {
            return Ok(None);
        };
        let Some(keys) = sorted_keys(alloc, domains, types, own, count, rows)? else {
            return Ok(None);
        };
        let Some(far) = reach(domains, steps.as_slice(), bounds) else {
            return Ok(None);
        };
        if start.checked_add(far).is_none() {
            return Ok(None);
        }
        let needed = needed(steps.as_slice());
        Ok(Some(Ranges {
            keys,
            steps,
            start,
            needed,
        }))
    }

    /// Before the first variable.
    pub fn place(&self) -> RowPlace<'_>
        ensures keys { result.keys.now ≡ self.now.keys.items }
        ensures key { result.key ≡ self.now.start }
        ensures steps { result.steps.now ≡ self.now.steps.items }
        ensures needed { result.needed ≡ self.now.needed }
    {
        RowPlace {
            keys: self.keys.as_slice(),
            steps: self.steps.as_slice(),
            key: self.start,
            needed: self.needed,
        }
    }
}
