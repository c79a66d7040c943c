//! Places among the keys of a table's rows.
ghost use Rattle.std.specs.Prelude.{ℕ, ◌≡◌, ◌==◌, ◌+◌, ◌*◌, ◌-◌, ◌^◌, ◌<◌, ◌≤◌, ◌++◌, drop, length};
ghost use Rattle.std.specs.List.Sorted.{IsNonDecreasing};
ghost use Rattle.kb_logic.specs.Structures.{choices};
ghost use Rattle.row_ranges.specs.Leads.{first_step, HasNoKey};

use crate::keys::least_from;
use kb_logic::values::domain_in;
use kb_logic::{Bound, ElemList};
use plain_evaluation::frames::Block;

/// Where the elements of the first variables lead among the keys of a table's rows.
#[derive(Clone, Copy)]
pub struct RowPlace<'a> {
    pub keys: &'a [u64],
    /// The steps of the variables that are left.
    pub steps: &'a [u64],
    pub key: u64,
    /// After how many more variables the rows say nothing of those that are left.
    pub needed: usize,
}

impl<'a> RowPlace<'a> {
    /// Whether the rows say nothing of the variables that are left.
    pub fn is_free(self) -> bool
        ensures { result ≡ (self.entry.needed == 0) }
    {
        self.needed == 0
    }

    /// The step of the first variable that is left.
    fn step(self) -> u64
        ensures { result ≡ first_step self.entry.steps.now }
    {
        match self.steps.first() {
            Some(step) => *step,
            None => 0,
        }
    }

    /// The next of a variable's elements, from the one at a place on, that may lead to a row: no key lies where those
    /// before it lead.
    pub fn next(self, at: u64, size: u64) -> u64
        requires rising { IsNonDecreasing self.keys.now }
        requires fits { self.key + (size - 1) * first_step self.steps.now < 2 ^ 64 }
        requires before { at ≤ size }
        ensures from { at ≤ result }
        ensures within { result ≤ size }
        ensures moved { at < result → 0 < first_step self.entry.steps.now }
        ensures passed { (i : ℕ) → at ≤ i → i < result
            → HasNoKey self.entry.keys.now (self.entry.key + i * first_step self.entry.steps.now)
            (first_step self.entry.steps.now) }
    {
        let step = self.step();
        if step == 0 || at >= size {
            return at;
        }
        match least_from(self.keys, self.key + at * step) {
            Some(found) => ((found - self.key) / step).min(size),
            None => size,
        }
    }

    /// Where the variable's element at a place leads.
    pub fn below(self, at: u64) -> RowPlace<'a>
        requires fits { self.key + at * first_step self.steps.now < 2 ^ 64 }
        ensures keys { result.keys.now ≡ self.entry.keys.now }
        ensures key { result.key ≡ self.entry.key + at * first_step self.entry.steps.now }
        ensures steps { result.steps.now ≡ drop 1 self.entry.steps.now }
        ensures needed { result.needed ≡ self.entry.needed - 1 }
    {
        RowPlace {
            keys: self.keys,
            steps: self.others(),
            key: self.key + at * self.step(),
            needed: self.needed.saturating_sub(1),
        }
    }

    /// The steps of the variables after the first one that is left.
    fn others(self) -> &'a [u64]
        ensures { result.now ≡ drop 1 self.entry.steps.now }
    {
        match self.steps.split_first() {
            Some((_, others)) => others,
            None => &[],
        }
    }
}

/// The first of a binder's variables, and the rest.
pub fn first_variable<'a>(domains: &'a [ElemList], bounds: &'a [Bound]) -> (Block<'a>, &'a [Bound])
    requires { 0 < length bounds.now }
    ensures parts { bounds.now ≡ result.0.bounds.now ++ result.1.now }
    ensures one { length result.0.bounds.now ≡ 1 }
    ensures domains { result.0.domains.now ≡ domains.now }
    ensures count { result.0.count ≡ length (choices domains.now result.0.bounds.now) }
{
    let (first, others) = bounds.split_at(1);
    let count = domain_in(domains, first[0].ty).len() as u64;
    let block = Block {
        domains,
        bounds: first,
        count,
    };
    (block, others)
}
