//! Which elements the variables of a sentence have where an occurrence in it is about a fact.
ghost use Rattle.std.specs.Prelude.{◌<◌, ◌≤◌, length};

use crate::facts::{Argument, Fact, Work, value_of};
use crate::occurrences::{Occurrence, Slot};
use kb_logic::values::{Value, domain_in, elem_value, same};
use kb_logic::{Bound, Elem, ElemList, Memory};
use std::alloc::Global;

/// Which of its elements a variable is given.
#[derive(Clone, Copy)]
pub(crate) enum Start {
    /// Each of them.
    Free,
    /// The one at this place alone.
    At(u64),
    /// None of them.
    Nowhere,
}

/// What is asked: where the occurrence is about the fact.
#[derive(Clone, Copy)]
pub(crate) struct Match<'a> {
    pub alloc: Global,
    pub domains: &'a [ElemList],
    pub occurrence: &'a Occurrence,
    pub fact: &'a Fact,
}

// Integers mostly stand in a domain in their order and without a gap.
/// Where an integer stands if no integer is missing before it.
fn near(domain: &[Elem], value: Value<'_>) -> usize {
    match (domain.first(), value) {
        (Some(Elem::Num(first)), Value::Num(n)) => n.saturating_sub(*first).unsigned_abs() as usize,
        _ => 0,
    }
}

/// The place of the value in the domain. To seek it takes as many steps as the domain has elements.
fn sought(domain: &[Elem], value: Value<'_>, work: &mut Work) -> Option<u64> {
    let first = near(domain, value);
    if let Some(elem) = domain.get(first) {
        if same(elem_value(elem), value) {
            return Some(first as u64);
        }
    }
    work.spend(domain.len() as u64);
    for at in 0..domain.len() {
        if same(elem_value(&domain[at]), value) {
            return Some(at as u64);
        }
    }
    None
}

/// The place of the element in the domain of the type.
fn place(domains: &[ElemList], ty: u32, argument: Argument, work: &mut Work) -> Option<u64> {
    match argument {
        Argument::Element(own, place) => {
            if own == ty {
                return Some(place);
            }
        }
        Argument::Number(_) => {}
    }
    sought(domain_in(domains, ty), value_of(domains, argument), work)
}

/// Whether no other constant stands there than the element.
fn is_alike(domains: &[ElemList], slot: Slot, argument: Argument) -> bool {
    match slot {
        Slot::Constant(constant) => same(value_of(domains, constant), value_of(domains, argument)),
        _ => true,
    }
}

/// Whether the occurrence's constants are the fact's elements.
fn are_alike(asked: Match<'_>) -> bool {
    let slots = asked.occurrence.slots.as_slice();
    let args = asked.fact.args.as_slice();
    for at in 0..slots.len() {
        match args.get(at) {
            Some(argument) => {
                if !is_alike(asked.domains, slots[at], *argument) {
                    return false;
                }
            }
            None => return false,
        }
    }
    true
}

fn is_variable(slot: Slot, n: usize) -> bool {
    match slot {
        Slot::Variable(m) => m as usize == n,
        _ => false,
    }
}

/// The fact's element that the variable number `n` of the sentence has.
fn fixing(asked: Match<'_>, n: usize) -> Option<Argument> {
    let slots = asked.occurrence.slots.as_slice();
    for at in 0..slots.len() {
        if is_variable(slots[at], n) {
            return match asked.fact.args.get(at) {
                Some(argument) => Some(*argument),
                None => None,
            };
        }
    }
    None
}

// A variable over one element is gone through with others, so that not more variables have a frame of their own than
// a number of instances has digits.
/// Which elements the variable number `n` is given.
fn start_of(asked: Match<'_>, bound: &Bound, n: usize, work: &mut Work) -> Start {
    let size = domain_in(asked.domains, bound.ty).len();
    if size < 2 {
        return Start::Free;
    }
    match fixing(asked, n) {
        None => Start::Free,
        Some(argument) => match place(asked.domains, bound.ty, argument, work) {
            Some(place) => Start::At(place),
            None => Start::Nowhere,
        },
    }
}

/// Which elements the variables are given, where the occurrence can be about the fact.
pub(crate) fn starts(
    asked: Match<'_>,
    bounds: &[Bound],
    work: &mut Work,
) -> Result<Option<Vec<Start>>, Memory> {
    if !are_alike(asked) {
        return Ok(None);
    }
    let mut starts = Vec::with_capacity(asked.alloc, bounds.len())?;
    for n in 0..bounds.len() {
        starts.push(start_of(asked, &bounds[n], n, work))?;
    }
    Ok(Some(starts))
}

/// Which elements the first of the last variables is given.
fn first_start(starts: &[Start], left: usize) -> Start {
    match starts.get(starts.len().saturating_sub(left)) {
        Some(start) => *start,
        None => Start::Free,
    }
}

/// How many of the last variables are gone through together, over all their elements.
fn free_len(starts: &[Start], left: usize) -> usize
    requires { 0 < left }
    ensures some { 0 < result }
    ensures within { result ≤ left }
{
    for len in 1..left {
        match first_start(starts, left - len) {
            Start::Free => {}
            Start::At(_) => return len,
            Start::Nowhere => return len,
        }
    }
    left
}

/// So many of the variables that are left are given those of their assignments that have these numbers.
#[derive(Clone, Copy)]
pub(crate) struct Stretch {
    pub len: usize,
    pub first: u64,
    pub end: u64,
}

/// Which assignments the first of the last variables are given.
pub(crate) fn stretch_of(starts: &[Start], left: usize) -> Stretch
    requires { 0 < left }
    ensures some { 0 < result.len }
    ensures within { result.len ≤ left }
{
    let (first, end) = match first_start(starts, left) {
        Start::Free => {
            return Stretch {
                len: free_len(starts, left),
                first: 0,
                end: u64::MAX,
            };
        }
        Start::At(place) => (place, place.saturating_add(1)),
        Start::Nowhere => (0, 0),
    };
    Stretch { len: 1, first, end }
}

/// The end of a stretch of so many assignments.
pub(crate) fn end_of(stretch: Stretch, count: u64) -> u64
    ensures { result ≤ count }
{
    if stretch.end < count {
        stretch.end
    } else {
        count
    }
}
