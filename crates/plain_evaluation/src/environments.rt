//! Environments, which assign elements to the variables in scope without taking memory.
//!
//! The variables of one binder have one frame, however many they are: it holds their assignment as one
//! number, with a digit for each variable in the base of its type's size. Frames lie on the stack, each with
//! a reference to the one around it.
ghost use Rattle.std.specs.Prelude.{◌≡◌, ◌<◌, ◌++◌, ◌↔◌, [], IsTrue, Some, length, slice_get, slice_index_or, take};
ghost use Rattle.std.specs.Prelude.{◌≤◌};
ghost use Rattle.kb_logic.specs.Structures.{choices};
ghost use Rattle.kb_logic.specs.Meaning.{element_value};
ghost use Rattle.kb_logic.specs.Values.{value_view};
ghost use Rattle.plain_evaluation.specs.Environments.{env_view, frame_view, IsFound};

use crate::frames::{Block, Frame};
use kb_logic::values::{Value, domain_in, elem_value};
use kb_logic::{Bound, Elem, ElemList};

/// The elements of the variables in scope, from the outermost: those that are given, and those of the
/// binders around.
#[derive(Drop)]
pub enum Env<'a> {
    Given(&'a [Elem]),
    Bound(Frame<'a>, &'a Env<'a>),
}

/// The variables of a binder in two parts: first the most whose assignments a `u64` can count, and the rest. Where some
/// type is empty, and so all have no assignment, the first part has them all.
pub fn split_in<'a>(domains: &'a [ElemList], bounds: &'a [Bound]) -> (Block<'a>, &'a [Bound])
    requires { 0 < length bounds.now }
    ensures parts { bounds.now ≡ result.0.bounds.now ++ result.1.now }
    ensures fewer { length result.1.now < length bounds.now }
    ensures domains { result.0.domains.now ≡ domains.now }
    ensures count { result.0.count ≡ length (choices domains.now result.0.bounds.now) }
{
    let (len, count) = countable(domains, bounds);
    let (bounds, others) = bounds.split_at(len);
    let block = Block {
        domains,
        bounds,
        count,
    };
    (block, others)
}

/// Whether the variables have no assignment, since the type of one of them is empty.
fn have_no_assignment(domains: &[ElemList], bounds: &[Bound]) -> bool
    ensures { IsTrue result ↔ (length (choices domains.now bounds.now) ≡ 0) }
{
    for bound in bounds {
        if domain_in(domains, bound.ty).is_empty() {
            return true;
        }
    }
    false
}

// One variable over an empty type leaves no assignment, however many the variables before it have. So where a `u64`
// cannot count those, the types of all variables are examined before the variables are parted: otherwise 64 variables
// over two elements and one over an empty type would take 2^63 turns of a loop, each around an empty one.
/// How many of the first variables a `u64` can count the assignments of, and their number.
fn countable(domains: &[ElemList], bounds: &[Bound]) -> (usize, u64)
    requires { 0 < length bounds.now }
    ensures some { 0 < result.0 }
    ensures within { result.0 ≤ length bounds.now }
    ensures count { result.1 ≡ length (choices domains.now (take result.0 bounds.now)) }
{
    let mut count = 1u64;
    for len in 0..bounds.len() {
        let size = domain_in(domains, bounds[len].ty).len();
        match count.checked_mul(size as u64) {
            Some(product) => count = product,
            None => {
                return if have_no_assignment(domains, bounds) {
                    (bounds.len(), 0)
                } else {
                    (len, count)
                };
            }
        }
    }
    (bounds.len(), count)
}

/// The environment with the block's variables inside it, under the assignment with this number.
pub fn extend<'a>(env: &'a Env<'a>, block: Block<'a>, number: u64) -> Env<'a>
    requires { number < block.count }
    ensures { env_view result ≡ env_view env.now ++ slice_index_or
        (choices block.entry.domains.now block.entry.bounds.now) number [] }
{
    Env::Bound(Frame { block, number }, env)
}

/// The element that the frame assigns to the variable at this place of its block.
fn element<'a>(frame: &Frame<'a>, place: usize) -> &'a Elem
    requires { place < length frame.now.block.bounds.now }
    ensures { slice_get (frame_view frame.now) place ≡ Some result.now }
{
    let bounds = frame.block.bounds;
    let mut count = frame.block.count;
    let mut number = frame.number;
    for at in 0..place {
        count /= domain_in(frame.block.domains, bounds[at].ty).len() as u64;
        number %= count;
    }
    let domain = domain_in(frame.block.domains, bounds[place].ty);
    count /= domain.len() as u64;
    &domain[(number / count) as usize]
}

/// The element of the variable number `n`, or how far `n` is past the last variable.
pub fn find<'a>(env: &Env<'a>, n: usize) -> Result<&'a Elem, usize>
    ensures { IsFound (env_view env.now) n result }
{
    match env {
        Env::Given(given) => {
            if n < given.len() {
                Ok(&given[n])
            } else {
                Err(n - given.len())
            }
        }
        Env::Bound(frame, outer) => match find(outer, n) {
            Ok(found) => Ok(found),
            Err(past) => {
                if past < frame.block.bounds.len() {
                    Ok(element(frame, past))
                } else {
                    Err(past - frame.block.bounds.len())
                }
            }
        },
    }
}

/// The value of the variable number `n`.
pub fn variable_value<'a>(env: &Env<'a>, n: usize) -> Value<'a>
    ensures { value_view result ≡ element_value (slice_get (env_view env.now) n) }
{
    match find(env, n) {
        Ok(elem) => elem_value(elem),
        Err(_) => Value::Nothing,
    }
}
