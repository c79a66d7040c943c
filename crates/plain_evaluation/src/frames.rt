//! Assignments of elements to the variables of one binder, each held as one number.
ghost use Rattle.std.specs.Prelude.{◌≡◌, ◌<◌, length};
ghost use Rattle.kb_logic.specs.Structures.{choices};

use kb_logic::{Bound, ElemList};

/// Variables whose assignments a `u64` can count.
#[derive(Clone, Copy)]
pub struct Block<'a> {
    pub domains: &'a [ElemList],
    pub bounds: &'a [Bound],
    pub count: u64,
    ghost counted: { count ≡ length (choices domains.now bounds.now) },
}

/// The assignment of a block's variables that has this number in domain order.
#[derive(Clone, Copy)]
pub struct Frame<'a> {
    pub block: Block<'a>,
    pub number: u64,
    ghost within: { number < block.count },
}
