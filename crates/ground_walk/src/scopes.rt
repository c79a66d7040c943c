//! Where formulas are grounded, and the binders in them.
use kb_logic::{Bound, Formula};
use plain_evaluation::environments::Env;
use std::alloc::Global;
use term_values::GroundData;

/// Where a formula or a term is grounded: over what is known of the ground atoms, and under which elements of the
/// variables in scope.
#[derive(Clone, Copy)]
pub struct Scope<'a> {
    pub alloc: Global,
    pub base: &'a GroundData<'a>,
    pub env: &'a Env<'a>,
}

/// The variables of a quantifier or an aggregate, and the formula in which they are bound.
#[derive(Clone, Copy)]
pub(crate) struct Binder<'a> {
    pub bounds: &'a [Bound],
    pub formula: &'a Formula,
}
