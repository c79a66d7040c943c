//! A look at all constraints.
ghost use Rattle.std.specs.Prelude.{All, IfNone, IfOk, IfSome};
ghost use Rattle.ground_core.specs.Intervals.{IsQuiet};
ghost use Rattle.aggregate_propagators.specs.Implied.{assigned, IsWithin};
ghost use Rattle.sum_ledger.specs.Asking.{IsImpliedAt};

use crate::consequences::Consequence;
use aggregate_propagators::implied;
use ground_core::{AggCon, Memory};
use lit_core::Assignment;
use std::alloc::Global;

/// A clause that one of the constraints implies, and that is false now or has one literal left; None where no value of
/// a variable alone contradicts any of them.
pub fn first_implied(
    alloc: Global,
    sums: &[AggCon],
    values: &Assignment,
) -> Result<Option<Consequence>, Memory>
    requires { All (IsWithin values.now) sums.now }
    ensures implied { IfOk result (λ o. IfSome o (λ found. IsImpliedAt sums.now values.now found.place found.clause)) }
    ensures quiet { IfOk result (λ o. IfNone o (All (IsQuiet (assigned values.now)) sums.now)) }
{
    for place in 0..sums.len() {
        match implied(alloc, &sums[place], values)? {
            Some(clause) => return Ok(Some(Consequence { place, clause })),
            None => {}
        }
    }
    Ok(None)
}
