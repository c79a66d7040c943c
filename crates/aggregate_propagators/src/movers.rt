//! The parts whose values move an end of the interval.
ghost use Rattle.std.specs.Prelude.{◌≡◌, ◌<◌, ◌≤ℤ◌, ◌++◌, pos, length, All, IfOk, OnOk};
ghost use Rattle.ground_core.specs.declared.parts.Part.{Part as PartRow};
ghost use Rattle.aggregate_propagators.specs.Implied.{assigned, under};
ghost use Rattle.aggregate_propagators.specs.Looking.{mover, movers, needed, spare_after};
ghost use Rattle.aggregate_propagators.specs.Thresholds.{amount_of};

use crate::ends::value_under;
use crate::explained::{false_one, left_of, move_of};
use crate::single::End;
use ground_core::{Memory, Part};
use lit_core::{Assignment, Clause, Lit};
use std::alloc::Global;

/// A part whose value moves an end.
#[derive(Clone, Copy)]
pub struct Mover {
    /// How far the end moves where the value is forgotten.
    pub by: i128,
    /// The literal of the part's variable that is false.
    pub lit: Lit,
}

/// What the part's value does, where one more literal may be true.
pub fn mover_of(end: End, values: &Assignment, with: Option<Lit>, part: &Part) -> Mover
    requires { part.now.lit.var.0 < length values.now }
    ensures value { result ≡ mover (under (assigned values.now) with) end.high end.of.kind (amount_of end.of.least)
        part.now }
    ensures low { pos 0 ≤ℤ result.by }
{
    let value = value_under(values, with, part.lit);
    Mover {
        by: move_of(end.high, end.of.kind, end.of.least, part, value),
        lit: false_one(value, part.lit),
    }
}

/// Those of the parts whose values move the end.
pub fn movers_among(
    alloc: Global,
    end: End,
    parts: &[Part],
    values: &Assignment,
) -> Result<Vec<Mover>, Memory>
    requires { All (λ (p : PartRow). p.lit.var.0 < length values.now) parts.now }
    ensures { IfOk result (λ ms. ms.items ≡ movers (assigned values.now) end.high end.of.kind (amount_of end.of.least)
        parts.now) }
{
    let mut found = Vec::new(alloc);
    for part in parts {
        let mover = mover_of(end, values, None, part);
        if 0 < mover.by {
            found.push(mover)?;
        }
    }
    Ok(found)
}

/// Adds the literals of those that the spare has no room for, and says what is left of it.
pub fn add_needed(clause: &mut Clause, spare: i128, among: &[Mover]) -> Result<i128, Memory>
    requires low { pos 0 ≤ℤ spare }
    requires moves { All (λ m. pos 0 ≤ℤ m.by) among.now }
    ensures clause { OnOk result (clause.new ≡ clause.old ++ needed spare among.now) }
    ensures left { IfOk result (λ left. left ≡ spare_after spare among.now) }
    ensures low { IfOk result (λ left. pos 0 ≤ℤ left) }
{
    let mut left = spare;
    for mover in among {
        if mover.by <= left {
            left = left_of(left, mover.by);
        } else {
            clause.push(mover.lit)?;
        }
    }
    Ok(left)
}
