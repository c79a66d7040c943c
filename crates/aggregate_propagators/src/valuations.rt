//! Whether a constraint holds under values of all variables.
ghost use Rattle.std.specs.Prelude.{◌≡◌, ◌↔◌, ◌^◌, ◌≤ℤ◌, pos, neg_ℤ, IsTrue};
ghost use Rattle.lit_core.specs.Literals.{literal_value, valuation};
ghost use Rattle.ground_core.specs.declared.parts.Part.{Part as PartRow};
ghost use Rattle.ground_core.specs.Meaning.{SumHolds};
ghost use Rattle.aggregate_propagators.specs.Totals.{total};
ghost use Rattle.aggregate_propagators.specs.Thresholds.{amount_of};

use crate::contradictions::is_reached;
use crate::ends::{plus, share};
use crate::thresholds::{Threshold, threshold_of};
use ground_core::{AggCon, Part};
use lit_core::Lit;

/// The literal's value, where each variable past the end is false.
fn value_of(values: &[bool], lit: Lit) -> bool
    ensures { result ≡ literal_value (valuation values.now) lit }
{
    let value = match values.get(lit.var.0 as usize) {
        Some(value) => *value,
        None => false,
    };
    if lit.positive { value } else { !value }
}

/// What the true parts gain together.
fn total_of(c: Threshold, parts: &[Part], values: &[bool]) -> i128
    ensures { result ≡ total (λ (p : PartRow). literal_value (valuation values.now) p.lit) c.kind (amount_of c.least)
        parts.now }
{
    let mut sum: i128 = 0;
    for part in parts {
        let value = value_of(values, part.lit);
        sum = plus(sum, share(true, c.kind, c.least, part, Some(value)));
    }
    sum
}

/// Whether the constraint holds, where each variable past the end of the values is false.
pub fn is_sum_held(c: &AggCon, values: &[bool]) -> bool
    ensures { IsTrue result ↔ SumHolds (valuation values.now) c.now }
{
    let threshold = threshold_of(c);
    let sum = total_of(threshold, c.parts.as_slice(), values);
    value_of(values, c.out) == is_reached(threshold.kind, threshold.least, sum)
}
