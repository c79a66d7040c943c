//! Whether a bound holds under values that are tried.
ghost use Rattle.std.specs.Prelude.{◌≡◌};
ghost use Rattle.lit_core.specs.Literals.{literal_value, valuation};
ghost use Rattle.ground_core.specs.Meaning.{term_value};
ghost use Rattle.term_bounds.specs.Amounts.{amount_of, is_under};
ghost use Rattle.term_bounds.specs.Totals.{total};

use crate::amounts::is_below;
use crate::linear::Line;
use crate::shares::{part_share, plus};
use ground_core::{GroundTerm, Part};
use kb_logic::ExtInt;
use lit_core::Lit;

/// The literal's value, where each variable past the end is false.
fn value_in(values: &[bool], lit: Lit) -> bool
    ensures { result ≡ literal_value (valuation values.now) lit }
{
    let value = match values.get(lit.var.0 as usize) {
        Some(value) => *value,
        None => false,
    };
    if lit.positive { value } else { !value }
}

/// What the true parts count together.
fn total_in(line: Line, parts: &[Part], values: &[bool]) -> i128
    ensures { result ≡ total (valuation values.now) line.kind (amount_of line.bound) parts.now }
{
    let mut sum: i128 = 0;
    for part in parts {
        let value = value_in(values, part.lit);
        sum = plus(sum, part_share(line, part, Some(value)));
    }
    sum
}

/// Whether the term is below the number.
pub fn is_term_below(term: &GroundTerm, below: ExtInt, values: &[bool]) -> bool
    ensures { result ≡ is_under below (term_value (valuation values.now) term.now) }
{
    let line = Line::of(term, below);
    let sum = total_in(line, term.parts.as_slice(), values);
    is_below(sum, line.total_bound())
}
