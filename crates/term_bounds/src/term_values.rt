//! The value of a term under values.
ghost use Rattle.std.specs.Prelude.{◌≡◌};
ghost use Rattle.kb_logic.specs.Denotations.{greater, lesser, number};
ghost use Rattle.lit_core.specs.Literals.{literal_value, valuation};
ghost use Rattle.ground_core.specs.Meaning.{IsInRange, parts_value, shifted, term_value, denotation_of_bound};
ghost use Rattle.term_bounds.specs.Amounts.{amount_of};
ghost use Rattle.term_bounds.specs.Totals.{total};
ghost use Rattle.term_bounds.specs.Extremes.{extreme_value, extreme_with, first_extreme, more_extreme};

use crate::amounts::Amount;
use crate::linear::Line;
use crate::shares::{part_share, plus};
use ground_core::{GroundTerm, Part};
use kb_logic::{AggKind, ExtInt};
use lit_core::{Lit, Values};

/// The literal's value, where each variable past the end is false.
fn value_of_lit(values: &Values, lit: Lit) -> bool
    ensures { result ≡ literal_value (valuation values.now) lit }
{
    if lit.var.0 < values.len() as u64 {
        values.holds(lit)
    } else {
        !lit.positive
    }
}

/// What the true parts count together.
fn total_of(line: Line, parts: &[Part], values: &Values) -> i128
    ensures { result ≡ total (valuation values.now) line.kind (amount_of line.bound) parts.now }
{
    let mut sum: i128 = 0;
    for part in parts {
        let value = value_of_lit(values, part.lit);
        sum = plus(sum, part_share(line, part, Some(value)));
    }
    sum
}

/// The least or the greatest of nothing.
fn first_of(greatest: bool) -> Amount
    ensures { denotation_of_bound (amount_of result) ≡ first_extreme greatest }
{
    if greatest {
        Amount::NegInf
    } else {
        Amount::PosInf
    }
}

/// The greater of what was found and one weight more.
fn greater_of(found: Amount, weight: i64) -> Amount
    ensures { denotation_of_bound (amount_of result) ≡ greater (denotation_of_bound (amount_of found)) (number weight) }
{
    let weight = i128::from(weight);
    match found {
        Amount::NegInf => Amount::Num(weight),
        Amount::Num(n) => {
            if n < weight {
                Amount::Num(weight)
            } else {
                found
            }
        }
        Amount::PosInf => found,
    }
}

/// The lesser of what was found and one weight more.
fn lesser_of(found: Amount, weight: i64) -> Amount
    ensures { denotation_of_bound (amount_of result) ≡ lesser (denotation_of_bound (amount_of found)) (number weight) }
{
    let weight = i128::from(weight);
    match found {
        Amount::NegInf => found,
        Amount::Num(n) => {
            if weight < n {
                Amount::Num(weight)
            } else {
                found
            }
        }
        Amount::PosInf => Amount::Num(weight),
    }
}

/// The lesser or the greater of what was found and one weight more.
fn further(greatest: bool, found: Amount, weight: i64) -> Amount
    ensures { denotation_of_bound (amount_of result) ≡ more_extreme greatest (denotation_of_bound (amount_of found)) weight }
{
    if greatest {
        greater_of(found, weight)
    } else {
        lesser_of(found, weight)
    }
}

/// What was found, and the part's weight where its literal is true.
fn with_part(greatest: bool, found: Amount, part: &Part, values: &Values) -> Amount
    ensures { denotation_of_bound (amount_of result) ≡ extreme_with greatest
        (literal_value (valuation values.now) part.now.lit) (denotation_of_bound (amount_of found)) part.now.weight }
{
    if value_of_lit(values, part.lit) {
        further(greatest, found, part.weight)
    } else {
        found
    }
}

/// The least or the greatest weight of the true parts.
fn extreme_of(greatest: bool, parts: &[Part], values: &Values) -> Amount
    ensures { denotation_of_bound (amount_of result) ≡ extreme_value greatest (valuation values.now) parts.now }
{
    let mut found = first_of(greatest);
    for part in parts {
        found = with_part(greatest, found, part, values);
    }
    found
}

/// What the parts come to without the base.
fn parts_value_of(term: &GroundTerm, values: &Values) -> Amount
    ensures { denotation_of_bound (amount_of result) ≡ parts_value (valuation values.now) term.now.kind term.now.parts }
{
    let parts = term.parts.as_slice();
    let line = Line {
        kind: term.kind,
        bound: Amount::PosInf,
    };
    match term.kind {
        AggKind::Count => Amount::Num(total_of(line, parts, values)),
        AggKind::Sum => Amount::Num(total_of(line, parts, values)),
        AggKind::Min => extreme_of(false, parts, values),
        AggKind::Max => extreme_of(true, parts, values),
    }
}

/// The amount with the base added.
fn with_base(base: i64, amount: Amount) -> ExtInt
    requires { IsInRange (shifted base (denotation_of_bound (amount_of amount))) }
    ensures { denotation_of_bound result ≡ shifted base (denotation_of_bound (amount_of amount)) }
{
    match amount {
        Amount::NegInf => ExtInt::NegInf,
        Amount::Num(n) => ExtInt::Num((i128::from(base) + n) as i64),
        Amount::PosInf => ExtInt::PosInf,
    }
}

/// The term's value under values that keep it in range.
pub fn value_of(term: &GroundTerm, values: &Values) -> ExtInt
    requires { IsInRange (term_value (valuation values.now) term.now) }
    ensures { denotation_of_bound result ≡ term_value (valuation values.now) term.now }
{
    with_base(term.base, parts_value_of(term, values))
}
