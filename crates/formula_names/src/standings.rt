//! Which aggregates may stand in a term, and how the parts of a term stand.
ghost use Rattle.std.specs.Prelude.{◌≡◌, ◌≤◌, filter, length, map, not};
ghost use Rattle.grammar.specs.View as seen;
ghost use Rattle.stage_definitions.specs.Standings as stand;
ghost use Rattle.formula_names.specs.PartStandings as part;

use grammar::{Aggregation, RawFactor, RawProduct, RawProductTail, RawTermTree};
use kb_logic::AggKind;
use stage_definitions::Standing;

pub fn kind_of(how: Aggregation) -> AggKind
    ensures { result ≡ stand.kind_of how }
{
    match how {
        Aggregation::Sum => AggKind::Sum,
        Aggregation::Min => AggKind::Min,
        Aggregation::Max => AggKind::Max,
    }
}

fn is_extremum(kind: AggKind) -> bool
    ensures { result ≡ stand.is_extremum kind }
{
    match kind {
        AggKind::Count => false,
        AggKind::Sum => false,
        AggKind::Min => true,
        AggKind::Max => true,
    }
}

/// Whether an aggregate of this kind may stand so.
pub fn may_stand(standing: Standing, kind: AggKind) -> bool
    ensures { result ≡ stand.may_stand standing kind }
{
    match standing {
        Standing::Side => true,
        Standing::Summand => !is_extremum(kind),
        Standing::Elsewhere => false,
    }
}

/// How a term stands that has a sign or stands beside integers in a product.
pub fn scaled(standing: Standing) -> Standing
    ensures { result ≡ stand.scaled standing }
{
    match standing {
        Standing::Side => Standing::Summand,
        Standing::Summand => Standing::Summand,
        Standing::Elsewhere => Standing::Elsewhere,
    }
}

fn in_sum(standing: Standing) -> Standing
    ensures { result ≡ stand.in_sum standing }
{
    match standing {
        Standing::Side => Standing::Summand,
        Standing::Summand => Standing::Elsewhere,
        Standing::Elsewhere => Standing::Elsewhere,
    }
}

/// Whether a term is one factor.
pub fn is_lone(raw: &RawTermTree) -> bool
    ensures { result ≡ part.is_lone (seen.term_view raw.now) }
{
    raw.more.as_slice().is_empty() && raw.first.more.as_slice().is_empty()
}

/// An integer, with signs or without, in brackets or not.
#[cycle(integers)]
fn is_signed_integer(raw: &RawFactor) -> bool
    ensures { result ≡ stand.is_signed_integer (seen.factor_view raw.now) }
{
    match raw {
        RawFactor::Integer(_) => true,
        RawFactor::Brackets(_, inner, _) => is_signed_alone(inner.get()),
        RawFactor::Negative(_, inner) => is_signed_integer(inner.get()),
        RawFactor::Value(_) => false,
        RawFactor::Count(_, _, _) => false,
        RawFactor::Aggregate(_, _, _, _, _, _) => false,
    }
}

#[cycle(integers)]
fn is_signed_alone(raw: &RawTermTree) -> bool
    ensures { result ≡ part.is_signed_alone (seen.term_view raw.now) }
{
    is_lone(raw) && is_signed_integer(&raw.first.first)
}

#[cycle(extrema)]
fn is_extremum_factor(raw: &RawFactor) -> bool
    ensures { result ≡ stand.is_extremum_factor (seen.factor_view raw.now) }
{
    match raw {
        RawFactor::Aggregate(how, _, _, _, _, _) => is_extremum(kind_of(*how)),
        RawFactor::Brackets(_, inner, _) => is_extremum_term(inner.get()),
        RawFactor::Integer(_) => false,
        RawFactor::Negative(_, _) => false,
        RawFactor::Value(_) => false,
        RawFactor::Count(_, _, _) => false,
    }
}

/// A `min` or `max`, in brackets or not.
#[cycle(extrema)]
fn is_extremum_term(raw: &RawTermTree) -> bool
    ensures { result ≡ stand.is_extremum_term (seen.term_view raw.now) }
{
    is_lone(raw) && is_extremum_factor(&raw.first.first)
}

/// How a side of a comparison stands whose other side is this term.
pub fn facing(raw: &RawTermTree) -> Standing
    ensures { result ≡ stand.facing (seen.term_view raw.now) }
{
    if is_extremum_term(raw) {
        Standing::Elsewhere
    } else {
        Standing::Side
    }
}

/// How many of these factors are no integers.
fn others(factors: &[RawProductTail]) -> usize
    ensures few { result ≤ length factors.now }
    ensures counted { result ≡ length (filter (λ x. not (stand.is_signed_integer x.1))
        (map seen.product_tail_view factors.now)) }
{
    let mut count = 0;
    for tail in factors {
        if !is_signed_integer(&tail.operand) {
            count += 1;
        }
    }
    count
}

/// Whether at most one factor is no integer.
fn is_scaled(raw: &RawProduct) -> bool
    ensures { result ≡ stand.is_scaled (seen.product_view raw.now) }
{
    let others = others(raw.more.as_slice());
    if is_signed_integer(&raw.first) {
        others < 2
    } else {
        others < 1
    }
}

/// How the factors of a product stand that stands so.
pub fn factors_stand(standing: Standing, raw: &RawProduct) -> Standing
    ensures { result ≡ part.factors_stand standing (seen.product_view raw.now) }
{
    if raw.more.as_slice().is_empty() {
        standing
    } else if is_scaled(raw) {
        scaled(standing)
    } else {
        Standing::Elsewhere
    }
}

/// How the operands of a term stand that stands so.
pub fn operands_stand(standing: Standing, raw: &RawTermTree) -> Standing
    ensures { result ≡ part.operands_stand standing (seen.term_view raw.now) }
{
    if raw.more.as_slice().is_empty() {
        standing
    } else {
        in_sum(standing)
    }
}
