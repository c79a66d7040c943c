//! Where aggregates stand in terms, and with which factors.
ghost use Rattle.std.specs.Prelude.{◌≡◌, ◌||◌, ◌*ℤ◌, pos, map, not, if◌then◌else◌, IfSome};
ghost use Rattle.kb_logic.specs.Meaning.{signed_of};
ghost use Rattle.kb_logic.specs.Trees.{terms_of, summands_of};
ghost use Rattle.kb_logic.specs.Views.{signed_view, term_view};
ghost use Rattle.def_ground.specs.Counting.{has_aggregate as has_one, have_aggregates as have_one};
ghost use Rattle.def_ground.specs.Counting.{sum_has_aggregate as sum_has_one, signed_integer as integer_in};
ghost use Rattle.def_ground.specs.Counting.{integer_factor, extreme_of as extreme_in};
ghost use Rattle.ground_walk.specs.Sides.{sides_between};

use kb_logic::{AggKind, Signed, Term};

/// Whether there is an aggregate in the term.
#[cycle(aggregates)]
pub(crate) fn has_aggregate(term: &Term) -> bool
    ensures { result ≡ has_one (term_view term.now) }
{
    match term {
        Term::Var(_) => false,
        Term::Int(_) => false,
        Term::Made(..) => false,
        Term::Apply(_, args) => have_aggregates(args),
        Term::Sum(parts) => sum_has_aggregate(parts),
        Term::Product(factors) => have_aggregates(factors),
        Term::Agg(..) => true,
    }
}

/// Whether there is an aggregate in one of the terms.
#[cycle(aggregates)]
pub(crate) fn have_aggregates(terms: &[Term]) -> bool
    ensures { result ≡ have_one (terms_of (map term_view terms.now)) }
{
    for term in terms {
        if has_aggregate(term) {
            return true;
        }
    }
    false
}

/// Whether there is an aggregate in one of the operands.
#[cycle(aggregates)]
fn sum_has_aggregate(parts: &[Signed]) -> bool
    ensures { result ≡ sum_has_one (summands_of (map signed_view parts.now)) }
{
    for part in parts {
        if has_aggregate(&part.term) {
            return true;
        }
    }
    false
}

/// The value of an integer with signs, and 1 for any other term. Nothing where 64 bits do not hold it.
fn signed_integer(term: &Term) -> Option<i64>
    ensures { IfSome result (λ z. z ≡ integer_in (term_view term.now)) }
{
    match term {
        Term::Int(n) => Some(*n),
        Term::Sum(parts) => match parts.as_slice() {
            [] => Some(1),
            [part] => with_sign(part.minus, signed_integer(&part.term)?),
            [_, _, ..] => Some(1),
        },
        Term::Var(_) => Some(1),
        Term::Made(..) => Some(1),
        Term::Apply(..) => Some(1),
        Term::Product(_) => Some(1),
        Term::Agg(..) => Some(1),
    }
}

/// The number times a factor without aggregates, which is an integer. Nothing where 64 bits do not hold it.
fn times_factor(number: i64, factor: &Term) -> Option<i64>
    ensures { IfSome result (λ z. z
        ≡ number *ℤ (if has_one (term_view factor.now) then pos 1 else integer_in (term_view factor.now))) }
{
    if has_aggregate(factor) {
        Some(number)
    } else {
        number.checked_mul(signed_integer(factor)?)
    }
}

/// The number times all of the factors without aggregates. Nothing where 64 bits do not hold it.
pub(crate) fn times_integers(number: i64, factors: &[Term]) -> Option<i64>
    ensures { IfSome result (λ z. z ≡ number *ℤ integer_factor (terms_of (map term_view factors.now))) }
{
    let mut product = number;
    for factor in factors {
        match times_factor(product, factor) {
            Some(next) => product = next,
            None => return None,
        }
    }
    Some(product)
}

/// The number, or its opposite where there is a minus. Nothing where 64 bits do not hold it.
pub(crate) fn with_sign(minus: bool, number: i64) -> Option<i64>
    ensures { IfSome result (λ z. z ≡ signed_of minus number) }
{
    if minus {
        number.checked_neg()
    } else {
        Some(number)
    }
}

/// Whether there is no aggregate in the two terms.
pub(crate) fn are_plain(left: &Term, right: &Term) -> bool
    ensures { result ≡ not (has_one (term_view left.now) || has_one (term_view right.now)) }
{
    !has_aggregate(left) && !has_aggregate(right)
}

/// Which of the two a term is as a whole: a minimum or a maximum.
pub fn extreme_of(term: &Term) -> Option<AggKind>
    ensures { result ≡ extreme_in (term_view term.now) }
{
    match term {
        Term::Agg(kind, ..) => match kind {
            AggKind::Count => None,
            AggKind::Sum => None,
            AggKind::Min => Some(AggKind::Min),
            AggKind::Max => Some(AggKind::Max),
        },
        Term::Var(_) => None,
        Term::Int(_) => None,
        Term::Made(..) => None,
        Term::Apply(..) => None,
        Term::Sum(_) => None,
        Term::Product(_) => None,
    }
}

/// How the sides of a comparison are compared.
#[derive(Clone, Copy)]
pub(crate) enum Sides {
    /// By their rows, since there is no aggregate.
    Plain,
    /// The left one is a minimum or a maximum, and is compared with the rows of the right one.
    LeftExtreme(AggKind),
    /// So is the right one.
    RightExtreme(AggKind),
    /// The counts and sums of both as one sum, with what is left of their rows.
    Sums,
}

/// How these sides are compared.
pub(crate) fn sides_of(left: &Term, right: &Term) -> Sides
    ensures { result ≡ sides_between (term_view left.now) (term_view right.now) }
{
    if are_plain(left, right) {
        return Sides::Plain;
    }
    match (extreme_of(left), extreme_of(right)) {
        (Some(kind), _) => Sides::LeftExtreme(kind),
        (None, Some(kind)) => Sides::RightExtreme(kind),
        (None, None) => Sides::Sums,
    }
}
