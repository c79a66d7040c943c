//! Integers at positions of functions.
ghost use Rattle.std.specs.Prelude.{◌≡◌};
ghost use Rattle.std.specs.Option.{option_map};
ghost use Rattle.kb_logic.specs.Trees.{more_summands, no_summands, summation};
ghost use Rattle.kb_logic.specs.Views.{term_view};
ghost use Rattle.stage_definitions.specs.IntegerArguments as said;
ghost use Rattle.structure_entries.specs.WholeViews.{whole_view};
ghost use Rattle.data_refusals.specs.PlacedViews.{placed_view};

use kb_logic::{Signed, Term};
use structure_entries::wholes::Whole;

/// An integer, and the type of its position.
#[derive(Clone, Copy)]
pub struct Placed {
    pub number: Whole,
    pub ty: u32,
}

/// An integer with a minus before it or without.
fn signed(minus: bool, n: i64) -> Whole
    ensures { whole_view result ≡ said.signed minus n }
{
    if n < 0 {
        Whole {
            negative: !minus,
            digits: n.unsigned_abs(),
        }
    } else {
        Whole {
            negative: minus,
            digits: n.unsigned_abs(),
        }
    }
}

/// The integer that the one operand of a sum is.
fn signed_integer(part: &Signed) -> Option<Whole>
    ensures { option_map whole_view result ≡ said.integer_in (summation
        (more_summands part.now.minus (term_view part.now.term) no_summands)) }
{
    match part.term {
        Term::Int(n) => Some(signed(part.minus, n)),
        Term::Var(_) => None,
        Term::Made(_, _) => None,
        Term::Apply(_, _) => None,
        Term::Sum(_) => None,
        Term::Product(_) => None,
        Term::Agg(_, _, _, _) => None,
    }
}

/// The integer that a term is, with or without a minus.
fn integer_in(of: &Term) -> Option<Whole>
    ensures { option_map whole_view result ≡ said.integer_in (term_view of.now) }
{
    match of {
        Term::Int(n) => Some(signed(false, *n)),
        Term::Sum(parts) => match parts.as_slice() {
            [part] => signed_integer(part),
            [] => None,
            [_, _, ..] => None,
        },
        Term::Var(_) => None,
        Term::Made(_, _) => None,
        Term::Apply(_, _) => None,
        Term::Product(_) => None,
        Term::Agg(_, _, _, _) => None,
    }
}

/// The integer that a term is, where it stands at a position of a function.
pub fn placed_at(position: Option<u32>, of: &Term) -> Option<Placed>
    ensures { option_map placed_view result ≡ said.placed position (term_view of.now) }
{
    match position {
        None => None,
        Some(ty) => match integer_in(of) {
            None => None,
            Some(number) => Some(Placed { number, ty }),
        },
    }
}
