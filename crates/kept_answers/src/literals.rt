//! Which literals are the same.
ghost use Rattle.std.specs.Prelude.{◌≡◌};
ghost use Rattle.consult_text.specs.States.{same_given_value, same_literal};

use crate::elements::{are_same, are_same_rows};
use kb_logic::{Elem, Literal};

/// Whether the literals have the same sign, symbol, arguments and value.
pub fn are_same_literals(a: &Literal, b: &Literal) -> bool
    ensures { result ≡ same_literal a.now b.now }
{
    if a.positive != b.positive || a.symbol != b.symbol {
        return false;
    }
    if !are_same_rows(a.args.as_slice(), b.args.as_slice()) {
        return false;
    }
    are_same_values(&a.value, &b.value)
}

fn are_same_values(a: &Option<Elem>, b: &Option<Elem>) -> bool
    ensures { result ≡ same_given_value a.now b.now }
{
    match (a, b) {
        (None, None) => true,
        (Some(x), Some(y)) => are_same(x, y),
        _ => false,
    }
}
