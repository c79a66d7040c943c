//! How many items are left that are not certainly of the other value.
ghost use Rattle.std.specs.Prelude.{◌≡◌, ◌++◌, true, fold};
ghost use Rattle.std.specs.List.{AllByRecursion};
ghost use Rattle.kb_logic.specs.Structures.{choices};
ghost use Rattle.kb_logic.specs.Views.{formula_view};
ghost use Rattle.plain_evaluation.specs.Environments.{env_view};
ghost use Rattle.certain_truth.specs.Certainty.{certain_truth};
ghost use Rattle.bound_laws.specs.Closures.{opposes, IsNotLost};
ghost use Rattle.quantifier_bounds.specs.Fits.{Fits};
ghost use Rattle.quantifier_bounds.specs.Steps.{Narrows};
ghost use Rattle.quantifier_bounds.specs.Walks.{left_with};
ghost use Rattle.quantifier_bounds.specs.declared.left.Left.TheVariants.{Many};

use crate::atoms::constant;
use crate::fault::BoundFault;
use certain_truth::certain_formula;
use kb_logic::{Bound, Formula};
use partial_structures::{Partial, Truth};
use plain_evaluation::environments::{Env, extend, split_in};

/// None, one, or more.
#[derive(Clone, Copy)]
pub(crate) enum Left {
    None,
    One,
    Many,
}

/// What is certain of the formula.
pub(crate) fn certainty<'a>(known: &'a Partial, formula: &'a Formula, env: &'a Env<'a>) -> Truth
    requires { Fits known.now.symbols known.now.domains (formula_view formula.now) (env_view env.now) }
    ensures { result ≡ certain_truth known.now (formula_view formula.now) (env_view env.now) }
{
    known.consistency();
    certain_formula(known, formula, env)
}

/// Whether the formula is certainly of the other value.
pub(crate) fn is_lost<'a>(
    known: &'a Partial,
    formula: &'a Formula,
    v: bool,
    env: &'a Env<'a>,
) -> bool
    requires { Fits known.now.symbols known.now.domains (formula_view formula.now) (env_view env.now) }
    ensures { result ≡ opposes v (certain_truth known.now (formula_view formula.now) (env_view env.now)) }
{
    match (v, certainty(known, formula, env)) {
        (true, Truth::No) => true,
        (false, Truth::Yes) => true,
        _ => false,
    }
}

/// It is a contradiction where the formula is certainly of the other value.
pub(crate) fn not_lost<'a>(
    known: &'a Partial,
    formula: &'a Formula,
    v: bool,
    env: &'a Env<'a>,
) -> Result<bool, BoundFault>
    requires { Fits known.now.symbols known.now.domains (formula_view formula.now) (env_view env.now) }
    ensures { Narrows known.now known.now result
        (λ q. IsNotLost q v (formula_view formula.now) (env_view env.now)) }
{
    constant(!is_lost(known, formula, v, env))
}

/// One item more.
pub(crate) fn one_more(left: Left, lost: bool) -> Left
    ensures { result ≡ left_with left lost }
{
    if lost {
        return left;
    }
    match left {
        Left::None => Left::One,
        _ => Left::Many,
    }
}

pub(crate) fn are_many(left: Left) -> bool
    ensures { result ≡ true → left ≡ Many }
{
    match left {
        Left::Many => true,
        _ => false,
    }
}

/// How many instances of the formula are left, after those before.
pub(crate) fn left_in<'a>(
    known: &'a Partial,
    bounds: &'a [Bound],
    formula: &'a Formula,
    v: bool,
    env: &'a Env<'a>,
    before: Left,
) -> Left
    requires { AllByRecursion (λ a. Fits known.now.symbols known.now.domains (formula_view formula.now)
        (env_view env.now ++ a)) (choices known.now.domains bounds.now) }
    ensures { result ≡ fold (λ l a. left_with l (opposes v (certain_truth known.now (formula_view formula.now)
        (env_view env.now ++ a)))) before (choices known.now.domains bounds.now) }
{
    if bounds.is_empty() {
        return one_more(before, is_lost(known, formula, v, env));
    }
    let (block, others) = split_in(known.domains().as_slice(), bounds);
    let mut left = before;
    for number in 0..block.count {
        if are_many(left) {
            return left;
        }
        left = left_in(known, others, formula, v, &extend(env, block, number), left);
    }
    left
}
