//! What follows where an atom or an equation must have a value.
ghost use Rattle.std.specs.Prelude.{◌≡◌, map, option_map, IfSome, Some, None};
ghost use Rattle.kb_logic.specs.declared.syntax.Cmp.TheVariants as cmp;
ghost use Rattle.kb_logic.specs.Trees.{terms_of};
ghost use Rattle.kb_logic.specs.Views.{term_view};
ghost use Rattle.plain_evaluation.specs.Environments.{env_view};
ghost use Rattle.partial_structures.specs.KnownAtoms.{IsAtomOver, atom_of};
ghost use Rattle.certain_truth.specs.KnownArithmetic.{ValueFits, ValuesFit};
ghost use Rattle.bound_laws.specs.Closures.{AtomHas, SideHas, EquationHas};
ghost use Rattle.quantifier_bounds.specs.Fits.{Always};
ghost use Rattle.quantifier_bounds.specs.Steps.{Narrows};
ghost use Rattle.quantifier_bounds.specs.Walks.{Gives};

use crate::atoms::settle;
use crate::fault::BoundFault;
use crate::places::named;
use kb_logic::{Literal, Term};
use partial_structures::Partial;
use plain_evaluation::environments::Env;
use std::alloc::Global;

/// The atom, where there is one, must have this value.
fn give(known: &mut Partial, atom: Option<Literal>, v: bool) -> Result<bool, BoundFault>
    requires { IfSome atom (λ l. IsAtomOver known.old.symbols known.old.domains (atom_of l)) }
    ensures { Narrows known.old known.new result (Gives (option_map atom_of atom) v) }
{
    match &atom {
        None => Ok(false),
        Some(atom) => settle(known, atom, v),
    }
}

/// The atom of a predicate must have this value.
pub(crate) fn atom_must(
    alloc: Global,
    known: &mut Partial,
    symbol: u32,
    args: &[Term],
    v: bool,
    env: &Env<'_>,
) -> Result<bool, BoundFault>
    requires { ValuesFit known.old (terms_of (map term_view args.now)) (env_view env.now) }
    ensures { Narrows known.old known.new result
        (λ q. AtomHas q v symbol (terms_of (map term_view args.now)) None (env_view env.now)) }
{
    known.consistency();
    let atom = named(alloc, &*known, symbol, args, None, env)?;
    give(known, atom, v)
}

/// The atom of the equation of an application and another term must have this value.
fn side_must(
    alloc: Global,
    known: &mut Partial,
    side: &Term,
    other: &Term,
    v: bool,
    env: &Env<'_>,
) -> Result<bool, BoundFault>
    requires side { ValueFits known.old (term_view side.now) (env_view env.now) }
    requires other { ValueFits known.old (term_view other.now) (env_view env.now) }
    ensures { Narrows known.old known.new result
        (λ q. SideHas q v (term_view side.now) (term_view other.now) (env_view env.now)) }
{
    known.consistency();
    match side {
        Term::Apply(symbol, args) => {
            let atom = named(alloc, &*known, *symbol, args, Some(other), env)?;
            give(known, atom, v)
        }
        _ => Ok(false),
    }
}

/// The equation must have this value: so each side where it is an application.
pub(crate) fn equation(
    alloc: Global,
    known: &mut Partial,
    left: &Term,
    right: &Term,
    v: bool,
    env: &Env<'_>,
) -> Result<bool, BoundFault>
    requires left { Always known.old.symbols known.old.domains (λ k. ValueFits k (term_view left.now)
        (env_view env.now)) }
    requires right { Always known.old.symbols known.old.domains (λ k. ValueFits k (term_view right.now)
        (env_view env.now)) }
    ensures { Narrows known.old known.new result
        (λ q. EquationHas q v cmp.Eq (term_view left.now) (term_view right.now) (env_view env.now)) }
{
    known.consistency();
    let first = side_must(alloc, known, left, right, v, env)?;
    known.consistency();
    let second = side_must(alloc, known, right, left, v, env)?;
    Ok(first || second)
}
