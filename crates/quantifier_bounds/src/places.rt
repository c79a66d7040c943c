//! The atom that an application names, where its terms are known.
ghost use Rattle.std.specs.Prelude.{◌≡◌, true, map, option_map, IfOk, IfSome};
ghost use Rattle.kb_logic.specs.Trees.{terms_of};
ghost use Rattle.kb_logic.specs.Views.{term_view};
ghost use Rattle.kb_logic.specs.Values.{value_view};
ghost use Rattle.kb_logic.specs.Structures.{domain_at};
ghost use Rattle.plain_evaluation.specs.Environments.{env_view};
ghost use Rattle.partial_structures.specs.KnownAtoms.{atom_of};
ghost use Rattle.certain_truth.specs.Certainty.{known_value, known_values};
ghost use Rattle.certain_truth.specs.KnownArithmetic.{ValueFits, ValuesFit};
ghost use Rattle.quantifier_bounds.specs.Places.{IsElementOf, IsKnownElement, IsKnownRow, IsNamedAtom};

use certain_truth::known_term;
use kb_logic::values::Value;
use kb_logic::{Elem, ElemList, Literal, Memory, Name, Term};
use partial_structures::Partial;
use plain_evaluation::environments::Env;
use std::alloc::Global;

/// The element with this value.
fn element_of(alloc: Global, value: Value<'_>) -> Result<Option<Elem>, Memory>
    ensures { IfOk result (λ o. IsElementOf (value_view value.entry) o) }
{
    match value {
        Value::Named(name) => Ok(Some(Elem::Named(Name::new(alloc, name)?))),
        Value::Num(n) => Ok(Some(Elem::Num(n))),
        _ => Ok(None),
    }
}

/// The element of the type that the term is known to be.
fn known_element(
    alloc: Global,
    known: &Partial,
    ty: u32,
    term: &Term,
    env: &Env<'_>,
) -> Result<Option<Elem>, Memory>
    requires { ValueFits known.now (term_view term.now) (env_view env.now) }
    ensures { IfOk result (λ o. IsKnownElement (domain_at known.now.domains ty)
        (known_value known.now (term_view term.now) (env_view env.now)) o) }
{
    let Some(value) = known_term(known, term, env) else {
        return Ok(None);
    };
    let Some(elem) = element_of(alloc, value)? else {
        return Ok(None);
    };
    if known.has_element(ty, &elem) {
        Ok(Some(elem))
    } else {
        Ok(None)
    }
}

/// The tuple over the types that the terms are known to be.
fn known_row(
    alloc: Global,
    known: &Partial,
    types: &[u32],
    terms: &[Term],
    env: &Env<'_>,
) -> Result<Option<ElemList>, Memory>
    requires { ValuesFit known.now (terms_of (map term_view terms.now)) (env_view env.now) }
    ensures { IfOk result (λ o. IsKnownRow known.now.domains types.now
        (known_values known.now (terms_of (map term_view terms.now)) (env_view env.now)) o) }
{
    let mut row = ElemList::new(alloc);
    if types.len() != terms.len() {
        return Ok(None);
    }
    for at in 0..terms.len() {
        match known_element(alloc, known, types[at], &terms[at], env)? {
            Some(elem) => row.push(elem)?,
            None => return Ok(None),
        }
    }
    Ok(Some(row))
}

/// The atom of the symbol with these arguments, and with this value where there is one.
pub(crate) fn named(
    alloc: Global,
    known: &Partial,
    symbol: u32,
    args: &[Term],
    value: Option<&Term>,
    env: &Env<'_>,
) -> Result<Option<Literal>, Memory>
    requires args { ValuesFit known.now (terms_of (map term_view args.now)) (env_view env.now) }
    requires value { IfSome value (λ t. ValueFits known.now (term_view t.now) (env_view env.now)) }
    ensures { IfOk result (λ o. IsNamedAtom known.now symbol (terms_of (map term_view args.now))
        (option_map (λ t. term_view t.now) value.entry) (env_view env.now) (option_map atom_of o)) }
{
    let Some(declared) = known.symbols().get(symbol as usize) else {
        return Ok(None);
    };
    let Some(args) = known_row(alloc, known, declared.args.as_slice(), args, env)? else {
        return Ok(None);
    };
    match (declared.value, value) {
        (None, None) => Ok(Some(atom(symbol, args, None))),
        (Some(ty), Some(term)) => match known_element(alloc, known, ty, term, env)? {
            Some(value) => Ok(Some(atom(symbol, args, Some(value)))),
            None => Ok(None),
        },
        _ => Ok(None),
    }
}

/// The literal that affirms the atom.
pub(crate) fn atom(symbol: u32, args: ElemList, value: Option<Elem>) -> Literal
    ensures { result ≡ record { positive = true; symbol = symbol; args = args; value = value } }
{
    Literal {
        positive: true,
        symbol,
        args,
        value,
    }
}
