//! The conditions of the calls of `partial_structures`, as tests.
ghost use Rattle.std.specs.Prelude.{◌≡◌, Contains, IfOk, IfSome};
ghost use Rattle.std.specs.Bool.{OnTrue};
ghost use Rattle.std.specs.List.{AllByRecursion, list_any};
ghost use Rattle.kb_logic.specs.Denotations.{denotation_of, same_value};
ghost use Rattle.kb_logic.specs.Models.{HasValueIn};
ghost use Rattle.kb_logic.specs.Structures.{IsDistinct, tuples_of};
ghost use Rattle.partial_structures.specs.KnownAtoms.{IsAtomOver, atom_of, nothing_known};

use crate::fixtures::vocabulary;
use kb_logic::values::{domain_in, elem_value, same};
use kb_logic::{DomainList, Elem, ElemList, Literal, Memory, SymbolList};
use partial_structures::Partial;
use std::alloc::Global;

fn stands_in(elem: &Elem, domain: &[Elem]) -> bool
    ensures { result ≡ list_any (λ y. same_value (denotation_of y) (denotation_of elem.now)) domain.now }
{
    for other in domain {
        if same(elem_value(other), elem_value(elem)) {
            return true;
        }
    }
    false
}

fn is_distinct(domain: &[Elem]) -> bool
    ensures { OnTrue result (IsDistinct domain.now) }
{
    match domain.split_first() {
        None => true,
        Some((first, rest)) => !stands_in(first, rest) && is_distinct(rest),
    }
}

fn are_distinct(domains: &[ElemList]) -> bool
    ensures { OnTrue result (AllByRecursion IsDistinct domains.now) }
{
    match domains.split_first() {
        None => true,
        Some((first, rest)) => is_distinct(first.as_slice()) && are_distinct(rest),
    }
}

fn is_tuple(domains: &[ElemList], types: &[u32], args: &[Elem]) -> bool
    ensures { OnTrue result (Contains (tuples_of domains.now types.now) args.now) }
{
    match types.split_first() {
        None => args.is_empty(),
        Some((ty, types)) => match args.split_first() {
            None => false,
            Some((arg, args)) => stands_in(arg, domain_in(domains, *ty))
                && is_tuple(domains, types, args),
        },
    }
}

fn has_value(domains: &[ElemList], ty: Option<u32>, value: &Option<Elem>) -> bool
    ensures { OnTrue result (HasValueIn domains.now ty value.now) }
{
    match (ty, value) {
        (None, None) => true,
        (Some(ty), Some(value)) => stands_in(value, domain_in(domains, ty)),
        _ => false,
    }
}

/// Whether the atom is one over the domains.
pub fn is_over(partial: &Partial, atom: &Literal) -> bool
    ensures { OnTrue result (IsAtomOver partial.now.symbols partial.now.domains (atom_of atom.now)) }
{
    match partial.symbols().get(atom.symbol as usize) {
        None => false,
        Some(symbol) => {
            let domains = partial.domains().as_slice();
            is_tuple(domains, symbol.args.as_slice(), atom.args.as_slice())
                && has_value(domains, symbol.value, &atom.value)
        }
    }
}

/// Nothing is known of the symbols over two domains.
pub fn nothing(
    alloc: Global,
    symbols: SymbolList,
    domains: DomainList,
) -> Result<Option<Partial>, Memory>
    ensures { IfOk result (λ o. IfSome o (λ p. p ≡ nothing_known symbols domains)) }
{
    let vocab = vocabulary(alloc, symbols)?;
    if domains.len() == vocab.types.len() && are_distinct(domains.as_slice()) {
        Ok(Some(Partial::new(alloc, &vocab, domains)?))
    } else {
        Ok(None)
    }
}
