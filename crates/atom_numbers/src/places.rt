//! Places of tuples and of atoms in their orders.
ghost use Rattle.std.specs.Prelude.{◌≡◌, ◌<◌, ◌^◌, ℕ, suc, length, slice_get, get_or, [], Contains};
ghost use Rattle.std.specs.Prelude.{IfSome, IfOk, Some, None, MatchOption, ◌-◌, ◌%◌, ◌≤◌};
ghost use Rattle.kb_logic.specs.Structures.{tuples_of, domain_at};
ghost use Rattle.kb_logic.specs.Models.{IsAtomOver, HasValueIn, atom_of};
ghost use Rattle.term_values.specs.GroundBases.{atoms_in};
ghost use Rattle.kb_logic.specs.KnownAtoms.{atoms_over};
ghost use Rattle.ground_core.specs.Problems.{IsLitOf};
ghost use Rattle.atom_numbers.specs.Numbers.{IsPlaceIn, IsSymbolOf, AreNumbered};

use kb_logic::values::domain_in;
use kb_logic::{Elem, ElemList, Literal, Memory, Symbol};
use lit_core::Lit;
use std::alloc::Global;

/// How many tuples there are over these types; None where a `u64` cannot count them.
pub(crate) fn tuple_count(domains: &[ElemList], types: &[u32]) -> Option<u64>
    ensures { IfSome result (λ n. n ≡ length (tuples_of domains.now types.now)) }
{
    let mut count = 1u64;
    for ty in types {
        match count.checked_mul(domain_in(domains, *ty).len() as u64) {
            Some(product) => count = product,
            None => return None,
        }
    }
    Some(count)
}

/// How many ground atoms a symbol has; None where a `u64` cannot count them.
pub(crate) fn atom_count(domains: &[ElemList], symbol: &Symbol) -> Option<u64>
    ensures { IfSome result (λ n. n ≡ atoms_in domains.now symbol.now) }
{
    let Some(tuples) = tuple_count(domains, symbol.args.as_slice()) else {
        return None;
    };
    match symbol.value {
        None => Some(tuples),
        Some(ty) => tuples.checked_mul(domain_in(domains, ty).len() as u64),
    }
}

/// The place of the element if it stands as far from the domain's first one as their numbers are apart.
fn place_in_run(domain: &[Elem], elem: &Elem) -> Option<usize>
    ensures { IfSome result (λ place. slice_get domain.now place ≡ Some elem.now) }
{
    let Some(Elem::Num(first)) = domain.first() else {
        return None;
    };
    let Elem::Num(number) = elem else {
        return None;
    };
    let place = number.abs_diff(*first) as usize;
    match domain.get(place) {
        Some(there) if there.same(elem) => Some(place),
        _ => None,
    }
}

// Most long domains are runs of integers, as `1..60000`: there the element is found at once.
/// The place of the element in its domain.
fn position(domain: &[Elem], elem: &Elem) -> usize
    requires { Contains domain.now elem.now }
    ensures { slice_get domain.now result ≡ Some elem.now }
{
    if let Some(place) = place_in_run(domain, elem) {
        return place;
    }
    let mut place = 0;
    while !domain[place].same(elem) {
        place += 1;
    }
    place
}

// The elements of a tuple are the digits of its place, whose bases are the sizes of their types.
/// The place of the tuple among all of these types, in domain order.
fn tuple_place(domains: &[ElemList], types: &[u32], args: &[Elem]) -> u64
    requires among { Contains (tuples_of domains.now types.now) args.now }
    requires few { length (tuples_of domains.now types.now) < 2 ^ 64 }
    ensures { slice_get (tuples_of domains.now types.now) result ≡ Some args.now }
{
    let mut place = 0u64;
    for k in 0..types.len() {
        let domain = domain_in(domains, types[k]);
        place = place * domain.len() as u64 + position(domain, &args[k]) as u64;
    }
    place
}

// The digits are read from the first one on: `each` tuples begin with the elements so far, and the tuple is the one at
// `left` among these.
/// The tuple at this place among all of these types, of which there are `count`.
pub(crate) fn tuple_at(
    alloc: Global,
    domains: &[ElemList],
    types: &[u32],
    count: u64,
    place: u64,
) -> Result<ElemList, Memory>
    requires count { count ≡ length (tuples_of domains.now types.now) }
    requires place { place < count }
    ensures { IfOk result (λ tuple. tuple ≡ get_or (tuples_of domains.now types.now) place []) }
{
    let mut tuple = ElemList::new(alloc);
    let mut each = count;
    let mut left = place;
    for ty in types {
        let domain = domain_in(domains, *ty);
        each /= domain.len() as u64;
        tuple.push(domain[(left / each) as usize].copy(alloc)?)?;
        left %= each;
    }
    Ok(tuple)
}

/// The place of the literal's atom among those of its symbol.
fn atom_place(domains: &[ElemList], symbol: &Symbol, literal: &Literal) -> u64
    requires args { Contains (tuples_of domains.now symbol.now.args) literal.now.args }
    requires value { HasValueIn domains.now symbol.now.value literal.now.value }
    requires few { atoms_in domains.now symbol.now < 2 ^ 64 }
    ensures { IsPlaceIn domains.now symbol.now literal.now result }
{
    let tuple = tuple_place(domains, symbol.args.as_slice(), literal.args.as_slice());
    match symbol.value {
        None => tuple,
        Some(ty) => match &literal.value {
            None => tuple,
            Some(value) => {
                let domain = domain_in(domains, ty);
                tuple * domain.len() as u64 + position(domain, value) as u64
            }
        },
    }
}

/// The variable of the literal's atom, where these are the variables of the symbols' first atoms.
pub(crate) fn variable_of(
    domains: &[ElemList],
    symbols: &[Symbol],
    firsts: &[u64],
    literal: &Literal,
) -> u64
    requires numbered { AreNumbered domains.now symbols.now firsts.now }
    requires over { IsAtomOver symbols.now domains.now (atom_of literal.now) }
    ensures { (n : ℕ) × (slice_get (atoms_over symbols.now domains.now) n ≡ Some (atom_of literal.now))
        × (result ≡ suc n) }
{
    let number = literal.symbol as usize;
    let place = atom_place(domains, &symbols[number], literal);
    firsts[number] + place
}

/// The number of the symbol to which the literal's atom belongs, where these are the variables of the symbols' first
/// atoms. It takes time linear in the number of symbols.
pub(crate) fn symbol_of(domains: &[ElemList], symbols: &[Symbol], firsts: &[u64], lit: Lit) -> usize
    requires numbered { AreNumbered domains.now symbols.now firsts.now }
    requires atom { IsLitOf (length (atoms_over symbols.now domains.now)) lit }
    ensures { IsSymbolOf domains.now symbols.now lit.var.0 result }
{
    let mut number = firsts.len() - 1;
    while firsts[number] > lit.var.0 {
        number -= 1;
    }
    number
}

// The place of a function's atom is the place of its arguments times the number of values, plus that of its value.
/// The literal of the symbol's atom at this place.
pub(crate) fn literal_at(
    alloc: Global,
    domains: &[ElemList],
    symbol: &Symbol,
    number: u32,
    place: u64,
    positive: bool,
) -> Result<Literal, Memory>
    requires { place < atoms_in domains.now symbol.now }
    ensures { IfOk result (λ l. (l.symbol ≡ number) × (l.positive ≡ positive)
        × IsPlaceIn domains.now symbol.now l place) }
{
    let types = symbol.args.as_slice();
    let Some(count) = tuple_count(domains, types) else {
        return Err(Memory);
    };
    match symbol.value {
        None => Ok(Literal {
            positive,
            symbol: number,
            args: tuple_at(alloc, domains, types, count, place)?,
            value: None,
        }),
        Some(ty) => {
            let domain = domain_in(domains, ty);
            let size = domain.len() as u64;
            let value = domain[(place % size) as usize].copy(alloc)?;
            Ok(Literal {
                positive,
                symbol: number,
                args: tuple_at(alloc, domains, types, count, place / size)?,
                value: Some(value),
            })
        }
    }
}

/// The variable of the first atom that gives the symbol at the same arguments a value, where the symbol's atom at this
/// place has the variable `var`; None for a predicate.
pub(crate) fn application_at(
    domains: &[ElemList],
    symbol: &Symbol,
    place: u64,
    var: u64,
) -> Option<u64>
    requires place { place < atoms_in domains.now symbol.now }
    requires var { place ≤ var }
    ensures { MatchOption result (symbol.now.value ≡ None) (λ first. (ty : ℕ) × (symbol.now.value ≡ Some ty)
        × (first ≡ var - place % length (domain_at domains.now ty))) }
{
    match symbol.value {
        None => None,
        Some(ty) => Some(var - place % domain_in(domains, ty).len() as u64),
    }
}
