//! All tuples over some types.
ghost use Rattle.std.specs.Prelude.{◌≡◌, true, [], ◌∷◌, ◌++◌, map, flat_map, IfOk, OnOk};
ghost use Rattle.kb_logic.specs.Structures.{tuples_of};

use crate::elements::Elem;
use crate::lists::ElemList;
use crate::values::domain_in;
use std::alloc::{AllocError as Memory, Global};

/// All tuples of elements of these types, in domain order. Where no domain is empty, the memory that it
/// takes is linear in what it returns.
pub fn all_tuples(
    alloc: Global,
    domains: &[ElemList],
    types: &[u32],
) -> Result<Vec<ElemList>, Memory>
    ensures { IfOk result (λ tuples. tuples.items ≡ tuples_of domains.now types.now) }
{
    let mut tuples = Vec::new(alloc);
    if has_empty_domain(domains, types) {
        return Ok(tuples);
    }
    tuples.push(ElemList::new(alloc))?;
    for ty in types {
        tuples = longer_by_one(alloc, tuples, domain_in(domains, *ty))?;
    }
    Ok(tuples)
}

/// Whether there is no tuple since a domain is empty.
pub fn has_empty_domain(domains: &[ElemList], types: &[u32]) -> bool
    ensures { result ≡ true → tuples_of domains.now types.now ≡ [] }
{
    for ty in types {
        if domain_in(domains, *ty).is_empty() {
            return true;
        }
    }
    false
}

/// Each tuple with each element at its end.
fn longer_by_one(
    alloc: Global,
    tuples: Vec<ElemList>,
    domain: &[Elem],
) -> Result<Vec<ElemList>, Memory>
    ensures { IfOk result (λ longer. longer.items ≡ flat_map (λ tuple. map (λ x. tuple ++ x ∷ []) domain.now)
        tuples.items) }
{
    let mut longer = Vec::new(alloc);
    for tuple in tuples {
        push_longer(alloc, tuple, domain, &mut longer)?;
    }
    Ok(longer)
}

/// Pushes the tuple with each element at its end. The last one takes the tuple itself, so that a domain of one element
/// copies none.
fn push_longer(
    alloc: Global,
    tuple: ElemList,
    domain: &[Elem],
    longer: &mut Vec<ElemList>,
) -> Result<(), Memory>
    ensures { OnOk result (longer.new.items ≡ longer.old.items ++ map (λ x. tuple ++ x ∷ []) domain.now) }
{
    let Some((last, others)) = domain.split_last() else {
        return Ok(());
    };
    push_copies(alloc, &tuple, others, longer)?;
    push_with(alloc, tuple, last, longer)
}

/// Pushes a copy of the tuple with each element at its end.
fn push_copies(
    alloc: Global,
    tuple: &ElemList,
    elems: &[Elem],
    longer: &mut Vec<ElemList>,
) -> Result<(), Memory>
    ensures { OnOk result (longer.new.items ≡ longer.old.items ++ map (λ x. tuple.now ++ x ∷ []) elems.now) }
{
    for elem in elems {
        push_with(alloc, tuple.copy(alloc)?, elem, longer)?;
    }
    Ok(())
}

fn push_with(
    alloc: Global,
    tuple: ElemList,
    elem: &Elem,
    longer: &mut Vec<ElemList>,
) -> Result<(), Memory>
    ensures { OnOk result (longer.new.items ≡ longer.old.items ++ (tuple ++ elem.now ∷ []) ∷ []) }
{
    let mut tuple = tuple;
    tuple.push(elem.copy(alloc)?)?;
    longer.push(tuple)?;
    Ok(())
}
