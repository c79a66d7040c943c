//! The places of elements in the domains of their types, found by hashing.
ghost use Rattle.std.specs.Prelude.{◌≡◌, ◌++◌, ◌∷◌, [], List, length, IfOk, OnOk};
ghost use Rattle.kb_logic.specs.declared.elements.Elem.{Elem as Element};
ghost use Rattle.kb_logic.specs.Denotations.{denotation_of, named, number};
ghost use Rattle.kb_logic.specs.Values.{value_view};
ghost use Rattle.term_values.specs.DomainIndexes.{index_in, IsIndexOf, AreIndexesOf};

use indexmap::IndexMap;
use kb_logic::values::{Value, elem_value};
use kb_logic::{Elem, ElemList, Memory};
use std::alloc::Global;

/// The places of a domain's names, and of its integers.
#[derive(Drop)]
pub(crate) struct DomainIndex<'a> {
    pub names: IndexMap<&'a [u8], usize>,
    pub numbers: IndexMap<i64, usize>,
}

impl<'a> DomainIndex<'a> {
    /// The places of this domain's elements.
    pub fn of(alloc: Global, domain: &'a [Elem]) -> Result<DomainIndex<'a>, Memory>
        ensures { IfOk result (λ d. IsIndexOf d domain.now) }
    {
        let mut index = DomainIndex {
            names: IndexMap::new(alloc),
            numbers: IndexMap::new(alloc),
        };
        for place in 0..domain.len() {
            index.add(elem_value(&domain[place]), place)?;
        }
        Ok(index)
    }

    /// Notes the element that stands at the place after those that were noted, by its value.
    fn add(&mut self, value: Value<'a>, place: usize) -> Result<(), Memory>
        ensures { OnOk result ((x : Element) (xs : List Element) → denotation_of x ≡ value_view value.entry
            → IsIndexOf self.old xs → place ≡ length xs → IsIndexOf self.new (xs ++ x ∷ [])) }
    {
        match value {
            Value::Named(name) => self.add_name(name, place),
            Value::Num(n) => self.add_number(n, place),
            _ => Ok(()),
        }
    }

    fn add_name(&mut self, name: &'a [u8], place: usize) -> Result<(), Memory>
        ensures { OnOk result ((x : Element) (xs : List Element) → denotation_of x ≡ named name.now
            → IsIndexOf self.old xs → place ≡ length xs → IsIndexOf self.new (xs ++ x ∷ [])) }
    {
        if !self.names.contains_key(name) {
            self.names.insert(name, place)?;
        }
        Ok(())
    }

    fn add_number(&mut self, n: i64, place: usize) -> Result<(), Memory>
        ensures { OnOk result ((x : Element) (xs : List Element) → denotation_of x ≡ number n → IsIndexOf self.old xs
            → place ≡ length xs → IsIndexOf self.new (xs ++ x ∷ [])) }
    {
        if !self.numbers.contains_key(&n) {
            self.numbers.insert(n, place)?;
        }
        Ok(())
    }

    /// The place of a value among the elements, if it is one of them.
    pub fn find(&self, value: Value<'_>) -> Option<usize>
        ensures { result ≡ index_in self.now (value_view value.entry) }
    {
        match value {
            Value::Named(name) => self.names.get(name).copied(),
            Value::Num(n) => self.numbers.get(&n).copied(),
            _ => None,
        }
    }
}

/// The places of the elements of all domains.
pub(crate) fn indexes_of<'a>(
    alloc: Global,
    domains: &'a [ElemList],
) -> Result<Vec<DomainIndex<'a>>, Memory>
    ensures { IfOk result (λ indexes. AreIndexesOf indexes.items domains.now) }
{
    let mut indexes = Vec::new(alloc);
    for domain in domains {
        indexes.push(DomainIndex::of(alloc, domain.as_slice())?)?;
    }
    Ok(indexes)
}
