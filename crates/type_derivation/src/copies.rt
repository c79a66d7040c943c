//! Copies of typed knowledge bases. A copy is seen as its source.
ghost use Rattle.std.specs.Prelude.{◌≡◌, map, IfOk};
ghost use Rattle.type_derivation.specs.TypedViews.{named_term_view, named_theory_view, places_view, typed_view};

use crate::typed::{Named, Places, TypedKb};
use kb_logic::{Memory, Term, Theory};
use sqlite_items::Items;
use std::alloc::Global;

fn copy_lists(alloc: Global, lists: &[Items<usize>]) -> Result<Items<Items<usize>>, Memory>
    ensures { IfOk result (λ ls. ls ≡ lists.now) }
{
    let mut copies = Vec::new(alloc);
    for list in lists {
        copies.push(Items::from_slice(alloc, list.as_slice())?)?;
    }
    Ok(Items::from_vec(copies))
}

fn copy_theories(alloc: Global, theories: &[Named<Theory>]) -> Result<Items<Named<Theory>>, Memory>
    ensures { IfOk result (λ ts. map named_theory_view ts ≡ map named_theory_view theories.now) }
{
    let mut copies = Vec::new(alloc);
    for theory in theories {
        let name = theory.name.copy(alloc)?;
        let value = theory.value.copy(alloc)?;
        copies.push(Named { name, value })?;
    }
    Ok(Items::from_vec(copies))
}

fn copy_terms(alloc: Global, terms: &[Named<Term>]) -> Result<Items<Named<Term>>, Memory>
    ensures { IfOk result (λ ts. map named_term_view ts ≡ map named_term_view terms.now) }
{
    let mut copies = Vec::new(alloc);
    for term in terms {
        let name = term.name.copy(alloc)?;
        let value = term.value.copy(alloc)?;
        copies.push(Named { name, value })?;
    }
    Ok(Items::from_vec(copies))
}

impl Places {
    pub fn copy(&self, alloc: Global) -> Result<Places, Memory>
        ensures { IfOk result (λ p. places_view p ≡ places_view self.now) }
    {
        Ok(Places {
            types: Items::from_slice(alloc, self.types.as_slice())?,
            symbols: Items::from_slice(alloc, self.symbols.as_slice())?,
            theories: Items::from_slice(alloc, self.theories.as_slice())?,
            theory_terms: copy_lists(alloc, self.theory_terms.as_slice())?,
            block_terms: copy_lists(alloc, self.block_terms.as_slice())?,
        })
    }
}

impl TypedKb {
    pub fn copy(&self, alloc: Global) -> Result<TypedKb, Memory>
        ensures { IfOk result (λ kb. typed_view kb ≡ typed_view self.now) }
    {
        Ok(TypedKb {
            vocab: self.vocab.copy(alloc)?,
            theories: copy_theories(alloc, self.theories.as_slice())?,
            terms: copy_terms(alloc, self.terms.as_slice())?,
            places: self.places.copy(alloc)?,
        })
    }
}
