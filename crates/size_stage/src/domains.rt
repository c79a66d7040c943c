//! Domains, of which no more is asked than how many elements they have.
ghost use Rattle.std.specs.Prelude.{◌≡◌, length, map};
ghost use Rattle.kb_logic.specs.Structures.{domain_at};
ghost use Rattle.size_stage.specs.Counted.{count_in, elements_of};

use crate::sources::Source;
use data_domains::types::TypeData;
use kb_logic::DomainList;
use std::marker::Model;

/// Domains that are listed one by one, or that types have whose elements are only counted.
///
/// Its model is the list of the domains, so that what is computed of counts is stated, and proved, of domains.
#[derive(Drop)]
pub struct Domains<'a, 'b> {
    source: Source<'a, 'b>,
}

impl<'a, 'b> Model for Domains<'a, 'b> {
    ghost use Rattle.std.specs.Prelude.{List};
    ghost use Rattle.kb_logic.specs.declared.elements.Elem.{Elem};

    ghost Value = { List (List Elem) };

    ghost use Rattle.size_stage.specs.Counted.{domains_in, AreCounted};

    ghost view = { λ d. domains_in d.source };

    ghost invariant = { λ d. AreCounted d.source };
}

impl<'a, 'b> Domains<'a, 'b> {
    pub fn listed(domains: &'a DomainList) -> Domains<'a, 'b>
        ensures { result ≡ domains.now }
    {
        Domains {
            source: Source::Listed(domains),
        }
    }

    /// The domains of types, of which each has so many elements.
    pub fn counted(types: &'a [TypeData<'b>], counts: Vec<u64>) -> Domains<'a, 'b>
        requires { counts.items ≡ map count_in types.now }
        ensures { result ≡ map elements_of types.now }
    {
        Domains {
            source: Source::Counted(types, counts),
        }
    }

    /// How many elements the domain with this number has.
    pub fn count(&self, ty: usize) -> u64
        ensures { result ≡ length (domain_at self.now ty) }
    {
        self.source.count(ty)
    }
}
