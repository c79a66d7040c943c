//! Where domains come from.
ghost use Rattle.std.specs.Prelude.{◌≡◌, length, slice_get, unwrap_or};
ghost use Rattle.kb_logic.specs.Structures.{domain_at};
ghost use Rattle.size_stage.specs.Counted.{domains_in, AreCounted};

use data_domains::types::TypeData;
use kb_logic::DomainList;

/// Domains are listed, or types have them, of which each has so many elements.
#[derive(Drop)]
pub enum Source<'a, 'b> {
    Listed(&'a DomainList),
    Counted(&'a [TypeData<'b>], Vec<u64>),
}

fn listed_count(domains: &DomainList, ty: usize) -> u64
    ensures { result ≡ length (domain_at domains.now ty) }
{
    match domains.get(ty) {
        Some(domain) => domain.len() as u64,
        None => 0,
    }
}

fn count_at(counts: &[u64], ty: usize) -> u64
    ensures { result ≡ unwrap_or (slice_get counts.now ty) 0 }
{
    match counts.get(ty) {
        Some(count) => *count,
        None => 0,
    }
}

impl<'a, 'b> Source<'a, 'b> {
    /// How many elements the domain with this number has.
    pub fn count(&self, ty: usize) -> u64
        requires { AreCounted self.now }
        ensures { result ≡ length (domain_at (domains_in self.now) ty) }
    {
        match self {
            Source::Listed(domains) => listed_count(domains, ty),
            Source::Counted(_, counts) => count_at(counts, ty),
        }
    }
}
