//! How many elements, values and assignments there are.
ghost use Rattle.std.specs.Prelude.{◌≡◌, length};
ghost use Rattle.kb_logic.specs.Bounds.{domain_if, value_type_of};
ghost use Rattle.kb_logic.specs.Structures.{choices, domain_at};
ghost use Rattle.stage_definitions.specs.SizesStage.{capped};

use crate::capped::times;
use crate::domains::Domains;
use kb_logic::{Bound, Vocabulary};

pub fn elements(domains: &Domains<'_, '_>, ty: u32) -> u64
    ensures { result ≡ length (domain_at domains.now ty) }
{
    domains.count(ty as usize)
}

fn elements_if(domains: &Domains<'_, '_>, ty: Option<u32>) -> u64
    ensures { result ≡ length (domain_if domains.now ty) }
{
    match ty {
        Some(ty) => elements(domains, ty),
        None => 0,
    }
}

/// The type of a function's values.
pub fn value_type(vocab: &Vocabulary, symbol: u32) -> Option<u32>
    ensures { result ≡ value_type_of vocab.now symbol }
{
    match vocab.symbols.get(symbol as usize) {
        Some(symbol) => symbol.value,
        None => None,
    }
}

/// How many values a function may have.
pub fn values(vocab: &Vocabulary, domains: &Domains<'_, '_>, symbol: u32) -> u64
    ensures { result ≡ length (domain_if domains.now (value_type_of vocab.now symbol)) }
{
    elements_if(domains, value_type(vocab, symbol))
}

/// How many assignments of elements to these variables there are.
pub fn assignments(domains: &Domains<'_, '_>, bounds: &[Bound]) -> u64
    ensures { result ≡ capped (length (choices domains.now bounds.now)) }
{
    let mut count = 1u64;
    for bound in bounds {
        count = times(count, elements(domains, bound.ty));
    }
    count
}
