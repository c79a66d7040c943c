//! The product of the value types' sizes of the applications in a term.
ghost use Rattle.std.specs.Prelude.{◌≡◌, map};
ghost use Rattle.kb_logic.specs.Trees.{summands_of, terms_of};
ghost use Rattle.kb_logic.specs.Views.{signed_view, term_view};
ghost use Rattle.kb_logic.specs.Weights.{application_count, applications_count, summands_count};
ghost use Rattle.stage_definitions.specs.SizesStage.{capped};

use crate::capped::times;
use crate::counts::values;
use crate::domains::Domains;
use kb_logic::{Signed, Term, Vocabulary};

#[cycle(applications)]
pub fn in_term(vocab: &Vocabulary, domains: &Domains<'_, '_>, term: &Term) -> u64
    ensures { result ≡ capped (application_count vocab.now domains.now (term_view term.now)) }
{
    match term {
        Term::Apply(symbol, args) => times(
            values(vocab, domains, *symbol),
            in_terms(vocab, domains, args),
        ),
        Term::Sum(parts) => in_summands(vocab, domains, parts),
        Term::Product(factors) => in_terms(vocab, domains, factors),
        Term::Var(_) => 1,
        Term::Int(_) => 1,
        Term::Made(_, _) => 1,
        Term::Agg(_, _, _, _) => 1,
    }
}

#[cycle(applications)]
pub fn in_terms(vocab: &Vocabulary, domains: &Domains<'_, '_>, terms: &[Term]) -> u64
    ensures { result ≡ capped (applications_count vocab.now domains.now (terms_of (map term_view terms.now))) }
{
    let mut count = 1u64;
    for term in terms {
        count = times(count, in_term(vocab, domains, term));
    }
    count
}

#[cycle(applications)]
fn in_summands(vocab: &Vocabulary, domains: &Domains<'_, '_>, parts: &[Signed]) -> u64
    ensures { result ≡ capped (summands_count vocab.now domains.now (summands_of (map signed_view parts.now))) }
{
    let mut count = 1u64;
    for part in parts {
        count = times(count, in_term(vocab, domains, &part.term));
    }
    count
}
