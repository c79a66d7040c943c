//! The number of ground atoms, and the weight, over domains that are listed.
ghost use Rattle.std.specs.Prelude.{◌≡◌, map};
ghost use Rattle.kb_logic.specs.Views.{theory_view};
ghost use Rattle.kb_logic.specs.Weights.{atom_count, weight_of};
ghost use Rattle.type_derivation.specs.TypedViews.{named_term_view};
ghost use Rattle.stage_definitions.specs.SizesStage.{capped};

use crate::domains::Domains;
use crate::weights;
use kb_logic::{DomainList, Term, Theory, Vocabulary};
use type_derivation::Named;

/// The ground atoms of all symbols, at most the greatest number of 64 bits.
pub fn atoms(vocab: &Vocabulary, domains: &DomainList) -> u64
    ensures { result ≡ capped (atom_count vocab.now domains.now) }
{
    weights::atoms(vocab, &Domains::listed(domains))
}

/// The weight of a theory, with all term blocks, at most the greatest number of 64 bits.
pub fn weight(
    vocab: &Vocabulary,
    domains: &DomainList,
    theory: &Theory,
    blocks: &[Named<Term>],
) -> u64
    ensures { result ≡ capped (weight_of vocab.now domains.now (theory_view theory.now) (map (λ t. t.term) (map
        named_term_view blocks.now))) }
{
    weights::weight(vocab, &Domains::listed(domains), theory, blocks)
}
