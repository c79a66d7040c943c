//! The number of ground atoms, and the weight.
ghost use Rattle.std.specs.Prelude.{◌≡◌, ◌*◌, ◌+◌, length, map, sum_by};
ghost use Rattle.kb_logic.specs.Structures.{domain_at, tuples_of};
ghost use Rattle.kb_logic.specs.Views.{definition_view, formula_view, rule_view, term_view, theory_view};
ghost use Rattle.kb_logic.specs.Weights.{
  asked_occurrences,
  atom_count,
  body_occurrences,
  definition_occurrences,
  occurrences,
  rule_occurrences,
  value_count,
  weight_of,
};
ghost use Rattle.type_derivation.specs.TypedViews.{named_term_view};
ghost use Rattle.stage_definitions.specs.SizesStage.{capped};

use crate::capped::{plus, times};
use crate::counts::{assignments, elements};
use crate::domains::Domains;
use crate::occurrences::{asked, formula_in, formula_occurrences};
use kb_logic::{Definition, Formula, Rule, Symbol, Term, Theory, Vocabulary};
use type_derivation::Named;

fn type_size(domains: &Domains<'_, '_>, ty: &u32) -> u64
    ensures { result ≡ length (domain_at domains.now ty.now) }
{
    elements(domains, *ty)
}

/// How many tuples of elements of these types there are.
fn tuples(domains: &Domains<'_, '_>, types: &[u32]) -> u64
    ensures { result ≡ capped (length (tuples_of domains.now types.now)) }
{
    let mut count = 1u64;
    for ty in types {
        count = times(count, type_size(domains, ty));
    }
    count
}

fn values_of(domains: &Domains<'_, '_>, value: Option<u32>) -> u64
    ensures { result ≡ value_count domains.now value }
{
    match value {
        Some(ty) => elements(domains, ty),
        None => 1,
    }
}

/// The ground atoms of a symbol.
pub fn atoms_of(domains: &Domains<'_, '_>, symbol: &Symbol) -> u64
    ensures { result ≡ capped (length (tuples_of domains.now symbol.now.args) * value_count domains.now
        symbol.now.value) }
{
    times(
        tuples(domains, symbol.args.as_slice()),
        values_of(domains, symbol.value),
    )
}

/// The ground atoms of all symbols.
pub fn atoms(vocab: &Vocabulary, domains: &Domains<'_, '_>) -> u64
    ensures { result ≡ capped (atom_count vocab.now domains.now) }
{
    let mut count = 0u64;
    for symbol in vocab.symbols.as_slice() {
        count = plus(count, atoms_of(domains, symbol));
    }
    count
}

fn sentences(vocab: &Vocabulary, domains: &Domains<'_, '_>, all: &[Formula]) -> u64
    ensures { result ≡ capped (sum_by (λ f. occurrences vocab.now domains.now f 1) (map formula_view all.now)) }
{
    let mut count = 0u64;
    for one in all {
        count = plus(count, formula_occurrences(vocab, domains, one));
    }
    count
}

fn body(vocab: &Vocabulary, domains: &Domains<'_, '_>, rule: &Rule, n: u64) -> u64
    ensures { result ≡ capped (body_occurrences vocab.now domains.now (rule_view rule.now) n) }
{
    if rule.has_body {
        formula_in(vocab, domains, &rule.body, n)
    } else {
        0
    }
}

fn terms(vocab: &Vocabulary, domains: &Domains<'_, '_>, all: &[Named<Term>]) -> u64
    ensures { result ≡ capped (sum_by (asked_occurrences vocab.now domains.now) (map (λ t. t.term) (map named_term_view
        all.now))) }
{
    let mut count = 0u64;
    for one in all {
        count = plus(count, asked(vocab, domains, &one.value));
    }
    count
}

fn rule_weight(vocab: &Vocabulary, domains: &Domains<'_, '_>, rule: &Rule) -> u64
    ensures { result ≡ capped (rule_occurrences vocab.now domains.now (rule_view rule.now)) }
{
    let heads = assignments(domains, rule.vars.as_slice());
    plus(plus(1, heads), body(vocab, domains, rule, heads))
}

/// The weight of a definition, which is its rules.
pub fn rules(vocab: &Vocabulary, domains: &Domains<'_, '_>, all: &[Rule]) -> u64
    ensures { result ≡ capped (sum_by (rule_occurrences vocab.now domains.now) (map rule_view all.now)) }
{
    let mut count = 0u64;
    for one in all {
        count = plus(count, rule_weight(vocab, domains, one));
    }
    count
}

fn definitions(vocab: &Vocabulary, domains: &Domains<'_, '_>, all: &[Definition]) -> u64
    ensures { result ≡ capped (sum_by (definition_occurrences vocab.now domains.now) (map definition_view all.now)) }
{
    let mut count = 0u64;
    for one in all {
        count = plus(count, rules(vocab, domains, one.rules.as_slice()));
    }
    count
}

/// The weight of a theory, with all term blocks.
pub fn weight(
    vocab: &Vocabulary,
    domains: &Domains<'_, '_>,
    theory: &Theory,
    blocks: &[Named<Term>],
) -> u64
    ensures { result ≡ capped (weight_of vocab.now domains.now (theory_view theory.now) (map (λ t. t.term) (map
        named_term_view blocks.now))) }
{
    let in_sentences = sentences(vocab, domains, theory.sentences.as_slice());
    let in_definitions = definitions(vocab, domains, theory.definitions.as_slice());
    let in_terms = terms(vocab, domains, blocks);
    let all = plus(plus(in_sentences, in_definitions), in_terms);
    plus(atoms(vocab, domains), times(4, all))
}
