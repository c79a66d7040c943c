//! How often the parts of a formula or a term are instantiated.
ghost use Rattle.std.specs.Prelude.{◌≡◌, map};
ghost use Rattle.kb_logic.specs.Trees.{formulas_of, summands_of, terms_of};
ghost use Rattle.kb_logic.specs.Views.{formula_view, signed_view, term_view};
ghost use Rattle.kb_logic.specs.Weights.{
  all_occurrences,
  asked_occurrences,
  occurrences,
  summands_occurrences,
  term_occurrences,
  terms_occurrences,
};
ghost use Rattle.stage_definitions.specs.SizesStage.{capped};

use crate::applications::{in_term, in_terms};
use crate::capped::{plus, times};
use crate::counts::assignments;
use crate::domains::Domains;
use kb_logic::{Formula, Signed, Term, Vocabulary};

/// The occurrences in a term, where the variables in scope have `n` assignments.
#[cycle(occurrences)]
fn term(vocab: &Vocabulary, domains: &Domains<'_, '_>, of: &Term, n: u64) -> u64
    ensures { result ≡ capped (term_occurrences vocab.now domains.now (term_view of.now) n) }
{
    match of {
        Term::Apply(_, args) => terms(vocab, domains, args, n),
        Term::Sum(parts) => summands(vocab, domains, parts, n),
        Term::Product(factors) => terms(vocab, domains, factors, n),
        Term::Agg(_, bounds, condition, weight) => {
            let inner = times(n, assignments(domains, bounds));
            let own = plus(
                times(inner, in_term(vocab, domains, weight)),
                formula(vocab, domains, condition, inner),
            );
            plus(own, term(vocab, domains, weight, inner))
        }
        Term::Var(_) => 0,
        Term::Int(_) => 0,
        Term::Made(_, _) => 0,
    }
}

#[cycle(occurrences)]
fn terms(vocab: &Vocabulary, domains: &Domains<'_, '_>, all: &[Term], n: u64) -> u64
    ensures { result ≡ capped (terms_occurrences vocab.now domains.now (terms_of (map term_view all.now)) n) }
{
    let mut count = 0u64;
    for one in all {
        count = plus(count, term(vocab, domains, one, n));
    }
    count
}

#[cycle(occurrences)]
fn summands(vocab: &Vocabulary, domains: &Domains<'_, '_>, parts: &[Signed], n: u64) -> u64
    ensures { result ≡ capped (summands_occurrences vocab.now domains.now (summands_of (map signed_view parts.now)) n) }
{
    let mut count = 0u64;
    for part in parts {
        count = plus(count, term(vocab, domains, &part.term, n));
    }
    count
}

/// The occurrences in a formula, where the variables in scope have `n` assignments.
#[cycle(occurrences)]
fn formula(vocab: &Vocabulary, domains: &Domains<'_, '_>, of: &Formula, n: u64) -> u64
    ensures { result ≡ capped (occurrences vocab.now domains.now (formula_view of.now) n) }
{
    match of {
        Formula::True => n,
        Formula::False => n,
        Formula::Atom(_, args) => plus(
            times(n, in_terms(vocab, domains, args)),
            terms(vocab, domains, args, n),
        ),
        Formula::Compare(_, left, right) => {
            let own = times(
                n,
                times(
                    in_term(vocab, domains, left),
                    in_term(vocab, domains, right),
                ),
            );
            let first = plus(own, term(vocab, domains, left, n));
            plus(first, term(vocab, domains, right, n))
        }
        Formula::Not(inner) => plus(n, formula(vocab, domains, inner, n)),
        Formula::And(parts) => plus(n, formulas(vocab, domains, parts, n)),
        Formula::Or(parts) => plus(n, formulas(vocab, domains, parts, n)),
        Formula::Implies(left, right) => {
            let first = plus(n, formula(vocab, domains, left, n));
            plus(first, formula(vocab, domains, right, n))
        }
        Formula::Iff(left, right) => {
            let first = plus(n, formula(vocab, domains, left, n));
            plus(first, formula(vocab, domains, right, n))
        }
        Formula::All(bounds, inner) => {
            plus(
                n,
                formula(
                    vocab,
                    domains,
                    inner,
                    times(n, assignments(domains, bounds)),
                ),
            )
        }
        Formula::Any(bounds, inner) => {
            plus(
                n,
                formula(
                    vocab,
                    domains,
                    inner,
                    times(n, assignments(domains, bounds)),
                ),
            )
        }
        Formula::Number(_, _, bounds, inner) => {
            plus(
                n,
                formula(
                    vocab,
                    domains,
                    inner,
                    times(n, assignments(domains, bounds)),
                ),
            )
        }
    }
}

#[cycle(occurrences)]
fn formulas(vocab: &Vocabulary, domains: &Domains<'_, '_>, all: &[Formula], n: u64) -> u64
    ensures { result ≡ capped (all_occurrences vocab.now domains.now (formulas_of (map formula_view all.now)) n) }
{
    let mut count = 0u64;
    for one in all {
        count = plus(count, formula(vocab, domains, one, n));
    }
    count
}

/// The occurrences in a formula under so many assignments.
pub fn formula_in(vocab: &Vocabulary, domains: &Domains<'_, '_>, of: &Formula, n: u64) -> u64
    ensures { result ≡ capped (occurrences vocab.now domains.now (formula_view of.now) n) }
{
    formula(vocab, domains, of, n)
}

/// The occurrences in a sentence.
pub fn formula_occurrences(vocab: &Vocabulary, domains: &Domains<'_, '_>, of: &Formula) -> u64
    ensures { result ≡ capped (occurrences vocab.now domains.now (formula_view of.now) 1) }
{
    formula(vocab, domains, of, 1)
}

/// The occurrences in a term that may be asked for.
pub fn asked(vocab: &Vocabulary, domains: &Domains<'_, '_>, of: &Term) -> u64
    ensures { result ≡ capped (asked_occurrences vocab.now domains.now (term_view of.now)) }
{
    plus(in_term(vocab, domains, of), term(vocab, domains, of, 1))
}
