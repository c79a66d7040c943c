//! The ground problem of a theory of a file over its data.
ghost use Rattle.std.specs.Prelude.{◌≡◌, ◌↔◌, ◌≤◌, ◌<◌, ◌^◌, [], length, map, pos, IfOk, IfErr, IsTrue, OnOk};
ghost use Rattle.std.specs.List.{AllByRecursion};
ghost use Rattle.kb_logic.specs.declared.syntax.AggKind.TheVariants as kind;
ghost use Rattle.kb_logic.specs.Bounds.{TheoryIsBounded};
ghost use Rattle.kb_logic.specs.Views.{theory_view};
ghost use Rattle.ground_core.specs.Growth.{with_clause};
ghost use Rattle.ground_core.specs.Meaning.{HasTermsInRange};
ghost use Rattle.stage_definitions.specs.FileBases.{base_of_file, named_term, theory_at};
ghost use Rattle.stage_definitions.specs.SizesStage.{weight_limit};
ghost use Rattle.open_sizes.specs.OpenWeights.{base_weight};
ghost use Rattle.type_derivation.specs.TypedViews.{named_term_view, typed_view};
ghost use Rattle.term_values.specs.GroundBases.{GroundBase};
ghost use Rattle.term_values.specs.KnownBases.{AreDataOf, IsGroundBase, base_of_data};
ghost use Rattle.def_ground.specs.AskedTerms.{with_all_asked};
ghost use Rattle.def_ground.specs.Definitions.{define_all};
ghost use Rattle.def_ground.specs.Groundings.{IsGroundTheory, IsGroundingOf, HasNoBounds, TermsAreBounded};
ghost use Rattle.def_ground.specs.Groundings.{theory_problem};
ghost use Rattle.def_ground.specs.Problems.{problem_of as problem_of_sentences, start_problem};
ghost use Rattle.term_walk.specs.Askable.{IsAskable};
ghost use Rattle.ground_walk.specs.Groundable.{HasVars, IsGroundable};
ghost use Rattle.definition_walk.specs.Steps.{CanBeGround};
ghost use Rattle.narrowed_bases.specs.Narrowings.{IsNarrowing, grounded_base, zero_term};
ghost use Rattle.grounder.specs.Weighing.{IsRefused};

use crate::errors::GroundError;
use definition_walk::push_definitions;
use ground_core::{GroundTerm, Memory, PartList, Problem};
use ground_walk::problem_of;
use kb_logic::{AggKind, Name, Term, Theory, Vocabulary};
use narrowed_bases::Narrowing;
use narrowed_bases::theories::{theory_of, weight_at};
use partial_structures::Partial;
use std::alloc::Global;
use term_values::GroundData;
use term_walk::push_term;
use type_derivation::{Named, TypedKb};

/// The greatest weight of a knowledge base that is made into a ground problem.
const WEIGHT_LIMIT: u64 = 64_000_000;

/// Names the terms that may be asked for.
fn push_terms(
    alloc: Global,
    base: &GroundData<'_>,
    terms: &[Named<Term>],
    problem: &mut Problem,
) -> Result<(), Memory>
    requires given { IsGroundBase base.now }
    requires room { HasVars base.now problem.old }
    requires fits { AllByRecursion (λ t. IsAskable base.now t.term) (map named_term (map named_term_view terms.now)) }
    ensures { OnOk result (problem.new
        ≡ with_all_asked base.now (map named_term (map named_term_view terms.now)) problem.old) }
{
    for term in terms {
        push_term(alloc, base, &term.name, &term.value, problem)?;
    }
    Ok(())
}

/// The problem of a theory over the data, with the terms that may be asked for.
fn problem(
    alloc: Global,
    vocabulary: &Vocabulary,
    known: &Partial,
    theory: &Theory,
    terms: &[Named<Term>],
) -> Result<Problem, Memory>
    requires known { AreDataOf vocabulary.now known.now }
    requires few { length vocabulary.now.symbols ≤ 2 ^ 32 }
    requires fits { AllByRecursion (λ f. IsGroundable (base_of_data vocabulary.now known.now) f [])
        (theory_view theory.now).sentences }
    requires rules { AllByRecursion
        (λ d. AllByRecursion (CanBeGround (base_of_data vocabulary.now known.now)) d.rules)
        (theory_view theory.now).definitions }
    requires asked { AllByRecursion (λ t. IsAskable (base_of_data vocabulary.now known.now) t.term)
        (map named_term (map named_term_view terms.now)) }
    ensures { IfOk result (λ p. p ≡ with_all_asked (base_of_data vocabulary.now known.now)
        (map named_term (map named_term_view terms.now))
        (define_all (base_of_data vocabulary.now known.now) (theory_view theory.now).definitions
        (problem_of_sentences (base_of_data vocabulary.now known.now) (theory_view theory.now).sentences))) }
{
    let base = GroundData::new(alloc, vocabulary, known)?;
    let mut made = problem_of(alloc, &base, theory.sentences.as_slice())?;
    push_definitions(alloc, &base, theory.definitions.as_slice(), &mut made)?;
    push_terms(alloc, &base, terms, &mut made)?;
    Ok(made)
}

/// The term of this name whose value is 0.
fn zero(alloc: Global, name: &Name) -> Result<GroundTerm, Memory>
    ensures { IfOk result (λ t. t ≡ record { name = name.now; kind = kind.Sum; base = pos 0; parts = [] }) }
{
    Ok(GroundTerm {
        name: name.copy(alloc)?,
        kind: AggKind::Sum,
        base: 0,
        parts: PartList::new(alloc),
    })
}

/// Names a 0 for each term that may be asked for.
fn push_zeros(alloc: Global, terms: &[Named<Term>], problem: &mut Problem) -> Result<(), Memory>
    ensures { OnOk result ((b : GroundBase) → problem.new
        ≡ with_all_asked b (map zero_term (map named_term (map named_term_view terms.now))) problem.old) }
{
    for term in terms {
        problem.add_term(zero(alloc, &term.name)?)?;
    }
    Ok(())
}

/// The problem over the data that says `false`, with a term that is 0 for each that may be asked for.
fn refuted(
    alloc: Global,
    vocabulary: &Vocabulary,
    known: &Partial,
    terms: &[Named<Term>],
) -> Result<Problem, Memory>
    requires known { AreDataOf vocabulary.now known.now }
    requires few { length vocabulary.now.symbols ≤ 2 ^ 32 }
    ensures { IfOk result (λ p. p ≡ with_all_asked (base_of_data vocabulary.now known.now)
        (map zero_term (map named_term (map named_term_view terms.now)))
        (with_clause (start_problem (base_of_data vocabulary.now known.now)) [])) }
{
    let base = GroundData::new(alloc, vocabulary, known)?;
    let mut made = problem_of(alloc, &base, &[])?;
    made.add_clause_of(&[])?;
    push_zeros(alloc, terms, &mut made)?;
    Ok(made)
}

/// The problem of the theory with this number over these data.
fn problem_over(
    alloc: Global,
    kb: &TypedKb,
    theory: usize,
    known: &Partial,
) -> Result<Problem, Memory>
    requires theory { theory < length kb.now.theories }
    requires few { length kb.now.vocab.symbols ≤ 2 ^ 32 }
    requires typed { IsGroundTheory (base_of_file (typed_view kb.now) theory known.now) }
    requires bounded { TheoryIsBounded kb.now.vocab known.now.domains (theory_at (typed_view kb.now) theory) }
    requires asked { TermsAreBounded (base_of_file (typed_view kb.now) theory known.now) }
    ensures { IfOk result (λ p. p ≡ theory_problem (base_of_file (typed_view kb.now) theory known.now)) }
{
    let terms = kb.terms.as_slice();
    problem(alloc, &kb.vocab, known, theory_of(kb, theory), terms)
}

/// The problem over what the data are narrowed to.
fn narrowed_problem(
    alloc: Global,
    kb: &TypedKb,
    theory: usize,
    known: &Partial,
    narrowing: &Narrowing,
) -> Result<Problem, Memory>
    requires theory { theory < length kb.now.theories }
    requires few { length kb.now.vocab.symbols ≤ 2 ^ 32 }
    requires typed { IsGroundTheory (base_of_file (typed_view kb.now) theory known.now) }
    requires bounded { TheoryIsBounded kb.now.vocab known.now.domains (theory_at (typed_view kb.now) theory) }
    requires asked { TermsAreBounded (base_of_file (typed_view kb.now) theory known.now) }
    requires narrowing { IsNarrowing (base_of_file (typed_view kb.now) theory known.now) narrowing.now }
    ensures { IfOk result (λ p. p
        ≡ theory_problem (grounded_base (base_of_file (typed_view kb.now) theory known.now) narrowing.now)) }
{
    match narrowing {
        Narrowing::Plain => problem_over(alloc, kb, theory, known),
        Narrowing::Narrowed(more) => problem_over(alloc, kb, theory, more),
        Narrowing::Contradiction => refuted(alloc, &kb.vocab, known, kb.terms.as_slice()),
    }
}

/// Whether the weight is above the limit; of a knowledge base whose data were not narrowed it is not.
fn is_too_heavy(kb: &TypedKb, theory: usize, known: &Partial, narrowing: &Narrowing) -> bool
    requires theory { theory < length kb.now.theories }
    requires narrowing { IsNarrowing (base_of_file (typed_view kb.now) theory known.now) narrowing.now }
    ensures { IsTrue result ↔ weight_limit < base_weight (base_of_file (typed_view kb.now) theory known.now) }
{
    match narrowing {
        Narrowing::Plain => false,
        Narrowing::Narrowed(_) | Narrowing::Contradiction => {
            weight_at(kb, theory, known) > WEIGHT_LIMIT
        }
    }
}

/// The ground problem of the theory with this number over what its data are narrowed to, with a term for each term of
/// the file. It stands for the models that extend the data themselves.
///
/// The theory and the terms are well typed over the domains of the data, and their aggregates stand where they may. The
/// bounds of all terms lie from -10^15 to 10^15.
pub fn ground(
    alloc: Global,
    kb: &TypedKb,
    theory: usize,
    known: &Partial,
    narrowing: &Narrowing,
) -> Result<Problem, GroundError>
    requires theory { theory < length kb.now.theories }
    requires few { length kb.now.vocab.symbols ≤ 2 ^ 32 }
    requires typed { IsGroundTheory (base_of_file (typed_view kb.now) theory known.now) }
    requires bounded { TheoryIsBounded kb.now.vocab known.now.domains (theory_at (typed_view kb.now) theory) }
    requires asked { TermsAreBounded (base_of_file (typed_view kb.now) theory known.now) }
    requires narrowing { IsNarrowing (base_of_file (typed_view kb.now) theory known.now) narrowing.now }
    ensures value { IfOk result (λ p. p
        ≡ theory_problem (grounded_base (base_of_file (typed_view kb.now) theory known.now) narrowing.now)) }
    ensures right { IfOk result (λ p. IsGroundingOf (base_of_file (typed_view kb.now) theory known.now) p) }
    ensures bounds { IfOk result (λ p. HasNoBounds p) }
    ensures range { IfOk result (λ p. HasTermsInRange p) }
    ensures small { IfOk result (λ p. p.vars ≤ base_weight (base_of_file (typed_view kb.now) theory known.now)) }
    ensures light { IfOk result (λ p. base_weight (base_of_file (typed_view kb.now) theory known.now) ≤ weight_limit) }
    ensures err { IfErr result (λ e. IsRefused (base_of_file (typed_view kb.now) theory known.now) e) }
{
    if is_too_heavy(kb, theory, known, narrowing) {
        return Err(GroundError::TooLarge);
    }
    match narrowed_problem(alloc, kb, theory, known, narrowing) {
        Ok(made) => Ok(made),
        Err(_) => Err(GroundError::Memory),
    }
}
