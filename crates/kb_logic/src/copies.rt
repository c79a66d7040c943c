//! Copies of terms, formulas and theories. A copy has the same tree as its source.
ghost use Rattle.std.specs.Prelude.{◌≡◌, IfOk, map};
ghost use Rattle.std.specs.Option.{option_map};
ghost use Rattle.kb_logic.specs.Views.{formula_view, term_view, signed_view, rule_view, definition_view, theory_view};

use crate::lists::ListOf;
use crate::syntax::{
    Definition, DefinitionList, Formula, FormulaList, Rule, RuleList, Signed, Term, TermList,
    Theory,
};
use crate::vocabularies::Bound;
use std::alloc::{AllocError as Memory, Global};

impl Formula {
    pub fn copy(&self, alloc: Global) -> Result<Formula, Memory>
        ensures { IfOk result (λ f. formula_view f ≡ formula_view self.now) }
    {
        copy_formula(alloc, self)
    }
}

impl Term {
    pub fn copy(&self, alloc: Global) -> Result<Term, Memory>
        ensures { IfOk result (λ t. term_view t ≡ term_view self.now) }
    {
        copy_term(alloc, self)
    }
}

impl Signed {
    pub fn copy(&self, alloc: Global) -> Result<Signed, Memory>
        ensures { IfOk result (λ s. signed_view s ≡ signed_view self.now) }
    {
        copy_signed(alloc, self)
    }
}

impl ListOf<Term> {
    pub fn copy(&self, alloc: Global) -> Result<TermList, Memory>
        ensures { IfOk result (λ l. map term_view l ≡ map term_view self.now) }
    {
        Ok(ListOf::from_vec(copy_terms(alloc, self.as_slice())?))
    }
}

impl ListOf<Formula> {
    pub fn copy(&self, alloc: Global) -> Result<FormulaList, Memory>
        ensures { IfOk result (λ l. map formula_view l ≡ map formula_view self.now) }
    {
        Ok(ListOf::from_vec(copy_formulas(alloc, self.as_slice())?))
    }
}

impl Rule {
    pub fn copy(&self, alloc: Global) -> Result<Rule, Memory>
        ensures { IfOk result (λ r. rule_view r ≡ rule_view self.now) }
    {
        Ok(Rule {
            vars: self.vars.copy(alloc)?,
            symbol: self.symbol,
            args: self.args.copy(alloc)?,
            value: copy_value(alloc, &self.value)?,
            has_body: self.has_body,
            body: self.body.copy(alloc)?,
        })
    }
}

impl ListOf<Rule> {
    pub fn copy(&self, alloc: Global) -> Result<RuleList, Memory>
        ensures { IfOk result (λ l. map rule_view l ≡ map rule_view self.now) }
    {
        let mut copies = Vec::with_capacity(alloc, self.len())?;
        for rule in self.as_slice() {
            copies.push(rule.copy(alloc)?)?;
        }
        Ok(ListOf::from_vec(copies))
    }
}

impl Definition {
    pub fn copy(&self, alloc: Global) -> Result<Definition, Memory>
        ensures { IfOk result (λ d. definition_view d ≡ definition_view self.now) }
    {
        Ok(Definition {
            rules: self.rules.copy(alloc)?,
        })
    }
}

impl ListOf<Definition> {
    pub fn copy(&self, alloc: Global) -> Result<DefinitionList, Memory>
        ensures { IfOk result (λ l. map definition_view l ≡ map definition_view self.now) }
    {
        let mut copies = Vec::with_capacity(alloc, self.len())?;
        for definition in self.as_slice() {
            copies.push(definition.copy(alloc)?)?;
        }
        Ok(ListOf::from_vec(copies))
    }
}

impl Theory {
    pub fn copy(&self, alloc: Global) -> Result<Theory, Memory>
        ensures { IfOk result (λ t. theory_view t ≡ theory_view self.now) }
    {
        Ok(Theory {
            sentences: self.sentences.copy(alloc)?,
            definitions: self.definitions.copy(alloc)?,
        })
    }
}

fn copy_value(alloc: Global, value: &Option<Term>) -> Result<Option<Term>, Memory>
    ensures { IfOk result (λ v. option_map term_view v ≡ option_map term_view value.now) }
{
    match value {
        Some(term) => Ok(Some(term.copy(alloc)?)),
        None => Ok(None),
    }
}

/// The bounds of a quantifier, copied.
pub fn copy_bounds(alloc: Global, bounds: &[Bound]) -> Result<Vec<Bound>, Memory>
    ensures { IfOk result (λ v. v.items ≡ bounds.now) }
{
    let mut copies = Vec::with_capacity(alloc, bounds.len())?;
    for bound in bounds {
        copies.push(bound.copy(alloc)?)?;
    }
    Ok(copies)
}

#[cycle(copies)]
fn copy_signed(alloc: Global, signed: &Signed) -> Result<Signed, Memory>
    ensures { IfOk result (λ s. signed_view s ≡ signed_view signed.now) }
{
    Ok(Signed {
        minus: signed.minus,
        term: copy_term(alloc, &signed.term)?,
    })
}

#[cycle(copies)]
fn copy_formula(alloc: Global, formula: &Formula) -> Result<Formula, Memory>
    ensures { IfOk result (λ f. formula_view f ≡ formula_view formula.now) }
{
    match formula {
        Formula::True => Ok(Formula::True),
        Formula::False => Ok(Formula::False),
        Formula::Atom(symbol, terms) => Ok(Formula::Atom(*symbol, copy_terms(alloc, terms)?)),
        Formula::Compare(cmp, left, right) => Ok(Formula::Compare(
            *cmp,
            copy_term(alloc, left)?,
            copy_term(alloc, right)?,
        )),
        Formula::Not(inner) => Ok(Formula::Not(copy_boxed(alloc, inner)?)),
        Formula::And(parts) => Ok(Formula::And(copy_formulas(alloc, parts)?)),
        Formula::Or(parts) => Ok(Formula::Or(copy_formulas(alloc, parts)?)),
        Formula::Implies(left, right) => {
            let left = copy_boxed(alloc, left)?;
            Ok(Formula::Implies(left, copy_boxed(alloc, right)?))
        }
        Formula::Iff(left, right) => {
            let left = copy_boxed(alloc, left)?;
            Ok(Formula::Iff(left, copy_boxed(alloc, right)?))
        }
        Formula::Any(bounds, inner) => {
            let (bounds, inner) = copy_quantified(alloc, bounds, inner)?;
            Ok(Formula::Any(bounds, inner))
        }
        Formula::All(bounds, inner) => {
            let (bounds, inner) = copy_quantified(alloc, bounds, inner)?;
            Ok(Formula::All(bounds, inner))
        }
        Formula::Number(cmp, n, bounds, inner) => {
            let (bounds, inner) = copy_quantified(alloc, bounds, inner)?;
            Ok(Formula::Number(*cmp, *n, bounds, inner))
        }
    }
}

// A function of its own, since a box that is made beside others costs the check the drop of each of them.
#[cycle(copies)]
fn copy_boxed(alloc: Global, formula: &Formula) -> Result<Box<Formula>, Memory>
    ensures { IfOk result (λ f. formula_view f.value ≡ formula_view formula.now) }
{
    let copy = copy_formula(alloc, formula)?;
    Ok(Box::new(alloc, copy)?)
}

/// The variables of a quantifier or of an aggregate, and the formula that they are bound in.
#[cycle(copies)]
fn copy_quantified(
    alloc: Global,
    bounds: &[Bound],
    inner: &Formula,
) -> Result<(Vec<Bound>, Box<Formula>), Memory>
    ensures bounds { IfOk result (λ q. q.0.items ≡ bounds.now) }
    ensures tree { IfOk result (λ q. formula_view q.1.value ≡ formula_view inner.now) }
{
    let inner = copy_boxed(alloc, inner)?;
    Ok((copy_bounds(alloc, bounds)?, inner))
}

#[cycle(copies)]
fn copy_formulas(alloc: Global, formulas: &[Formula]) -> Result<Vec<Formula>, Memory>
    ensures { IfOk result (λ v. map formula_view v.items ≡ map formula_view formulas.now) }
{
    let mut copies = Vec::with_capacity(alloc, formulas.len())?;
    for formula in formulas {
        copies.push(copy_formula(alloc, formula)?)?;
    }
    Ok(copies)
}

#[cycle(copies)]
fn copy_term(alloc: Global, term: &Term) -> Result<Term, Memory>
    ensures { IfOk result (λ t. term_view t ≡ term_view term.now) }
{
    match term {
        Term::Var(n) => Ok(Term::Var(*n)),
        Term::Int(n) => Ok(Term::Int(*n)),
        Term::Made(ty, n) => Ok(Term::Made(*ty, *n)),
        Term::Product(factors) => Ok(Term::Product(copy_terms(alloc, factors)?)),
        Term::Apply(symbol, terms) => Ok(Term::Apply(*symbol, copy_terms(alloc, terms)?)),
        Term::Sum(parts) => Ok(Term::Sum(copy_summands(alloc, parts)?)),
        Term::Agg(kind, bounds, formula, inner) => {
            let (bounds, formula) = copy_quantified(alloc, bounds, formula)?;
            let inner = copy_term(alloc, inner)?;
            Ok(Term::Agg(*kind, bounds, formula, Box::new(alloc, inner)?))
        }
    }
}

#[cycle(copies)]
fn copy_terms(alloc: Global, terms: &[Term]) -> Result<Vec<Term>, Memory>
    ensures { IfOk result (λ v. map term_view v.items ≡ map term_view terms.now) }
{
    let mut copies = Vec::with_capacity(alloc, terms.len())?;
    for term in terms {
        copies.push(copy_term(alloc, term)?)?;
    }
    Ok(copies)
}

#[cycle(copies)]
fn copy_summands(alloc: Global, parts: &[Signed]) -> Result<Vec<Signed>, Memory>
    ensures { IfOk result (λ v. map signed_view v.items ≡ map signed_view parts.now) }
{
    let mut copies = Vec::with_capacity(alloc, parts.len())?;
    for part in parts {
        copies.push(copy_signed(alloc, part)?)?;
    }
    Ok(copies)
}
