//! Trees with the types of their variables.
ghost use Rattle.std.specs.Prelude.{◌≡◌, ◌++◌, pos, map, IfOk, OnOk};
ghost use Rattle.kb_logic.specs.Trees as tree;
ghost use Rattle.kb_logic.specs.Views as view;
ghost use Rattle.stage_definitions.specs.NamedTrees as named_tree;
ghost use Rattle.stage_definitions.specs.TermPlaces.{each_begins, formulas_begin, summands_begin, term_begins};
ghost use Rattle.stage_definitions.specs.TermPlaces.{terms_begin};
ghost use Rattle.stage_definitions.specs.TypedTrees as typed;
ghost use Rattle.stage_definitions.specs.NamedViews.{formula_view, signed_view, term_view, var_view};
ghost use Rattle.type_derivation.specs.ListedTrees as listed;
ghost use Rattle.type_derivation.specs.TreeLists.{IsBuilt};

use crate::remaining::Remaining;
use kb_logic::{Bound, Formula, Memory, Signed, Term};
use sqlite_items::Items;
use stage_definitions::{NamedFormula, NamedNode, NamedSigned, NamedTerm, NamedVar};
use std::alloc::Global;

/// An integer of the language, which has 64 bits with its sign.
fn integer(value: u64) -> i64
    ensures { result ≡ pos (typed.integer_of value) }
{
    if value < 9_223_372_036_854_775_808 {
        value as i64
    } else {
        0
    }
}

fn truth(value: bool) -> Formula
    ensures { view.formula_view result ≡ typed.truth_tree value }
{
    if value { Formula::True } else { Formula::False }
}

fn signed(minus: bool, term: Term) -> Signed
    ensures { view.signed_view result ≡ (minus, view.term_view term) }
{
    Signed { minus, term }
}

/// Variables with the types at the start of the list.
pub fn bound_vars(
    alloc: Global,
    types: &mut Remaining,
    vars: &[NamedVar],
) -> Result<Vec<Bound>, Memory>
    ensures bounds { IfOk result (λ bs. bs.items ≡ listed.listed_vars types.old (map var_view vars.now)) }
    ensures types { OnOk result (types.new ≡ listed.left_vars types.old (map var_view vars.now)) }
{
    let mut bounds = Vec::new(alloc);
    for var in vars {
        let ty = types.next();
        bounds.push(Bound {
            name: var.name.copy(alloc)?,
            ty,
        })?;
    }
    Ok(bounds)
}

/// A formula whose variables take their types from the start of the list. The places of its terms are added.
#[cycle(trees)]
pub fn formula(
    alloc: Global,
    types: &mut Remaining,
    named: &NamedFormula,
    places: &mut Vec<usize>,
) -> Result<Formula, Memory>
    ensures { IfOk result (λ f. IsBuilt (view.formula_view f) types.new places.new.items
        (listed.listed_formula types.old (formula_view named.now)) (listed.left_formula types.old
        (formula_view named.now)) (places.old.items ++ terms_begin (formula_view named.now))) }
{
    match named {
        NamedFormula::Truth(value) => Ok(truth(*value)),
        NamedFormula::Atom(symbol, args) => {
            Ok(Formula::Atom(*symbol, terms(alloc, types, args, places)?))
        }
        NamedFormula::Compare(cmp, left, right) => {
            let left = term(alloc, types, left, places)?;
            let right = term(alloc, types, right, places)?;
            Ok(Formula::Compare(*cmp, left, right))
        }
        NamedFormula::Not(inner) => Ok(Formula::Not(boxed(alloc, types, inner, places)?)),
        NamedFormula::And(operands) => Ok(Formula::And(formulas(alloc, types, operands, places)?)),
        NamedFormula::Or(operands) => Ok(Formula::Or(formulas(alloc, types, operands, places)?)),
        NamedFormula::Implies(left, right) => {
            let left = boxed(alloc, types, left, places)?;
            Ok(Formula::Implies(left, boxed(alloc, types, right, places)?))
        }
        NamedFormula::Iff(left, right) => {
            let left = boxed(alloc, types, left, places)?;
            Ok(Formula::Iff(left, boxed(alloc, types, right, places)?))
        }
        NamedFormula::All(vars, inner) => {
            let (bounds, inner) = quantified(alloc, types, vars, inner, places)?;
            Ok(Formula::All(bounds, inner))
        }
        NamedFormula::Any(vars, inner) => {
            let (bounds, inner) = quantified(alloc, types, vars, inner, places)?;
            Ok(Formula::Any(bounds, inner))
        }
        NamedFormula::Number(cmp, count, vars, inner) => {
            let (bounds, inner) = quantified(alloc, types, vars, inner, places)?;
            Ok(Formula::Number(*cmp, integer(*count), bounds, inner))
        }
    }
}

// A function of its own, since a box that is made beside other values costs the check the drop of each of them.
#[cycle(trees)]
fn boxed(
    alloc: Global,
    types: &mut Remaining,
    named: &NamedFormula,
    places: &mut Vec<usize>,
) -> Result<Box<Formula>, Memory>
    ensures { IfOk result (λ f. IsBuilt (view.formula_view f.value) types.new places.new.items
        (listed.listed_formula types.old (formula_view named.now)) (listed.left_formula types.old
        (formula_view named.now)) (places.old.items ++ terms_begin (formula_view named.now))) }
{
    let formula = formula(alloc, types, named, places)?;
    Ok(Box::new(alloc, formula)?)
}

/// The variables of a quantifier or of an aggregate, and the formula that they are bound in.
#[cycle(trees)]
fn quantified(
    alloc: Global,
    types: &mut Remaining,
    vars: &Items<NamedVar>,
    inner: &NamedFormula,
    places: &mut Vec<usize>,
) -> Result<(Vec<Bound>, Box<Formula>), Memory>
    ensures bounds { IfOk result (λ q. q.0.items ≡ listed.listed_vars types.old (map var_view vars.now)) }
    ensures inner { IfOk result (λ q. IsBuilt (view.formula_view q.1.value) types.new places.new.items
        (listed.listed_formula (listed.left_vars types.old (map var_view vars.now)) (formula_view inner.now))
        (listed.left_formula (listed.left_vars types.old (map var_view vars.now)) (formula_view inner.now))
        (places.old.items ++ terms_begin (formula_view inner.now))) }
{
    let bounds = bound_vars(alloc, types, vars.as_slice())?;
    Ok((bounds, boxed(alloc, types, inner, places)?))
}

#[cycle(trees)]
fn formulas(
    alloc: Global,
    types: &mut Remaining,
    named: &[NamedFormula],
    places: &mut Vec<usize>,
) -> Result<Vec<Formula>, Memory>
    ensures { IfOk result (λ fs. IsBuilt (tree.formulas_of (map view.formula_view fs.items)) types.new places.new.items
        (listed.listed_formulas types.old (named_tree.formulas_of (map formula_view named.now)))
        (listed.left_formulas types.old (named_tree.formulas_of (map formula_view named.now)))
        (places.old.items ++ formulas_begin (named_tree.formulas_of (map formula_view named.now)))) }
{
    let mut operands = Vec::new(alloc);
    for operand in named {
        operands.push(formula(alloc, types, operand, places)?)?;
    }
    Ok(operands)
}

/// A term whose variables take their types from the start of the list. Its places are added.
#[cycle(trees)]
pub fn term(
    alloc: Global,
    types: &mut Remaining,
    named: &NamedTerm,
    places: &mut Vec<usize>,
) -> Result<Term, Memory>
    ensures { IfOk result (λ t. IsBuilt (view.term_view t) types.new places.new.items
        (listed.listed_term types.old (term_view named.now)) (listed.left_term types.old (term_view named.now))
        (places.old.items ++ term_begins (term_view named.now))) }
{
    places.push(named.place)?;
    match &named.node {
        NamedNode::Var(n) => Ok(Term::Var(*n)),
        NamedNode::Int(value) => Ok(Term::Int(integer(*value))),
        NamedNode::Made(ty, position) => Ok(Term::Made(*ty, *position)),
        NamedNode::Apply(function, args) => {
            Ok(Term::Apply(*function, terms(alloc, types, args, places)?))
        }
        NamedNode::Sum(operands) => Ok(Term::Sum(summands(alloc, types, operands, places)?)),
        NamedNode::Product(operands) => {
            Ok(Term::Product(terms(alloc, types, operands, places)?))
        }
        NamedNode::Agg(how, vars, condition, weight) => {
            let (bounds, condition) = quantified(alloc, types, vars, condition, places)?;
            let weight = term(alloc, types, weight, places)?;
            Ok(Term::Agg(*how, bounds, condition, Box::new(alloc, weight)?))
        }
    }
}

/// Terms one after another, whose variables take their types from the start of the list. Their places are added.
#[cycle(trees)]
pub fn terms(
    alloc: Global,
    types: &mut Remaining,
    named: &[NamedTerm],
    places: &mut Vec<usize>,
) -> Result<Vec<Term>, Memory>
    ensures { IfOk result (λ ts. IsBuilt (tree.terms_of (map view.term_view ts.items)) types.new places.new.items
        (listed.listed_terms types.old (named_tree.terms_of (map term_view named.now)))
        (listed.left_terms types.old (named_tree.terms_of (map term_view named.now)))
        (places.old.items ++ each_begins (named_tree.terms_of (map term_view named.now)))) }
{
    let mut operands = Vec::new(alloc);
    for operand in named {
        operands.push(term(alloc, types, operand, places)?)?;
    }
    Ok(operands)
}

#[cycle(trees)]
fn summands(
    alloc: Global,
    types: &mut Remaining,
    named: &[NamedSigned],
    places: &mut Vec<usize>,
) -> Result<Vec<Signed>, Memory>
    ensures { IfOk result (λ ss. IsBuilt (tree.summands_of (map view.signed_view ss.items)) types.new places.new.items
        (listed.listed_summands types.old (named_tree.summands_of (map signed_view named.now)))
        (listed.left_summands types.old (named_tree.summands_of (map signed_view named.now)))
        (places.old.items ++ summands_begin (named_tree.summands_of (map signed_view named.now)))) }
{
    let mut operands = Vec::new(alloc);
    for operand in named {
        let term = term(alloc, types, &operand.term, places)?;
        operands.push(signed(operand.minus, term))?;
    }
    Ok(operands)
}
