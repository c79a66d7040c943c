//! Negation normal form.
ghost use Rattle.std.specs.Prelude.{◌≡◌, true, map, IfOk};
ghost use Rattle.kb_logic.specs.Trees.{formulas_of};
ghost use Rattle.kb_logic.specs.Views.{formula_view};
ghost use Rattle.normal_forms.specs.NormalForms.{normal_form, joined_by, quantified_by, constant, signed};

use kb_logic::{Bound, Formula, Memory, copy_bounds};
use std::alloc::Global;

/// The formula with negations only before atoms, comparisons and number quantifiers.
///
/// It has the same truth in every structure. An implication becomes a disjunction.
pub fn nnf(alloc: Global, formula: &Formula) -> Result<Formula, Memory>
    ensures { IfOk result (λ f. formula_view f ≡ normal_form true (formula_view formula.now)) }
{
    normal(alloc, formula, true)
}

fn constant_of(sign: bool) -> Formula
    ensures { formula_view result ≡ constant sign }
{
    if sign { Formula::True } else { Formula::False }
}

/// The formula, or its negation.
fn with_sign(alloc: Global, formula: Formula, sign: bool) -> Result<Formula, Memory>
    ensures { IfOk result (λ f. formula_view f ≡ signed sign (formula_view formula)) }
{
    if sign {
        Ok(formula)
    } else {
        Ok(Formula::Not(Box::new(alloc, formula)?))
    }
}

/// A conjunction or a disjunction.
fn join(parts: Vec<Formula>, all: bool) -> Formula
    ensures { formula_view result ≡ joined_by all (formulas_of (map formula_view parts.items)) }
{
    if all {
        Formula::And(parts)
    } else {
        Formula::Or(parts)
    }
}

/// All assignments, or some.
fn quantified(bounds: Vec<Bound>, body: Box<Formula>, all: bool) -> Formula
    ensures { formula_view result ≡ quantified_by all bounds.items (formula_view body.value) }
{
    if all {
        Formula::All(bounds, body)
    } else {
        Formula::Any(bounds, body)
    }
}

#[cycle(normal)]
fn normal(alloc: Global, formula: &Formula, sign: bool) -> Result<Formula, Memory>
    ensures { IfOk result (λ f. formula_view f ≡ normal_form sign (formula_view formula.now)) }
{
    match formula {
        Formula::True => Ok(constant_of(sign)),
        Formula::False => Ok(constant_of(!sign)),
        Formula::Atom(..) | Formula::Compare(..) => with_sign(alloc, formula.copy(alloc)?, sign),
        Formula::Not(inner) => normal(alloc, inner, !sign),
        Formula::And(parts) => Ok(join(normal_list(alloc, parts, sign)?, sign)),
        Formula::Or(parts) => Ok(join(normal_list(alloc, parts, sign)?, !sign)),
        Formula::Implies(left, right) => {
            let mut parts = Vec::with_capacity(alloc, 2)?;
            parts.push(normal(alloc, left, !sign)?)?;
            parts.push(normal(alloc, right, sign)?)?;
            Ok(join(parts, !sign))
        }
        Formula::Iff(left, right) => Ok(Formula::Iff(
            Box::new(alloc, normal(alloc, left, true)?)?,
            Box::new(alloc, normal(alloc, right, sign)?)?,
        )),
        Formula::All(bounds, inner) => Ok(quantified(
            copy_bounds(alloc, bounds)?,
            Box::new(alloc, normal(alloc, inner, sign)?)?,
            sign,
        )),
        Formula::Any(bounds, inner) => Ok(quantified(
            copy_bounds(alloc, bounds)?,
            Box::new(alloc, normal(alloc, inner, sign)?)?,
            !sign,
        )),
        Formula::Number(cmp, n, bounds, inner) => {
            let bounds = copy_bounds(alloc, bounds)?;
            let inner = Box::new(alloc, normal(alloc, inner, true)?)?;
            with_sign(alloc, Formula::Number(*cmp, *n, bounds, inner), sign)
        }
    }
}

#[cycle(normal)]
fn normal_list(alloc: Global, parts: &[Formula], sign: bool) -> Result<Vec<Formula>, Memory>
    ensures { IfOk result (λ v. map formula_view v.items ≡ map (normal_form sign) (map formula_view parts.now)) }
{
    let mut normals = Vec::with_capacity(alloc, parts.len())?;
    for part in parts {
        normals.push(normal(alloc, part, sign)?)?;
    }
    Ok(normals)
}
