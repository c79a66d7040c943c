//! The static bounds of each term of a formula or a term, and which of them are too wide.
//!
//! A term is noted before its parts, since the places of terms are kept in this order; what is noted of it is known
//! only after them, so its place in the list is taken first and set then.
ghost use Rattle.std.specs.Prelude.{◌≡◌, ◌++◌, ◌||◌, not, pos, [], ◌∷◌, map, fold, slice_get, IfOk, OnOk};
ghost use Rattle.kb_logic.specs.Bounds.{exactly, front_bounds};
ghost use Rattle.kb_logic.specs.Trees.{formulas_of, summands_of, terms_of};
ghost use Rattle.kb_logic.specs.Views.{formula_view, signed_view, term_view};
ghost use Rattle.stage_definitions.specs.ClampedBounds.{
  clamped_bounds,
  clamped_factors,
  clamped_summands,
  clamping_product,
  clamping_sum,
};
ghost use Rattle.stage_definitions.specs.Sizes.{
  bounds_at,
  formula_bounds,
  formulas_bounds,
  is_small,
  summands_bounds,
  term_bounds,
  terms_bounds,
};
ghost use Rattle.kb_logic.specs.Bounds.{types_of};
ghost use Rattle.size_stage.specs.Ranges.{is_wide, part_bounds, range_view, ranges_in, wide_at};

use crate::counts::{assignments, value_type};
use crate::domain_integers::{range_if, type_range};
use crate::ranges::Range;
use crate::scopes::enter;
use crate::setting::Setting;
use kb_logic::{Bound, Formula, Memory, Signed, Term};

/// The bounds of a term, and whether these or those of a prefix of it are too wide.
#[derive(Clone, Copy)]
pub struct TermRange {
    pub range: Range,
    pub wide: bool,
}

/// The bounds of a term that is no chain.
fn single(range: Range) -> TermRange
    ensures range { range_view result.range ≡ range_view range }
    ensures wide { result.wide ≡ is_wide (range_view range ∷ []) }
{
    TermRange {
        range,
        wide: !range.is_small(),
    }
}

/// The type of a variable.
fn type_in(scope: &[u32], n: u32) -> Option<u32>
    ensures { result ≡ slice_get scope.now n }
{
    match scope.get(n as usize) {
        Some(ty) => Some(*ty),
        None => None,
    }
}

fn or_wide(wide: bool, range: Range) -> bool
    ensures { result ≡ (wide || not (is_small (range_view range))) }
{
    wide || !range.is_small()
}

/// Notes a term and its parts, and returns the term's bounds.
#[cycle(bounds)]
pub fn term(
    setting: Setting<'_>,
    scope: &mut Vec<u32>,
    wide: &mut Vec<bool>,
    of: &Term,
) -> Result<Range, Memory>
    requires known { map range_view setting.ranges.now ≡ ranges_in setting.domains.now }
    ensures range { IfOk result (λ r. range_view r ≡ clamped_bounds setting.entry.vocab.now setting.entry.domains.now
        (term_view of.now) scope.old.items) }
    ensures scope { OnOk result (scope.new.items ≡ scope.old.items) }
    ensures wide { OnOk result (wide.new.items ≡ wide.old.items ++ wide_at
        (term_bounds setting.entry.vocab.now setting.entry.domains.now (term_view of.now) scope.old.items)) }
{
    let at = wide.len();
    wide.push(false)?;
    let found = node(setting, scope, wide, of)?;
    wide[at] = found.wide;
    Ok(found.range)
}

/// Notes the parts of a term.
#[cycle(bounds)]
fn node(
    setting: Setting<'_>,
    scope: &mut Vec<u32>,
    wide: &mut Vec<bool>,
    of: &Term,
) -> Result<TermRange, Memory>
    requires known { map range_view setting.ranges.now ≡ ranges_in setting.domains.now }
    ensures range { IfOk result (λ r. range_view r.range ≡ clamped_bounds setting.entry.vocab.now
        setting.entry.domains.now (term_view of.now) scope.old.items) }
    ensures own { IfOk result (λ r. r.wide ≡ is_wide
        (bounds_at setting.entry.vocab.now setting.entry.domains.now (term_view of.now) scope.old.items)) }
    ensures scope { OnOk result (scope.new.items ≡ scope.old.items) }
    ensures wide { OnOk result (wide.new.items ≡ wide.old.items ++ wide_at
        (part_bounds setting.entry.vocab.now setting.entry.domains.now (term_view of.now) scope.old.items)) }
{
    match of {
        Term::Var(n) => Ok(single(range_if(setting.domains, setting.ranges, type_in(scope, *n)))),
        Term::Int(n) => Ok(single(Range::exactly(*n))),
        Term::Made(ty, _) => Ok(single(type_range(setting.domains, setting.ranges, *ty))),
        Term::Apply(symbol, args) => {
            terms(setting, scope, wide, args)?;
            Ok(single(range_if(
                setting.domains,
                setting.ranges,
                value_type(setting.vocab, *symbol),
            )))
        }
        Term::Sum(parts) => sum(setting, scope, wide, parts),
        Term::Product(factors) => product(setting, scope, wide, factors),
        Term::Agg(kind, bounds, condition, weight) => {
            let outer = scope.len();
            enter(scope, bounds)?;
            formula(setting, scope, wide, condition)?;
            let range = term(setting, scope, wide, weight)?;
            scope.truncate(outer);
            Ok(single(range.aggregated(*kind, assignments(setting.domains, bounds))))
        }
    }
}

#[cycle(bounds)]
fn sum(
    setting: Setting<'_>,
    scope: &mut Vec<u32>,
    wide: &mut Vec<bool>,
    parts: &[Signed],
) -> Result<TermRange, Memory>
    requires known { map range_view setting.ranges.now ≡ ranges_in setting.domains.now }
    ensures range { IfOk result (λ r. range_view r.range
        ≡ fold clamping_sum (exactly (pos 0)) (clamped_summands setting.entry.vocab.now
        setting.entry.domains.now (summands_of (map signed_view parts.now)) scope.old.items)) }
    ensures own { IfOk result (λ r. r.wide ≡ is_wide
        (front_bounds clamping_sum (exactly (pos 0)) (clamped_summands setting.entry.vocab.now
        setting.entry.domains.now (summands_of (map signed_view parts.now)) scope.old.items))) }
    ensures scope { OnOk result (scope.new.items ≡ scope.old.items) }
    ensures wide { OnOk result (wide.new.items ≡ wide.old.items ++ wide_at
        (summands_bounds setting.entry.vocab.now setting.entry.domains.now (summands_of
        (map signed_view parts.now)) scope.old.items)) }
{
    let mut range = Range::exactly(0);
    let mut any = false;
    for part in parts {
        let next = term(setting, scope, wide, &part.term)?;
        range = range.plus(next.signed(part.minus));
        any = or_wide(any, range);
    }
    Ok(TermRange { range, wide: any })
}

#[cycle(bounds)]
fn product(
    setting: Setting<'_>,
    scope: &mut Vec<u32>,
    wide: &mut Vec<bool>,
    factors: &[Term],
) -> Result<TermRange, Memory>
    requires known { map range_view setting.ranges.now ≡ ranges_in setting.domains.now }
    ensures range { IfOk result (λ r. range_view r.range
        ≡ fold clamping_product (exactly (pos 1)) (clamped_factors setting.entry.vocab.now
        setting.entry.domains.now (terms_of (map term_view factors.now)) scope.old.items)) }
    ensures own { IfOk result (λ r. r.wide ≡ is_wide (front_bounds clamping_product (exactly (pos 1)) (clamped_factors
        setting.entry.vocab.now setting.entry.domains.now (terms_of (map term_view factors.now)) scope.old.items))) }
    ensures scope { OnOk result (scope.new.items ≡ scope.old.items) }
    ensures wide { OnOk result (wide.new.items ≡ wide.old.items ++ wide_at
        (terms_bounds setting.entry.vocab.now setting.entry.domains.now (terms_of (map
        term_view factors.now)) scope.old.items)) }
{
    let mut range = Range::exactly(1);
    let mut any = false;
    for factor in factors {
        let next = term(setting, scope, wide, factor)?;
        range = range.times(next);
        any = or_wide(any, range);
    }
    Ok(TermRange { range, wide: any })
}

/// Notes some terms and their parts.
#[cycle(bounds)]
pub fn terms(
    setting: Setting<'_>,
    scope: &mut Vec<u32>,
    wide: &mut Vec<bool>,
    all: &[Term],
) -> Result<(), Memory>
    requires known { map range_view setting.ranges.now ≡ ranges_in setting.domains.now }
    ensures scope { OnOk result (scope.new.items ≡ scope.old.items) }
    ensures wide { OnOk result (wide.new.items ≡ wide.old.items ++ wide_at
        (terms_bounds setting.entry.vocab.now setting.entry.domains.now (terms_of (map
        term_view all.now)) scope.old.items)) }
{
    for one in all {
        term(setting, scope, wide, one)?;
    }
    Ok(())
}

/// Notes the terms of a formula.
#[cycle(bounds)]
pub fn formula(
    setting: Setting<'_>,
    scope: &mut Vec<u32>,
    wide: &mut Vec<bool>,
    of: &Formula,
) -> Result<(), Memory>
    requires known { map range_view setting.ranges.now ≡ ranges_in setting.domains.now }
    ensures scope { OnOk result (scope.new.items ≡ scope.old.items) }
    ensures wide { OnOk result (wide.new.items ≡ wide.old.items ++ wide_at
        (formula_bounds setting.entry.vocab.now setting.entry.domains.now (formula_view
        of.now) scope.old.items)) }
{
    match of {
        Formula::True => Ok(()),
        Formula::False => Ok(()),
        Formula::Atom(_, args) => terms(setting, scope, wide, args),
        Formula::Compare(_, left, right) => {
            term(setting, scope, wide, left)?;
            term(setting, scope, wide, right)?;
            Ok(())
        }
        Formula::Not(inner) => formula(setting, scope, wide, inner),
        Formula::And(parts) => formulas(setting, scope, wide, parts),
        Formula::Or(parts) => formulas(setting, scope, wide, parts),
        Formula::Implies(left, right) => {
            formula(setting, scope, wide, left)?;
            formula(setting, scope, wide, right)
        }
        Formula::Iff(left, right) => {
            formula(setting, scope, wide, left)?;
            formula(setting, scope, wide, right)
        }
        Formula::All(bounds, inner) => under(setting, scope, wide, bounds, inner),
        Formula::Any(bounds, inner) => under(setting, scope, wide, bounds, inner),
        Formula::Number(_, _, bounds, inner) => under(setting, scope, wide, bounds, inner),
    }
}

/// Notes the terms of a formula that stands under a binder.
#[cycle(bounds)]
fn under(
    setting: Setting<'_>,
    scope: &mut Vec<u32>,
    wide: &mut Vec<bool>,
    bounds: &[Bound],
    of: &Formula,
) -> Result<(), Memory>
    requires known { map range_view setting.ranges.now ≡ ranges_in setting.domains.now }
    ensures scope { OnOk result (scope.new.items ≡ scope.old.items) }
    ensures wide { OnOk result (wide.new.items ≡ wide.old.items ++ wide_at
        (formula_bounds setting.entry.vocab.now setting.entry.domains.now (formula_view
        of.now) (scope.old.items ++ types_of bounds.now))) }
{
    let outer = scope.len();
    enter(scope, bounds)?;
    formula(setting, scope, wide, of)?;
    scope.truncate(outer);
    Ok(())
}

#[cycle(bounds)]
fn formulas(
    setting: Setting<'_>,
    scope: &mut Vec<u32>,
    wide: &mut Vec<bool>,
    all: &[Formula],
) -> Result<(), Memory>
    requires known { map range_view setting.ranges.now ≡ ranges_in setting.domains.now }
    ensures scope { OnOk result (scope.new.items ≡ scope.old.items) }
    ensures wide { OnOk result (wide.new.items ≡ wide.old.items ++ wide_at
        (formulas_bounds setting.entry.vocab.now setting.entry.domains.now (formulas_of
        (map formula_view all.now)) scope.old.items)) }
{
    for one in all {
        formula(setting, scope, wide, one)?;
    }
    Ok(())
}
