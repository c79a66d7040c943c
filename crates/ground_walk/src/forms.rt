//! What formulas come to, and what the aggregates in terms do.
//!
//! An aggregate's instances are walked as those of a quantifier, and each of them adds the rows of its weight to a sum:
//! a number, and literals with weights. What is left of a side of a comparison are its rows.
ghost use Rattle.std.specs.Prelude.{◌≡◌, ◌++◌, [], pos, neg_ℤ, map, fold, true, false, IfOk, OnOk};
ghost use Rattle.std.specs.List.{AllByRecursion};
ghost use Rattle.kb_logic.specs.declared.syntax.AggKind.TheVariants as kind;
ghost use Rattle.kb_logic.specs.Trees.{formulas_of, terms_of, summands_of, numbered};
ghost use Rattle.kb_logic.specs.Views.{formula_view, term_view, signed_view};
ghost use Rattle.kb_logic.specs.Structures.{choices};
ghost use Rattle.plain_evaluation.specs.Environments.{env_view};
ghost use Rattle.ground_core.specs.Problems.{AreLitsOf, ArePartsOf};
ghost use Rattle.term_values.specs.KnownBases.{IsGroundBase};
ghost use Rattle.term_values.specs.RowArithmetic.{RowsFit};
ghost use Rattle.term_values.specs.Rows.{rows_of_term};
ghost use Rattle.def_ground.specs.Answers.{Makes, Grows, AnswerWithin};
ghost use Rattle.def_ground.specs.Forms.{form_of, parts_of, signed_result, close_parts, next_parts, no_more_parts};
ghost use Rattle.def_ground.specs.Forms.{same_of, no_parts_yet, sums_of, sums_of_summands, sums_of_factors};
ghost use Rattle.def_ground.specs.LinearViews.{linear_view, LinearGrows};
ghost use Rattle.def_ground.specs.SumSides.{compared_sums};
ghost use Rattle.def_ground.specs.Thresholds.{compared_with_rows as compared_by_rows};
ghost use Rattle.ground_walk.specs.Groundable.{HasVars, IsGroundable, AreGroundable, AreInstancesGroundable};
ghost use Rattle.ground_walk.specs.Groundable.{AreSummandsGroundable, AreFactorsGroundable};
ghost use Rattle.ground_walk.specs.Steps.{PartsGrow, MakesParts, open_parts, part_step};
ghost use Rattle.ground_walk.specs.Weighing.{weight_view, InstanceFits, weighed_step};

use crate::counting::{Sides, have_aggregates, sides_of, times_integers, with_sign};
use crate::leaves::{Compared, atom, compare_sides, comparison};
use crate::scopes::{Binder, Scope};
use crate::weights::{Weights, add_instance};
use def_ground::{Answer, Linear, add_part, close, compared_at, compared_with_rows, flipped, same};
use ground_core::{Memory, Problem};
use kb_logic::{AggKind, Cmp, Formula, Signed, Term};
use lit_core::Lit;
use plain_evaluation::environments::{extend, split_in};

/// What the formula comes to under the assignment.
#[cycle(form)]
pub fn form<'a>(
    scope: Scope<'a>,
    formula: &'a Formula,
    problem: &mut Problem,
) -> Result<Answer, Memory>
    requires given { IsGroundBase scope.base.now }
    requires room { HasVars scope.base.now problem.old }
    requires fits { IsGroundable scope.base.now (formula_view formula.now) (env_view scope.env.now) }
    ensures made { IfOk result
        (λ a. Makes (form_of scope.entry.base.now (formula_view formula.now) (env_view scope.entry.env.now) problem.old)
        a problem.new) }
    ensures grows { IfOk result (λ a. Grows problem.old problem.new a) }
{
    match formula {
        Formula::True => Ok(Answer::Constant(true)),
        Formula::False => Ok(Answer::Constant(false)),
        Formula::Atom(symbol, args) => atom(scope, *symbol, args, problem),
        Formula::Compare(cmp, left, right) => match sides_of(left, right) {
            Sides::Plain => {
                let cmp = *cmp;
                comparison(scope, Compared { cmp, left, right }, problem)
            }
            Sides::LeftExtreme(kind) => compare_extreme(scope, kind, *cmp, left, right, problem),
            Sides::RightExtreme(kind) => {
                let cmp = flipped(*cmp);
                compare_extreme(scope, kind, cmp, right, left, problem)
            }
            Sides::Sums => {
                let left_linear = aggregates_of(scope, left, problem)?;
                compare_sums(scope, *cmp, left_linear, right, left, problem)
            }
        },
        Formula::Not(inner) => signed_form(scope, false, inner, problem),
        Formula::And(formulas) => joined(scope, true, formulas, problem),
        Formula::Or(formulas) => joined(scope, false, formulas, problem),
        Formula::Implies(left, right) => {
            let first = signed_form(scope, false, left, problem)?;
            implied(scope, first, right, problem)
        }
        Formula::Iff(left, right) => {
            let first = form(scope, left, problem)?;
            alike(scope, first, right, problem)
        }
        Formula::All(bounds, formula) => {
            quantified(scope, true, Binder { bounds, formula }, problem)
        }
        Formula::Any(bounds, formula) => {
            quantified(scope, false, Binder { bounds, formula }, problem)
        }
        Formula::Number(cmp, number, bounds, formula) => {
            compare_count(scope, *cmp, *number, Binder { bounds, formula }, problem)
        }
    }
}

/// What the formula comes to, or its opposite where the sign is false.
#[cycle(form)]
pub(crate) fn signed_form<'a>(
    scope: Scope<'a>,
    sign: bool,
    formula: &'a Formula,
    problem: &mut Problem,
) -> Result<Answer, Memory>
    requires given { IsGroundBase scope.base.now }
    requires room { HasVars scope.base.now problem.old }
    requires fits { IsGroundable scope.base.now (formula_view formula.now) (env_view scope.env.now) }
    ensures made { IfOk result
        (λ a. Makes (signed_result sign (form_of scope.entry.base.now (formula_view formula.now)
        (env_view scope.entry.env.now) problem.old)) a problem.new) }
    ensures grows { IfOk result (λ a. Grows problem.old problem.new a) }
{
    let answer = form(scope, formula, problem)?;
    Ok(if sign { answer } else { answer.opposite() })
}

/// The conjunction of the formulas where `all`, and else their disjunction.
#[cycle(form)]
fn joined<'a>(
    scope: Scope<'a>,
    all: bool,
    formulas: &'a [Formula],
    problem: &mut Problem,
) -> Result<Answer, Memory>
    requires given { IsGroundBase scope.base.now }
    requires room { HasVars scope.base.now problem.old }
    requires fits { AreGroundable scope.base.now (formulas_of (map formula_view formulas.now))
        (env_view scope.env.now) }
    ensures made { IfOk result
        (λ a. Makes (close_parts all
        (parts_of scope.entry.base.now all (formulas_of (map formula_view formulas.now))
        (env_view scope.entry.env.now) [] problem.old)) a problem.new) }
    ensures grows { IfOk result (λ a. Grows problem.old problem.new a) }
{
    let mut lits = Vec::new(scope.alloc);
    let settled = parts(scope, all, formulas, &mut lits, problem)?;
    close(all, settled, lits, problem)
}

/// The literals of the formulas up to the first that settles the whole, if one does.
#[cycle(form)]
pub(crate) fn parts<'a>(
    scope: Scope<'a>,
    all: bool,
    formulas: &'a [Formula],
    lits: &mut Vec<Lit>,
    problem: &mut Problem,
) -> Result<bool, Memory>
    requires given { IsGroundBase scope.base.now }
    requires room { HasVars scope.base.now problem.old }
    requires fits { AreGroundable scope.base.now (formulas_of (map formula_view formulas.now))
        (env_view scope.env.now) }
    requires lits { AreLitsOf problem.old.vars lits.old.items }
    ensures made { IfOk result
        (λ s. MakesParts (parts_of scope.entry.base.now all (formulas_of (map formula_view formulas.now))
        (env_view scope.entry.env.now) lits.old.items problem.old) s lits.new.items problem.new) }
    ensures grows { IfOk result (λ s. PartsGrow problem.old problem.new lits.new.items) }
{
    for formula in formulas {
        let answer = form(scope, formula, problem)?;
        if add_part(all, answer, lits)? {
            return Ok(true);
        }
    }
    Ok(false)
}

/// What an implication comes to, by the opposite of its first part and its second part.
#[cycle(form)]
fn implied<'a>(
    scope: Scope<'a>,
    first: Answer,
    second: &'a Formula,
    problem: &mut Problem,
) -> Result<Answer, Memory>
    requires given { IsGroundBase scope.base.now }
    requires room { HasVars scope.base.now problem.old }
    requires fits { IsGroundable scope.base.now (formula_view second.now) (env_view scope.env.now) }
    requires within { AnswerWithin problem.old.vars first }
    ensures made { IfOk result
        (λ a. Makes (close_parts false (next_parts false (record { answer = first; problem = problem.old }) []
        (λ xs q. next_parts false (form_of scope.entry.base.now (formula_view second.now)
        (env_view scope.entry.env.now) q) xs no_more_parts))) a problem.new) }
    ensures grows { IfOk result (λ a. Grows problem.old problem.new a) }
{
    let mut lits = Vec::new(scope.alloc);
    if add_part(false, first, &mut lits)? {
        return Ok(Answer::Constant(true));
    }
    let answer = form(scope, second, problem)?;
    let settled = add_part(false, answer, &mut lits)?;
    close(false, settled, lits, problem)
}

/// What an equivalence comes to, by its first part's answer and its second part.
#[cycle(form)]
fn alike<'a>(
    scope: Scope<'a>,
    first: Answer,
    second: &'a Formula,
    problem: &mut Problem,
) -> Result<Answer, Memory>
    requires given { IsGroundBase scope.base.now }
    requires room { HasVars scope.base.now problem.old }
    requires fits { IsGroundable scope.base.now (formula_view second.now) (env_view scope.env.now) }
    requires within { AnswerWithin problem.old.vars first }
    ensures made { IfOk result (λ a. let y =
        form_of scope.entry.base.now (formula_view second.now) (env_view scope.entry.env.now) problem.old in
        Makes (same_of first y.answer y.problem) a problem.new) }
    ensures grows { IfOk result (λ a. Grows problem.old problem.new a) }
{
    let answer = form(scope, second, problem)?;
    same(scope.alloc, first, answer, problem)
}

/// What a quantified formula comes to: all, or any, of its instances.
#[cycle(form)]
fn quantified<'a>(
    scope: Scope<'a>,
    all: bool,
    binder: Binder<'a>,
    problem: &mut Problem,
) -> Result<Answer, Memory>
    requires given { IsGroundBase scope.base.now }
    requires room { HasVars scope.base.now problem.old }
    requires fits { AllByRecursion (λ a. IsGroundable scope.base.now (formula_view binder.formula.now)
        (env_view scope.env.now ++ a)) (choices scope.base.now.domains binder.bounds.now) }
    ensures made { IfOk result
        (λ a. Makes (close_parts all
        (fold (λ r x. part_step scope.entry.base.now all true (formula_view binder.entry.formula.now) r
        (env_view scope.entry.env.now ++ x))
        (open_parts [] problem.old) (choices scope.entry.base.now.domains binder.entry.bounds.now))) a problem.new) }
    ensures grows { IfOk result (λ a. Grows problem.old problem.new a) }
{
    let mut lits = Vec::new(scope.alloc);
    let settled = instances(scope, all, true, binder, &mut lits, problem)?;
    close(all, settled, lits, problem)
}

/// The literals of the instances of the formula, or of its negation where the sign is false, up to the first that
/// settles the whole, if one does.
#[cycle(form)]
pub(crate) fn instances<'a>(
    scope: Scope<'a>,
    all: bool,
    sign: bool,
    binder: Binder<'a>,
    lits: &mut Vec<Lit>,
    problem: &mut Problem,
) -> Result<bool, Memory>
    requires given { IsGroundBase scope.base.now }
    requires room { HasVars scope.base.now problem.old }
    requires fits { AllByRecursion (λ a. IsGroundable scope.base.now (formula_view binder.formula.now)
        (env_view scope.env.now ++ a)) (choices scope.base.now.domains binder.bounds.now) }
    requires lits { AreLitsOf problem.old.vars lits.old.items }
    ensures made { IfOk result
        (λ s. MakesParts (fold (λ r x. part_step scope.entry.base.now all sign (formula_view binder.entry.formula.now) r
        (env_view scope.entry.env.now ++ x))
        (open_parts lits.old.items problem.old) (choices scope.entry.base.now.domains binder.entry.bounds.now)) s
        lits.new.items problem.new) }
    ensures grows { IfOk result (λ s. PartsGrow problem.old problem.new lits.new.items) }
{
    if binder.bounds.is_empty() {
        let answer = signed_form(scope, sign, binder.formula, problem)?;
        return add_part(all, answer, lits);
    }
    let (block, others) = split_in(scope.base.domains(), binder.bounds);
    for number in 0..block.count {
        let inner = extend(scope.env, block, number);
        let inside = Scope {
            env: &inner,
            ..scope
        };
        let rest = Binder {
            bounds: others,
            ..binder
        };
        if instances(inside, all, sign, rest, lits, problem)? {
            return Ok(true);
        }
    }
    Ok(false)
}

/// How a number of assignments under which the formula is true compares with a number.
#[cycle(form)]
fn compare_count<'a>(
    scope: Scope<'a>,
    cmp: Cmp,
    number: i64,
    binder: Binder<'a>,
    problem: &mut Problem,
) -> Result<Answer, Memory>
    requires given { IsGroundBase scope.base.now }
    requires room { HasVars scope.base.now problem.old }
    requires fits { AllByRecursion (λ a. IsGroundable scope.base.now (formula_view binder.formula.now)
        (env_view scope.env.now ++ a)) (choices scope.base.now.domains binder.bounds.now) }
    ensures made { IfOk result
        (λ a. Makes (form_of scope.entry.base.now (numbered cmp number binder.entry.bounds.now
        (formula_view binder.entry.formula.now)) (env_view scope.entry.env.now) problem.old) a problem.new) }
    ensures grows { IfOk result (λ a. Grows problem.old problem.new a) }
{
    let mut counted = Linear::new(scope.alloc);
    let weights = Weights {
        kind: AggKind::Count,
        factor: 1,
        term: None,
    };
    add_instances(scope, weights, binder, &mut counted, problem)?;
    compared_at(scope.alloc, AggKind::Count, cmp, &counted, number, problem)
}

/// How a side that is a minimum or a maximum compares with the rows of the other.
#[cycle(form)]
fn compare_extreme<'a>(
    scope: Scope<'a>,
    kind: AggKind,
    cmp: Cmp,
    side: &'a Term,
    other: &'a Term,
    problem: &mut Problem,
) -> Result<Answer, Memory>
    requires given { IsGroundBase scope.base.now }
    requires room { HasVars scope.base.now problem.old }
    requires fits { AreInstancesGroundable scope.base.now (term_view side.now) (env_view scope.env.now) }
    requires rows { RowsFit scope.base.now (term_view other.now) (env_view scope.env.now) }
    ensures made { IfOk result
        (λ a. Makes (compared_by_rows kind cmp
        (sums_of scope.entry.base.now (pos 1) (term_view side.now) (env_view scope.entry.env.now)
        (no_parts_yet problem.old))
        (rows_of_term scope.entry.base.now (term_view other.now) (env_view scope.entry.env.now))) a problem.new) }
    ensures grows { IfOk result (λ a. Grows problem.old problem.new a) }
{
    let linear = aggregates_of(scope, side, problem)?;
    let rows = scope.base.rows(scope.alloc, other, scope.env)?;
    compared_with_rows(scope.alloc, kind, cmp, &linear, &rows, problem)
}

/// How the counts and sums of the left side, with those of the right side taken off, compare with what is left of the
/// rows of both sides.
#[cycle(form)]
fn compare_sums<'a>(
    scope: Scope<'a>,
    cmp: Cmp,
    left_linear: Linear,
    right: &'a Term,
    left: &'a Term,
    problem: &mut Problem,
) -> Result<Answer, Memory>
    requires given { IsGroundBase scope.base.now }
    requires room { HasVars scope.base.now problem.old }
    requires parts { ArePartsOf problem.old.vars left_linear.parts }
    requires fits { AreInstancesGroundable scope.base.now (term_view right.now) (env_view scope.env.now) }
    requires left { RowsFit scope.base.now (term_view left.now) (env_view scope.env.now) }
    requires right { RowsFit scope.base.now (term_view right.now) (env_view scope.env.now) }
    ensures made { IfOk result
        (λ a. Makes (compared_sums cmp
        (sums_of scope.entry.base.now (neg_ℤ (pos 1)) (term_view right.now) (env_view scope.entry.env.now)
        (linear_view left_linear problem.old))
        (rows_of_term scope.entry.base.now (term_view left.now) (env_view scope.entry.env.now))
        (rows_of_term scope.entry.base.now (term_view right.now) (env_view scope.entry.env.now))) a problem.new) }
    ensures grows { IfOk result (λ a. Grows problem.old problem.new a) }
{
    let mut linear = left_linear;
    add_aggregates(scope, -1, right, &mut linear, problem)?;
    let left_rows = scope.base.rows(scope.alloc, left, scope.env)?;
    let right_rows = scope.base.rows(scope.alloc, right, scope.env)?;
    compare_sides(scope.alloc, cmp, &linear, &left_rows, &right_rows, problem)
}

/// The parts of the aggregates in a term.
#[cycle(form)]
pub fn aggregates_of<'a>(
    scope: Scope<'a>,
    term: &'a Term,
    problem: &mut Problem,
) -> Result<Linear, Memory>
    requires given { IsGroundBase scope.base.now }
    requires room { HasVars scope.base.now problem.old }
    requires fits { AreInstancesGroundable scope.base.now (term_view term.now) (env_view scope.env.now) }
    ensures made { IfOk result (λ s. linear_view s problem.new
        ≡ sums_of scope.entry.base.now (pos 1) (term_view term.now) (env_view scope.entry.env.now)
        (no_parts_yet problem.old)) }
    ensures grows { IfOk result (λ s. LinearGrows problem.old problem.new s.parts) }
{
    let mut linear = Linear::new(scope.alloc);
    add_aggregates(scope, 1, term, &mut linear, problem)?;
    Ok(linear)
}

// Static bounds hold a factor times what its aggregate may come to within 64 bits: so the factor itself leaves them
// only where the aggregate can be nothing but 0.
/// Adds the parts of the aggregates in a term, times a factor. A factor past 64 bits counts as out of memory.
#[cycle(form)]
pub fn add_aggregates<'a>(
    scope: Scope<'a>,
    factor: i64,
    term: &'a Term,
    linear: &mut Linear,
    problem: &mut Problem,
) -> Result<(), Memory>
    requires given { IsGroundBase scope.base.now }
    requires room { HasVars scope.base.now problem.old }
    requires fits { AreInstancesGroundable scope.base.now (term_view term.now) (env_view scope.env.now) }
    requires parts { ArePartsOf problem.old.vars linear.old.parts }
    ensures made { OnOk result (linear_view linear.new problem.new
        ≡ sums_of scope.entry.base.now factor (term_view term.now) (env_view scope.entry.env.now)
        (linear_view linear.old problem.old)) }
    ensures grows { OnOk result (LinearGrows problem.old problem.new linear.new.parts) }
{
    match term {
        Term::Var(_) => Ok(()),
        Term::Int(_) => Ok(()),
        Term::Made(..) => Ok(()),
        Term::Apply(..) => Ok(()),
        Term::Sum(parts) => add_of_operands(scope, factor, parts, linear, problem),
        Term::Product(factors) => {
            if !have_aggregates(factors) {
                return Ok(());
            }
            match times_integers(factor, factors) {
                Some(product) => add_of_factors(scope, product, factors, linear, problem),
                None => Err(Memory),
            }
        }
        Term::Agg(kind, bounds, formula, weight) => {
            let weights = Weights {
                kind: *kind,
                factor,
                term: Some(weight),
            };
            add_instances(scope, weights, Binder { bounds, formula }, linear, problem)
        }
    }
}

/// Adds the parts of the aggregates in the operands of a sum, times a factor.
#[cycle(form)]
fn add_of_operands<'a>(
    scope: Scope<'a>,
    factor: i64,
    operands: &'a [Signed],
    linear: &mut Linear,
    problem: &mut Problem,
) -> Result<(), Memory>
    requires given { IsGroundBase scope.base.now }
    requires room { HasVars scope.base.now problem.old }
    requires fits { AreSummandsGroundable scope.base.now (summands_of (map signed_view operands.now))
        (env_view scope.env.now) }
    requires parts { ArePartsOf problem.old.vars linear.old.parts }
    ensures made { OnOk result (linear_view linear.new problem.new
        ≡ sums_of_summands scope.entry.base.now factor (summands_of (map signed_view operands.now))
        (env_view scope.entry.env.now) (linear_view linear.old problem.old)) }
    ensures grows { OnOk result (LinearGrows problem.old problem.new linear.new.parts) }
{
    for operand in operands {
        match with_sign(operand.minus, factor) {
            Some(own) => add_aggregates(scope, own, &operand.term, linear, problem)?,
            None => return Err(Memory),
        }
    }
    Ok(())
}

/// Adds the parts of the aggregates in the factors of a product, times a factor.
#[cycle(form)]
fn add_of_factors<'a>(
    scope: Scope<'a>,
    factor: i64,
    terms: &'a [Term],
    linear: &mut Linear,
    problem: &mut Problem,
) -> Result<(), Memory>
    requires given { IsGroundBase scope.base.now }
    requires room { HasVars scope.base.now problem.old }
    requires fits { AreFactorsGroundable scope.base.now (terms_of (map term_view terms.now)) (env_view scope.env.now) }
    requires parts { ArePartsOf problem.old.vars linear.old.parts }
    ensures made { OnOk result (linear_view linear.new problem.new
        ≡ sums_of_factors scope.entry.base.now factor (terms_of (map term_view terms.now))
        (env_view scope.entry.env.now) (linear_view linear.old problem.old)) }
    ensures grows { OnOk result (LinearGrows problem.old problem.new linear.new.parts) }
{
    for term in terms {
        add_aggregates(scope, factor, term, linear, problem)?;
    }
    Ok(())
}

/// Adds the parts of an aggregate's instances, one for each assignment.
#[cycle(form)]
fn add_instances<'a>(
    scope: Scope<'a>,
    weights: Weights<'a>,
    binder: Binder<'a>,
    linear: &mut Linear,
    problem: &mut Problem,
) -> Result<(), Memory>
    requires given { IsGroundBase scope.base.now }
    requires room { HasVars scope.base.now problem.old }
    requires fits { AllByRecursion
        (λ a. InstanceFits scope.base.now (formula_view binder.formula.now) (weight_view weights)
        (env_view scope.env.now ++ a)) (choices scope.base.now.domains binder.bounds.now) }
    requires parts { ArePartsOf problem.old.vars linear.old.parts }
    ensures made { OnOk result (linear_view linear.new problem.new
        ≡ fold (λ st a. weighed_step scope.entry.base.now weights.entry.kind weights.entry.factor
        (formula_view binder.entry.formula.now)
        (weight_view weights.entry) st (env_view scope.entry.env.now ++ a)) (linear_view linear.old problem.old)
        (choices scope.entry.base.now.domains binder.entry.bounds.now)) }
    ensures grows { OnOk result (LinearGrows problem.old problem.new linear.new.parts) }
{
    if binder.bounds.is_empty() {
        let answer = form(scope, binder.formula, problem)?;
        return add_instance(scope, weights, answer, linear, problem);
    }
    let (block, others) = split_in(scope.base.domains(), binder.bounds);
    for number in 0..block.count {
        let inner = extend(scope.env, block, number);
        let inside = Scope {
            env: &inner,
            ..scope
        };
        let rest = Binder {
            bounds: others,
            ..binder
        };
        add_instances(inside, weights, rest, linear, problem)?;
    }
    Ok(())
}
