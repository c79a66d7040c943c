//! Sentences as clauses: what stands at the top needs no gate.
ghost use Rattle.std.specs.Prelude.{◌≡◌, ◌≤◌, ◌++◌, [], map, fold, take, true, false, if◌then◌else◌, OnOk};
ghost use Rattle.std.specs.List.{AllByRecursion};
ghost use Rattle.kb_logic.specs.Trees.{formulas_of, equivalence};
ghost use Rattle.kb_logic.specs.Views.{formula_view};
ghost use Rattle.kb_logic.specs.Structures.{choices};
ghost use Rattle.plain_evaluation.specs.Environments.{env_view};
ghost use Rattle.ground_core.specs.Problems.{AreLitsOf};
ghost use Rattle.ground_core.specs.Growth.{with_clause};
ghost use Rattle.term_values.specs.KnownBases.{IsGroundBase};
ghost use Rattle.def_ground.specs.CaseSentences.{or_clause};
ghost use Rattle.def_ground.specs.Sentences.{are_few, assert_of, assert_all, assert_any, parts_clause};
ghost use Rattle.def_ground.specs.Forms.{form_of, signed_result};
ghost use Rattle.row_ranges.specs.Leads.{IsInOrder, Leads};
ghost use Rattle.sentence_guards.specs.Guards.{AddsNothing};
ghost use Rattle.ground_walk.specs.Groundable.{HasVars, IsGroundable, AreGroundable};
ghost use Rattle.ground_walk.specs.Steps.{open_parts, part_step, assert_last, assert_under, assert_step, assert_joined};
ghost use Rattle.ground_walk.specs.Steps.{assert_quantified};

use crate::counting::are_plain;
use crate::disjuncts::disjuncts;
use crate::forms::{form, instances, signed_form};
use crate::leaves::{Compared, push_atom, push_comparison};
use crate::scopes::{Binder, Scope};
use def_ground::{push_alike, push_answer};
use ground_core::{Memory, Problem};
use kb_logic::Formula;
use lit_core::{Clause, Lit};
use plain_evaluation::environments::{Env, extend, split_in};
use row_ranges::{RowPlace, first_variable};
use sentence_guards::ranges_for;
use std::alloc::Global;
use term_values::GroundData;

/// Says the clause of these literals.
fn push_clause(alloc: Global, lits: &[Lit], problem: &mut Problem) -> Result<(), Memory>
    requires { AreLitsOf problem.old.vars lits.now }
    ensures { OnOk result (problem.new ≡ with_clause problem.old lits.now) }
{
    problem.add_clause(Clause::from_slice(alloc, lits)?)
}

/// Whether there are so few literals that each of many clauses may have them.
fn are_few(lits: &[Lit]) -> bool
    ensures { result ≡ are_few lits.now }
{
    lits.len() <= 8
}

/// Says that one of the literals is true, or some instance of the formula is, or where the sign is false some is not.
fn push_some<'a>(
    scope: Scope<'a>,
    sign: bool,
    binder: Binder<'a>,
    lits: &mut Vec<Lit>,
    problem: &mut Problem,
) -> Result<(), Memory>
    requires given { IsGroundBase scope.base.now }
    requires room { HasVars scope.base.now problem.old }
    requires fits { AllByRecursion (λ a. IsGroundable scope.base.now (formula_view binder.formula.now)
        (env_view scope.env.now ++ a)) (choices scope.base.now.domains binder.bounds.now) }
    requires lits { AreLitsOf problem.old.vars lits.old.items }
    ensures made { OnOk result
        (problem.new ≡ parts_clause
        (fold (λ r x. part_step scope.entry.base.now false sign (formula_view binder.entry.formula.now) r
        (env_view scope.entry.env.now ++ x))
        (open_parts lits.old.items problem.old) (choices scope.entry.base.now.domains binder.entry.bounds.now))) }
    ensures grows { OnOk result (problem.old.vars ≤ problem.new.vars) }
    ensures lits { OnOk result (lits.new.items ≡ lits.old.items) }
{
    let before = lits.len();
    let settled = instances(scope, false, sign, binder, lits, problem)?;
    if !settled {
        push_clause(scope.alloc, lits.as_slice(), problem)?;
    }
    lits.truncate(before);
    Ok(())
}

/// Says that one of the literals is true, or the formula is, or where the sign is false is not. The formula is asked
/// for as one answer.
fn push_leaf<'a>(
    scope: Scope<'a>,
    sign: bool,
    formula: &'a Formula,
    lits: &mut Vec<Lit>,
    problem: &mut Problem,
) -> Result<(), Memory>
    requires given { IsGroundBase scope.base.now }
    requires room { HasVars scope.base.now problem.old }
    requires fits { IsGroundable scope.base.now (formula_view formula.now) (env_view scope.env.now) }
    requires lits { AreLitsOf problem.old.vars lits.old.items }
    ensures made { OnOk result
        (problem.new ≡ or_clause lits.old.items
        (signed_result sign (form_of scope.entry.base.now (formula_view formula.now)
        (env_view scope.entry.env.now) problem.old))) }
    ensures grows { OnOk result (problem.old.vars ≤ problem.new.vars) }
    ensures lits { OnOk result (lits.new.items ≡ lits.old.items) }
{
    let answer = signed_form(scope, sign, formula, problem)?;
    push_answer(scope.alloc, answer, lits.as_slice(), problem)
}

/// Says that one of the literals is true, or that two formulas have one truth, or where the sign is false that they
/// have not.
fn push_iff<'a>(
    scope: Scope<'a>,
    sign: bool,
    left: &'a Formula,
    right: &'a Formula,
    lits: &[Lit],
    problem: &mut Problem,
) -> Result<(), Memory>
    requires given { IsGroundBase scope.base.now }
    requires room { HasVars scope.base.now problem.old }
    requires left { IsGroundable scope.base.now (formula_view left.now) (env_view scope.env.now) }
    requires right { IsGroundable scope.base.now (formula_view right.now) (env_view scope.env.now) }
    requires lits { AreLitsOf problem.old.vars lits.now }
    ensures made { OnOk result
        (problem.new ≡ assert_of scope.entry.base.now sign
        (equivalence (formula_view left.now) (formula_view right.now))
        (env_view scope.entry.env.now) lits.now problem.old) }
    ensures grows { OnOk result (problem.old.vars ≤ problem.new.vars) }
{
    let first = form(scope, left, problem)?;
    let second = form(scope, right, problem)?;
    push_alike(scope.alloc, sign, first, second, lits, problem)
}

/// Says that one of the literals is true, or the formula is, or where the sign is false is not.
#[cycle(sentence)]
fn push<'a>(
    scope: Scope<'a>,
    sign: bool,
    formula: &'a Formula,
    lits: &mut Vec<Lit>,
    problem: &mut Problem,
) -> Result<(), Memory>
    requires given { IsGroundBase scope.base.now }
    requires room { HasVars scope.base.now problem.old }
    requires fits { IsGroundable scope.base.now (formula_view formula.now) (env_view scope.env.now) }
    requires lits { AreLitsOf problem.old.vars lits.old.items }
    ensures made { OnOk result
        (problem.new ≡ assert_of scope.entry.base.now sign (formula_view formula.now)
        (env_view scope.entry.env.now) lits.old.items problem.old) }
    ensures grows { OnOk result (problem.old.vars ≤ problem.new.vars) }
    ensures lits { OnOk result (lits.new.items ≡ lits.old.items) }
{
    match formula {
        Formula::True => push_constant(scope.alloc, sign, lits, problem),
        Formula::False => push_constant(scope.alloc, !sign, lits, problem),
        Formula::Atom(symbol, args) => {
            push_atom(scope, sign, *symbol, args, lits.as_slice(), problem)
        }
        Formula::Compare(cmp, left, right) => {
            if are_plain(left, right) {
                let cmp = *cmp;
                let sides = Compared { cmp, left, right };
                push_comparison(scope, sign, sides, lits.as_slice(), problem)
            } else {
                push_leaf(scope, sign, formula, lits, problem)
            }
        }
        Formula::Iff(left, right) => {
            push_iff(scope, sign, left, right, lits.as_slice(), problem)
        }
        Formula::Number(..) => push_leaf(scope, sign, formula, lits, problem),
        Formula::Not(inner) => push(scope, !sign, inner, lits, problem),
        Formula::And(formulas) => push_joined(scope, true, sign, formulas, lits, problem),
        Formula::Or(formulas) => push_joined(scope, false, sign, formulas, lits, problem),
        Formula::Implies(left, right) => {
            if sign {
                let before = lits.len();
                let settled = disjuncts(scope, false, left, lits, problem)?;
                push_under(scope, settled, before, right, lits, problem)
            } else {
                push(scope, true, left, lits, problem)?;
                push(scope, false, right, lits, problem)
            }
        }
        Formula::All(bounds, formula) => {
            let binder = Binder { bounds, formula };
            push_quantified(scope, true, sign, binder, lits, problem)
        }
        Formula::Any(bounds, formula) => {
            let binder = Binder { bounds, formula };
            push_quantified(scope, false, sign, binder, lits, problem)
        }
    }
}

/// Says that one of the literals is true where the constant is false.
fn push_constant(
    alloc: Global,
    value: bool,
    lits: &mut Vec<Lit>,
    problem: &mut Problem,
) -> Result<(), Memory>
    requires { AreLitsOf problem.old.vars lits.old.items }
    ensures made { OnOk result (problem.new ≡ (if value then problem.old else with_clause problem.old lits.old.items)) }
    ensures lits { OnOk result (lits.new.items ≡ lits.old.items) }
{
    if value {
        Ok(())
    } else {
        push_clause(alloc, lits.as_slice(), problem)
    }
}

/// The right part of an implication, under the literals of the left one, unless these settle the whole. The literals
/// after the first `before` are cut off.
#[cycle(sentence)]
fn push_under<'a>(
    scope: Scope<'a>,
    settled: bool,
    before: usize,
    right: &'a Formula,
    lits: &mut Vec<Lit>,
    problem: &mut Problem,
) -> Result<(), Memory>
    requires given { IsGroundBase scope.base.now }
    requires room { HasVars scope.base.now problem.old }
    requires fits { IsGroundable scope.base.now (formula_view right.now) (env_view scope.env.now) }
    requires lits { AreLitsOf problem.old.vars lits.old.items }
    ensures made { OnOk result
        (problem.new ≡ assert_under scope.entry.base.now settled (formula_view right.now)
        (env_view scope.entry.env.now) lits.old.items problem.old) }
    ensures grows { OnOk result (problem.old.vars ≤ problem.new.vars) }
    ensures lits { OnOk result (lits.new.items ≡ take before lits.old.items) }
{
    if settled {
        lits.truncate(before);
        return Ok(());
    }
    push_last(scope, true, right, lits, problem)?;
    lits.truncate(before);
    Ok(())
}

// Where there are many literals the formula is asked for as one answer, so that a long clause is not copied for each of
// its instances.
/// The last part of a disjunction, under the literals of the others.
#[cycle(sentence)]
fn push_last<'a>(
    scope: Scope<'a>,
    sign: bool,
    formula: &'a Formula,
    lits: &mut Vec<Lit>,
    problem: &mut Problem,
) -> Result<(), Memory>
    requires given { IsGroundBase scope.base.now }
    requires room { HasVars scope.base.now problem.old }
    requires fits { IsGroundable scope.base.now (formula_view formula.now) (env_view scope.env.now) }
    requires lits { AreLitsOf problem.old.vars lits.old.items }
    ensures made { OnOk result
        (problem.new ≡ assert_last scope.entry.base.now sign (formula_view formula.now)
        (env_view scope.entry.env.now) lits.old.items problem.old) }
    ensures grows { OnOk result (problem.old.vars ≤ problem.new.vars) }
    ensures lits { OnOk result (lits.new.items ≡ lits.old.items) }
{
    if are_few(lits.as_slice()) {
        push(scope, sign, formula, lits, problem)
    } else {
        push_leaf(scope, sign, formula, lits, problem)
    }
}

/// The conjunction of the formulas where `all`, and else their disjunction.
#[cycle(sentence)]
fn push_joined<'a>(
    scope: Scope<'a>,
    all: bool,
    sign: bool,
    formulas: &'a [Formula],
    lits: &mut Vec<Lit>,
    problem: &mut Problem,
) -> Result<(), Memory>
    requires given { IsGroundBase scope.base.now }
    requires room { HasVars scope.base.now problem.old }
    requires fits { AreGroundable scope.base.now (formulas_of (map formula_view formulas.now))
        (env_view scope.env.now) }
    requires lits { AreLitsOf problem.old.vars lits.old.items }
    ensures made { OnOk result
        (problem.new ≡ assert_joined all scope.entry.base.now sign (formulas_of (map formula_view formulas.now))
        (env_view scope.entry.env.now) lits.old.items problem.old) }
    ensures grows { OnOk result (problem.old.vars ≤ problem.new.vars) }
    ensures lits { OnOk result (lits.new.items ≡ lits.old.items) }
{
    if sign == all {
        push_all(scope, sign, formulas, lits, problem)
    } else {
        push_any(scope, sign, formulas, lits, problem)
    }
}

/// Says it of each of the formulas.
#[cycle(sentence)]
fn push_all<'a>(
    scope: Scope<'a>,
    sign: bool,
    formulas: &'a [Formula],
    lits: &mut Vec<Lit>,
    problem: &mut Problem,
) -> Result<(), Memory>
    requires given { IsGroundBase scope.base.now }
    requires room { HasVars scope.base.now problem.old }
    requires fits { AreGroundable scope.base.now (formulas_of (map formula_view formulas.now))
        (env_view scope.env.now) }
    requires lits { AreLitsOf problem.old.vars lits.old.items }
    ensures made { OnOk result (problem.new ≡ assert_all scope.entry.base.now sign
        (formulas_of (map formula_view formulas.now)) (env_view scope.entry.env.now) lits.old.items problem.old) }
    ensures grows { OnOk result (problem.old.vars ≤ problem.new.vars) }
    ensures lits { OnOk result (lits.new.items ≡ lits.old.items) }
{
    for formula in formulas {
        push(scope, sign, formula, lits, problem)?;
    }
    Ok(())
}

/// Says it of one of the formulas: of the last under the literals of those before it.
#[cycle(sentence)]
fn push_any<'a>(
    scope: Scope<'a>,
    sign: bool,
    formulas: &'a [Formula],
    lits: &mut Vec<Lit>,
    problem: &mut Problem,
) -> Result<(), Memory>
    requires given { IsGroundBase scope.base.now }
    requires room { HasVars scope.base.now problem.old }
    requires fits { AreGroundable scope.base.now (formulas_of (map formula_view formulas.now))
        (env_view scope.env.now) }
    requires lits { AreLitsOf problem.old.vars lits.old.items }
    ensures made { OnOk result (problem.new ≡ assert_any scope.entry.base.now sign
        (formulas_of (map formula_view formulas.now)) (env_view scope.entry.env.now) lits.old.items problem.old) }
    ensures grows { OnOk result (problem.old.vars ≤ problem.new.vars) }
    ensures lits { OnOk result (lits.new.items ≡ lits.old.items) }
{
    let Some((last, others)) = formulas.split_last() else {
        return push_clause(scope.alloc, lits.as_slice(), problem);
    };
    let before = lits.len();
    for formula in others {
        if disjuncts(scope, sign, formula, lits, problem)? {
            lits.truncate(before);
            return Ok(());
        }
    }
    push_last(scope, sign, last, lits, problem)?;
    lits.truncate(before);
    Ok(())
}

/// All instances where `all`, and else some.
#[cycle(sentence)]
fn push_quantified<'a>(
    scope: Scope<'a>,
    all: bool,
    sign: bool,
    binder: Binder<'a>,
    lits: &mut Vec<Lit>,
    problem: &mut Problem,
) -> Result<(), Memory>
    requires given { IsGroundBase scope.base.now }
    requires room { HasVars scope.base.now problem.old }
    requires fits { AllByRecursion (λ a. IsGroundable scope.base.now (formula_view binder.formula.now)
        (env_view scope.env.now ++ a)) (choices scope.base.now.domains binder.bounds.now) }
    requires lits { AreLitsOf problem.old.vars lits.old.items }
    ensures made { OnOk result (problem.new ≡ assert_quantified all scope.entry.base.now sign binder.entry.bounds.now
        (formula_view binder.entry.formula.now) (env_view scope.entry.env.now) lits.old.items problem.old) }
    ensures grows { OnOk result (problem.old.vars ≤ problem.new.vars) }
    ensures lits { OnOk result (lits.new.items ≡ lits.old.items) }
{
    if sign == all {
        push_instances(scope, sign, binder, lits, problem)
    } else {
        push_some(scope, sign, binder, lits, problem)
    }
}

// Those that a known table rules out add nothing. So where its rows are few they alone are walked.
/// Says it of all instances of the formula.
#[cycle(sentence)]
fn push_instances<'a>(
    scope: Scope<'a>,
    sign: bool,
    binder: Binder<'a>,
    lits: &mut Vec<Lit>,
    problem: &mut Problem,
) -> Result<(), Memory>
    requires given { IsGroundBase scope.base.now }
    requires room { HasVars scope.base.now problem.old }
    requires fits { AllByRecursion (λ a. IsGroundable scope.base.now (formula_view binder.formula.now)
        (env_view scope.env.now ++ a)) (choices scope.base.now.domains binder.bounds.now) }
    requires lits { AreLitsOf problem.old.vars lits.old.items }
    ensures made { OnOk result
        (problem.new ≡ fold (λ q x. assert_step scope.entry.base.now sign
        (formula_view binder.entry.formula.now) lits.old.items q
        (env_view scope.entry.env.now ++ x)) problem.old (choices scope.entry.base.now.domains binder.entry.bounds.now)) }
    ensures grows { OnOk result (problem.old.vars ≤ problem.new.vars) }
    ensures lits { OnOk result (lits.new.items ≡ lits.old.items) }
{
    let Binder { bounds, formula } = binder;
    let ranges = ranges_for(scope.alloc, scope.base, sign, bounds, formula, scope.env)?;
    let Some(ranges) = ranges else {
        return push_each(scope, sign, binder, lits, problem);
    };
    let place = ranges.place();
    push_led(scope, sign, binder, place, lits, problem)
}

/// Says it of each instance that the rows of a table lead to.
#[cycle(sentence)]
fn push_led<'a>(
    scope: Scope<'a>,
    sign: bool,
    binder: Binder<'a>,
    place: RowPlace<'_>,
    lits: &mut Vec<Lit>,
    problem: &mut Problem,
) -> Result<(), Memory>
    requires given { IsGroundBase scope.base.now }
    requires room { HasVars scope.base.now problem.old }
    requires fits { AllByRecursion (λ a. IsGroundable scope.base.now (formula_view binder.formula.now)
        (env_view scope.env.now ++ a)) (choices scope.base.now.domains binder.bounds.now) }
    requires lits { AreLitsOf problem.old.vars lits.old.items }
    requires led { Leads (AddsNothing scope.base.now sign (formula_view binder.formula.now)) scope.base.now.domains
        place.keys.now place.key place.steps.now binder.bounds.now (env_view scope.env.now) }
    requires order { IsInOrder scope.base.now.domains place.keys.now place.key place.steps.now binder.bounds.now }
    ensures made { OnOk result
        (problem.new ≡ fold (λ q x. assert_step scope.entry.base.now sign
        (formula_view binder.entry.formula.now) lits.old.items q
        (env_view scope.entry.env.now ++ x)) problem.old (choices scope.entry.base.now.domains binder.entry.bounds.now)) }
    ensures grows { OnOk result (problem.old.vars ≤ problem.new.vars) }
    ensures lits { OnOk result (lits.new.items ≡ lits.old.items) }
{
    if binder.bounds.is_empty() || place.is_free() {
        return push_each(scope, sign, binder, lits, problem);
    }
    let (block, others) = first_variable(scope.base.domains(), binder.bounds);
    let mut index = place.next(0, block.count);
    while index < block.count {
        let inner = extend(scope.env, block, index);
        let inside = Scope {
            env: &inner,
            ..scope
        };
        let rest = Binder {
            bounds: others,
            ..binder
        };
        let below = place.below(index);
        push_led(inside, sign, rest, below, lits, problem)?;
        index = place.next(index + 1, block.count);
    }
    Ok(())
}

/// Says it of each instance of the formula.
#[cycle(sentence)]
fn push_each<'a>(
    scope: Scope<'a>,
    sign: bool,
    binder: Binder<'a>,
    lits: &mut Vec<Lit>,
    problem: &mut Problem,
) -> Result<(), Memory>
    requires given { IsGroundBase scope.base.now }
    requires room { HasVars scope.base.now problem.old }
    requires fits { AllByRecursion (λ a. IsGroundable scope.base.now (formula_view binder.formula.now)
        (env_view scope.env.now ++ a)) (choices scope.base.now.domains binder.bounds.now) }
    requires lits { AreLitsOf problem.old.vars lits.old.items }
    ensures made { OnOk result
        (problem.new ≡ fold (λ q x. assert_step scope.entry.base.now sign
        (formula_view binder.entry.formula.now) lits.old.items q
        (env_view scope.entry.env.now ++ x)) problem.old (choices scope.entry.base.now.domains binder.entry.bounds.now)) }
    ensures grows { OnOk result (problem.old.vars ≤ problem.new.vars) }
    ensures lits { OnOk result (lits.new.items ≡ lits.old.items) }
{
    if binder.bounds.is_empty() {
        return push(scope, sign, binder.formula, lits, problem);
    }
    let (block, others) = split_in(scope.base.domains(), binder.bounds);
    for number in 0..block.count {
        let inner = extend(scope.env, block, number);
        let inside = Scope {
            env: &inner,
            ..scope
        };
        let rest = Binder {
            bounds: others,
            ..binder
        };
        push_each(inside, sign, rest, lits, problem)?;
    }
    Ok(())
}

/// Says that the sentence is true.
pub fn push_sentence(
    alloc: Global,
    base: &GroundData<'_>,
    sentence: &Formula,
    problem: &mut Problem,
) -> Result<(), Memory>
    requires given { IsGroundBase base.now }
    requires room { HasVars base.now problem.old }
    requires fits { IsGroundable base.now (formula_view sentence.now) [] }
    ensures made { OnOk result (problem.new ≡ assert_of base.now true (formula_view sentence.now) [] [] problem.old) }
    ensures grows { OnOk result (problem.old.vars ≤ problem.new.vars) }
{
    let outermost = Env::Given(&[]);
    let scope = Scope {
        alloc,
        base,
        env: &outermost,
    };
    let mut lits = Vec::new(alloc);
    push(scope, true, sentence, &mut lits, problem)
}
