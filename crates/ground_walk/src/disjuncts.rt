//! The literals of a formula that stands as a part of a disjunction.
ghost use Rattle.std.specs.Prelude.{◌≡◌, map, false, IfOk};
ghost use Rattle.kb_logic.specs.Trees.{formulas_of};
ghost use Rattle.kb_logic.specs.Views.{formula_view};
ghost use Rattle.plain_evaluation.specs.Environments.{env_view};
ghost use Rattle.ground_core.specs.Problems.{AreLitsOf};
ghost use Rattle.term_values.specs.KnownBases.{IsGroundBase};
ghost use Rattle.def_ground.specs.Disjuncts.{own_part, disjuncts_of, all_disjuncts};
ghost use Rattle.ground_walk.specs.Groundable.{HasVars, IsGroundable, AreGroundable};
ghost use Rattle.ground_walk.specs.Steps.{PartsGrow, MakesParts};

use crate::forms::signed_form;
use crate::scopes::Scope;
use def_ground::add_part;
use ground_core::{Memory, Problem};
use kb_logic::Formula;
use lit_core::Lit;

/// Pushes the literal of what the formula comes to, or of its opposite where the sign is false. Whether it settles the
/// whole.
fn own<'a>(
    scope: Scope<'a>,
    sign: bool,
    formula: &'a Formula,
    lits: &mut Vec<Lit>,
    problem: &mut Problem,
) -> Result<bool, Memory>
    requires given { IsGroundBase scope.base.now }
    requires room { HasVars scope.base.now problem.old }
    requires fits { IsGroundable scope.base.now (formula_view formula.now) (env_view scope.env.now) }
    requires lits { AreLitsOf problem.old.vars lits.old.items }
    ensures made { IfOk result
        (λ s. MakesParts (own_part scope.entry.base.now sign (formula_view formula.now)
        (env_view scope.entry.env.now) lits.old.items problem.old) s lits.new.items problem.new) }
    ensures grows { IfOk result (λ s. PartsGrow problem.old problem.new lits.new.items) }
{
    let answer = signed_form(scope, sign, formula, problem)?;
    add_part(false, answer, lits)
}

/// Pushes the literals of the formula's parts where it, or its negation where the sign is false, is a disjunction, and
/// else its own one. Whether a part settles the whole.
#[cycle(disjuncts)]
pub(crate) fn disjuncts<'a>(
    scope: Scope<'a>,
    sign: bool,
    formula: &'a Formula,
    lits: &mut Vec<Lit>,
    problem: &mut Problem,
) -> Result<bool, Memory>
    requires given { IsGroundBase scope.base.now }
    requires room { HasVars scope.base.now problem.old }
    requires fits { IsGroundable scope.base.now (formula_view formula.now) (env_view scope.env.now) }
    requires lits { AreLitsOf problem.old.vars lits.old.items }
    ensures made { IfOk result
        (λ s. MakesParts (disjuncts_of scope.entry.base.now sign (formula_view formula.now)
        (env_view scope.entry.env.now) lits.old.items problem.old) s lits.new.items problem.new) }
    ensures grows { IfOk result (λ s. PartsGrow problem.old problem.new lits.new.items) }
{
    match formula {
        Formula::True => own(scope, sign, formula, lits, problem),
        Formula::False => own(scope, sign, formula, lits, problem),
        Formula::Atom(..) => own(scope, sign, formula, lits, problem),
        Formula::Compare(..) => own(scope, sign, formula, lits, problem),
        Formula::Iff(..) => own(scope, sign, formula, lits, problem),
        Formula::All(..) => own(scope, sign, formula, lits, problem),
        Formula::Any(..) => own(scope, sign, formula, lits, problem),
        Formula::Number(..) => own(scope, sign, formula, lits, problem),
        Formula::Not(inner) => disjuncts(scope, !sign, inner, lits, problem),
        Formula::And(formulas) => {
            if sign {
                own(scope, true, formula, lits, problem)
            } else {
                each_disjuncts(scope, false, formulas, lits, problem)
            }
        }
        Formula::Or(formulas) => {
            if sign {
                each_disjuncts(scope, true, formulas, lits, problem)
            } else {
                own(scope, false, formula, lits, problem)
            }
        }
        Formula::Implies(left, right) => {
            if sign {
                if disjuncts(scope, false, left, lits, problem)? {
                    return Ok(true);
                }
                disjuncts(scope, true, right, lits, problem)
            } else {
                own(scope, false, formula, lits, problem)
            }
        }
    }
}

/// So for each of the formulas, up to the first with a part that settles the whole.
#[cycle(disjuncts)]
fn each_disjuncts<'a>(
    scope: Scope<'a>,
    sign: bool,
    formulas: &'a [Formula],
    lits: &mut Vec<Lit>,
    problem: &mut Problem,
) -> Result<bool, Memory>
    requires given { IsGroundBase scope.base.now }
    requires room { HasVars scope.base.now problem.old }
    requires fits { AreGroundable scope.base.now (formulas_of (map formula_view formulas.now))
        (env_view scope.env.now) }
    requires lits { AreLitsOf problem.old.vars lits.old.items }
    ensures made { IfOk result
        (λ s. MakesParts (all_disjuncts scope.entry.base.now sign (formulas_of (map formula_view formulas.now))
        (env_view scope.entry.env.now) lits.old.items problem.old) s lits.new.items problem.new) }
    ensures grows { IfOk result (λ s. PartsGrow problem.old problem.new lits.new.items) }
{
    for formula in formulas {
        if disjuncts(scope, sign, formula, lits, problem)? {
            return Ok(true);
        }
    }
    Ok(false)
}
