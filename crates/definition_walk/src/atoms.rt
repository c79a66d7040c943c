//! The clauses of atoms, by the bodies of the instances that they are the heads of.
ghost use Rattle.std.specs.Prelude.{◌≡◌, ◌≤◌, ◌<◌, ◌+◌, ◌^◌, ◌∷◌, ℕ, List, [], map, fold, length, OnOk, IfOk, false};
ghost use Rattle.lit_core.specs.Literals.{negated};
ghost use Rattle.ground_core.specs.Problems.{IsLitOf, AreLitsOf};
ghost use Rattle.ground_core.specs.GateClauses.{clauses_of_join};
ghost use Rattle.def_ground.specs.declared.answers.Answer.{Answer as AnswerOf};
ghost use Rattle.def_ground.specs.Answers.{AnswerWithin};
ghost use Rattle.def_ground.specs.Cases.{with_clauses};
ghost use Rattle.def_ground.specs.Definitions.{settled_by, literals_in, complete as completed, complete_atom};
ghost use Rattle.definition_walk.specs.Lists.{lists_of, HaveBodies, AllWithin, AreWithin, numbers_from};

use crate::bodies::Bodies;
use def_ground::{Answer, add_part};
use ground_core::{Memory, Problem};
use lit_core::Lit;
use std::alloc::Global;
use term_values::GroundData;

/// The literals of the bodies, and whether one of the bodies is true in any case.
fn literals(bodies: &[Answer], lits: &mut Vec<Lit>) -> Result<bool, Memory>
    requires { lits.old.items ≡ [] }
    ensures { IfOk result (λ s. (s ≡ settled_by bodies.now) × (lits.new.items ≡ literals_in bodies.now)) }
{
    let mut settled = false;
    for body in bodies {
        let here = add_part(false, *body, lits)?;
        settled = settled | here;
    }
    Ok(settled)
}

/// Says that none of the literals is true.
fn push_none(lits: &[Lit], problem: &mut Problem) -> Result<(), Memory>
    requires { AreLitsOf problem.old.vars lits.now }
    ensures { OnOk result (problem.new ≡ with_clauses problem.old (map (λ l. negated l ∷ []) lits.now)) }
{
    for lit in lits {
        let clause = [lit.negated()];
        problem.add_clause_of(&clause)?;
    }
    Ok(())
}

/// Says that the literal is true where one of the others is.
fn push_each(lit: Lit, lits: &[Lit], problem: &mut Problem) -> Result<(), Memory>
    requires first { IsLitOf problem.old.vars lit }
    requires second { AreLitsOf problem.old.vars lits.now }
    ensures { OnOk result (problem.new ≡ with_clauses problem.old (map (λ l. lit ∷ negated l ∷ []) lits.now)) }
{
    for other in lits {
        let clause = [lit, other.negated()];
        problem.add_clause_of(&clause)?;
    }
    Ok(())
}

/// The literal before the others.
fn before(alloc: Global, lit: Lit, lits: &[Lit]) -> Result<Vec<Lit>, Memory>
    ensures { IfOk result (λ c. c.items ≡ lit ∷ lits.now) }
{
    let mut clause = Vec::new(alloc);
    clause.push(lit)?;
    clause.extend_from_slice(lits)?;
    Ok(clause)
}

/// Says that the literal is true exactly where one of the others is.
fn push_join(alloc: Global, lit: Lit, lits: &[Lit], problem: &mut Problem) -> Result<(), Memory>
    requires first { IsLitOf problem.old.vars lit }
    requires second { AreLitsOf problem.old.vars lits.now }
    ensures { OnOk result (problem.new ≡ with_clauses problem.old (clauses_of_join false lit lits.now)) }
{
    push_each(lit, lits, problem)?;
    let clause = before(alloc, lit.negated(), lits)?;
    problem.add_clause_of(clause.as_slice())
}

/// Says that an atom is true exactly where one of the bodies is.
pub fn complete(
    alloc: Global,
    atom: Answer,
    bodies: &[Answer],
    problem: &mut Problem,
) -> Result<(), Memory>
    requires atom { AnswerWithin problem.old.vars atom }
    requires bodies { AreWithin problem.old.vars bodies.now }
    ensures made { OnOk result (problem.new ≡ completed atom bodies.now problem.old) }
    ensures vars { OnOk result (problem.new.vars ≡ problem.old.vars) }
{
    let mut lits = Vec::new(alloc);
    let settled = literals(bodies, &mut lits)?;
    match atom {
        Answer::Constant(true) => {
            if settled {
                Ok(())
            } else {
                problem.add_clause_of(lits.as_slice())
            }
        }
        Answer::Constant(false) => {
            if settled {
                problem.add_clause_of(&[])
            } else {
                push_none(lits.as_slice(), problem)
            }
        }
        Answer::Literal(lit) => {
            if settled {
                problem.add_clause_of(&[lit])
            } else {
                push_join(alloc, lit, lits.as_slice(), problem)
            }
        }
    }
}

/// Completes so many atoms, with the variables from `first` on.
pub fn complete_range(
    alloc: Global,
    base: &GroundData<'_>,
    bodies: &Bodies,
    first: u64,
    count: usize,
    problem: &mut Problem,
) -> Result<(), Memory>
    requires first { 1 ≤ first }
    requires few { first + count ≤ 2 ^ 63 }
    requires low { bodies.now.first ≤ first }
    requires high { first + count ≤ bodies.now.first + length bodies.now.lists.items }
    requires vars { first + count ≤ problem.old.vars + 1 }
    requires bodies { AllWithin problem.old.vars (lists_of bodies.now.lists) }
    ensures made { OnOk result ((told : List (ℕ × AnswerOf)) → HaveBodies told bodies.now.first
        (lists_of bodies.now.lists)
        → problem.new ≡ fold (complete_atom base.now told) problem.old (numbers_from first count)) }
    ensures vars { OnOk result (problem.new.vars ≡ problem.old.vars) }
{
    let start = (first - bodies.first) as usize;
    for place in 0..count {
        let var = first + place as u64;
        let known = base.known(var);
        let own = bodies.lists[start + place].as_slice();
        complete(alloc, Answer::of_atom(known, var), own, problem)?;
    }
    Ok(())
}
