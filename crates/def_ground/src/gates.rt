//! Answers that are joined by what a problem defines.
//!
//! Formulas become clauses by Tseitin's encoding: what an operator with two operands and more comes to is a new
//! variable, a gate, which is defined in both directions. So the clauses stay linear in the formula, where multiplying
//! out `|` over `&` can double them at each level, and each model has exactly one valuation of the gates. Constants and
//! single literals are their own answers and make no gate.
ghost use Rattle.std.specs.Prelude.{◌≡◌, IfOk};
ghost use Rattle.def_ground.specs.Answers.{gate_of, AnswerWithin, Makes, Grows};
ghost use Rattle.def_ground.specs.Forms.{settles, with_answer, close_parts, same_of};
ghost use Rattle.ground_core.specs.Problems.{AreLitsOf};

use crate::answers::Answer;
use ground_core::{LitList, Memory, Problem};
use lit_core::Lit;
use std::alloc::Global;

/// Adds the answer of one more part of a conjunction (`all`), or of a disjunction. Whether it decides the
/// whole, whatever the other parts are.
pub fn add_part(all: bool, answer: Answer, lits: &mut Vec<Lit>) -> Result<bool, Memory>
    ensures { IfOk result (λ s. (s ≡ settles all answer) × (lits.new.items ≡ with_answer answer lits.old.items)) }
{
    match answer {
        Answer::Constant(value) => Ok(value != all),
        Answer::Literal(lit) => {
            lits.push(lit)?;
            Ok(false)
        }
    }
}

/// All, or any, of the literals: one alone is its own answer, and two and more are a gate.
pub fn gate(all: bool, lits: LitList, problem: &mut Problem) -> Result<Answer, Memory>
    requires { AreLitsOf problem.old.vars lits }
    ensures made { IfOk result (λ a. Makes (gate_of all lits problem.old) a problem.new) }
    ensures grows { IfOk result (λ a. Grows problem.old problem.new a) }
{
    let single = match lits.as_slice() {
        [] => Some(Answer::Constant(all)),
        [lit] => Some(Answer::Literal(*lit)),
        _ => None,
    };
    match single {
        Some(answer) => Ok(answer),
        None => Ok(Answer::Literal(problem.add_gate(all, lits)?)),
    }
}

/// Whether two answers have one value.
pub fn same(alloc: Global, a: Answer, b: Answer, problem: &mut Problem) -> Result<Answer, Memory>
    requires first { AnswerWithin problem.old.vars a }
    requires second { AnswerWithin problem.old.vars b }
    ensures made { IfOk result (λ r. Makes (same_of a b problem.old) r problem.new) }
    ensures grows { IfOk result (λ r. Grows problem.old problem.new r) }
{
    match (a, b) {
        (Answer::Constant(true), _) => Ok(b),
        (Answer::Constant(false), _) => Ok(b.opposite()),
        (Answer::Literal(_), Answer::Constant(true)) => Ok(a),
        (Answer::Literal(lit), Answer::Constant(false)) => Ok(Answer::Literal(lit.negated())),
        (Answer::Literal(l), Answer::Literal(m)) => {
            Ok(Answer::Literal(problem.add_same(alloc, l, m)?))
        }
    }
}

/// The whole conjunction (`all`), or disjunction: a constant where a part decides it, and else all, or any,
/// of the literals of its parts.
pub fn close(
    all: bool,
    settled: bool,
    lits: Vec<Lit>,
    problem: &mut Problem,
) -> Result<Answer, Memory>
    requires { AreLitsOf problem.old.vars lits.items }
    ensures made { IfOk result
        (λ a. Makes (close_parts all (record { settled = settled; lits = lits.items; problem = problem.old })) a
        problem.new) }
    ensures grows { IfOk result (λ a. Grows problem.old problem.new a) }
{
    if settled {
        Ok(Answer::Constant(!all))
    } else {
        gate(all, LitList::from_vec(lits), problem)
    }
}
