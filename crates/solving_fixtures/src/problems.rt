//! Literals and problems.
ghost use Rattle.std.specs.Prelude.{◌≡◌, ◌+◌, [], length, IsTrue, IfOk, OnOk};
ghost use Rattle.ground_core.specs.Problems.{AreLitsOf, ArePartsOf};

use ground_core::{AtomTable, GroundTerm, Memory, Part, PartList, Problem};
use kb_logic::{AggKind, ElemList, ExtInt, Literal, LiteralList, Name};
use lit_core::{Clause, Lit, Var};
use std::alloc::Global;

/// The literal that the variable is true.
pub fn yes(var: u64) -> Lit {
    Lit {
        var: Var(var),
        positive: true,
    }
}

/// The literal that the variable is false.
pub fn no(var: u64) -> Lit {
    Lit {
        var: Var(var),
        positive: false,
    }
}

/// A problem with so many ground atoms.
pub fn problem_of(alloc: Global, atoms: u32) -> Result<Problem, Memory>
    ensures plain { IfOk result (λ p. (p.sums ≡ []) × (p.bounds ≡ [])) }
    ensures unnamed { IfOk result (λ p. (p.terms ≡ []) × (p.retired ≡ [])) }
{
    let mut list = LiteralList::new(alloc);
    for symbol in 0..atoms {
        list.push(Literal {
            positive: true,
            symbol,
            args: ElemList::new(alloc),
            value: None,
        })?;
    }
    Ok(Problem::new(alloc, AtomTable::from_list(list)))
}

/// Whether the literals have variables up to this one.
pub fn are_over(vars: u64, lits: &[Lit]) -> bool
    ensures { IsTrue result → AreLitsOf vars lits.now }
{
    lits.iter().all(|lit| 1 <= lit.var.0 && lit.var.0 <= vars)
}

/// Says a clause, if it is one of the problem.
pub fn say(alloc: Global, problem: &mut Problem, lits: &[Lit]) -> Result<(), Memory>
    ensures sums { problem.new.sums ≡ problem.old.sums }
    ensures bounds { problem.new.bounds ≡ problem.old.bounds }
    ensures terms { problem.new.terms ≡ problem.old.terms }
    ensures retired { problem.new.retired ≡ problem.old.retired }
{
    if are_over(problem.vars(), lits) {
        problem.add_clause(Clause::from_slice(alloc, lits)?)?;
    }
    Ok(())
}

/// Says the clauses. A literal that stands twice in one counts once.
fn say_all(alloc: Global, problem: &mut Problem, clauses: &[[Lit; 4]]) -> Result<(), Memory>
    ensures sums { problem.new.sums ≡ problem.old.sums }
    ensures bounds { problem.new.bounds ≡ problem.old.bounds }
    ensures terms { problem.new.terms ≡ problem.old.terms }
    ensures retired { problem.new.retired ≡ problem.old.retired }
{
    for lits in clauses {
        say(alloc, problem, lits.as_slice())?;
    }
    Ok(())
}

/// The problem of these clauses, with so many ground atoms.
pub fn said(alloc: Global, atoms: u32, clauses: &[[Lit; 4]]) -> Result<Problem, Memory>
    ensures plain { IfOk result (λ p. (p.sums ≡ []) × (p.bounds ≡ [])) }
    ensures unnamed { IfOk result (λ p. (p.terms ≡ []) × (p.retired ≡ [])) }
{
    let mut problem = problem_of(alloc, atoms)?;
    say_all(alloc, &mut problem, clauses)?;
    Ok(problem)
}

/// Whether the parts have variables up to this one.
pub fn are_parts_over(vars: u64, parts: &[Part]) -> bool
    ensures { IsTrue result → ArePartsOf vars parts.now }
{
    parts
        .iter()
        .all(|part| 1 <= part.lit.var.0 && part.lit.var.0 <= vars)
}

/// Names what the parts come to as the next term. Parts of other variables count as out of memory.
pub fn name_term(
    alloc: Global,
    problem: &mut Problem,
    kind: AggKind,
    parts: Vec<Part>,
) -> Result<(), Memory>
    ensures one { OnOk result (length problem.new.terms ≡ length problem.old.terms + 1) }
    ensures vars { problem.new.vars ≡ problem.old.vars }
    ensures sums { problem.new.sums ≡ problem.old.sums }
    ensures bounds { problem.new.bounds ≡ problem.old.bounds }
    ensures retired { problem.new.retired ≡ problem.old.retired }
{
    if !are_parts_over(problem.vars(), parts.as_slice()) {
        return Err(Memory);
    }
    let name = Name::new(alloc, b"term")?;
    let term = GroundTerm {
        name,
        kind,
        base: 0,
        parts: PartList::from_vec(parts),
    };
    problem.add_term(term)
}

/// Says that the next variable is true where the parts come to at least the bound. Parts of other variables count as
/// out of memory.
pub fn say_sum(
    problem: &mut Problem,
    kind: AggKind,
    parts: Vec<Part>,
    least: ExtInt,
) -> Result<(), Memory>
    ensures bounds { problem.new.bounds ≡ problem.old.bounds }
    ensures terms { problem.new.terms ≡ problem.old.terms }
    ensures retired { problem.new.retired ≡ problem.old.retired }
{
    if !are_parts_over(problem.vars(), parts.as_slice()) {
        return Err(Memory);
    }
    let _out = problem.add_sum(kind, PartList::from_vec(parts), least)?;
    Ok(())
}
