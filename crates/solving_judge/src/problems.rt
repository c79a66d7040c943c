//! Problems that lines say.
ghost use Rattle.std.specs.Prelude.{◌≡◌, [], IfOk};

use crate::faults::Fault;
use crate::rules::Rule;
use ground_core::{GroundTerm, LitList, Part, PartList, Problem};
use kb_logic::{AggKind, ExtInt, Name};
use lit_core::Lit;
use solving_fixtures::{are_over, are_parts_over, problem_of};
use std::alloc::Global;

/// What is said of a problem.
#[derive(Drop)]
pub enum Said {
    Clause(Vec<Lit>),
    /// Whether all of the parts, or any, make the next variable true.
    Gate(bool, Vec<Lit>),
    /// The next variable is true where the two literals have one value.
    Same(Lit, Lit),
    /// The next variable is true where the parts come to at least the bound.
    Sum(AggKind, ExtInt, Vec<Part>),
    Term(AggKind, i64, Vec<Part>),
}

/// What is said of a problem, and the rule of those who solve it.
#[derive(Drop)]
pub struct Spoken {
    pub rule: Rule,
    pub atoms: u32,
    pub said: Vec<Said>,
}

fn add_gate(alloc: Global, problem: &mut Problem, all: bool, lits: &[Lit]) -> Result<(), Fault>
    ensures bounds { problem.new.bounds ≡ problem.old.bounds }
    ensures retired { problem.new.retired ≡ problem.old.retired }
{
    if !are_over(problem.vars(), lits) {
        return Err(Fault::Literal);
    }
    let parts = LitList::from_vec(Vec::from_slice(alloc, lits)?);
    let _out = problem.add_gate(all, parts)?;
    Ok(())
}

fn add_same(alloc: Global, problem: &mut Problem, a: Lit, b: Lit) -> Result<(), Fault>
    ensures bounds { problem.new.bounds ≡ problem.old.bounds }
    ensures retired { problem.new.retired ≡ problem.old.retired }
{
    let vars = problem.vars();
    if a.var.0 == 0 || b.var.0 == 0 || a.var.0 > vars || b.var.0 > vars {
        return Err(Fault::Literal);
    }
    let _out = problem.add_same(alloc, a, b)?;
    Ok(())
}

fn add_sum(
    alloc: Global,
    problem: &mut Problem,
    kind: AggKind,
    least: ExtInt,
    parts: &[Part],
) -> Result<(), Fault>
    ensures bounds { problem.new.bounds ≡ problem.old.bounds }
    ensures retired { problem.new.retired ≡ problem.old.retired }
{
    if !are_parts_over(problem.vars(), parts) {
        return Err(Fault::Literal);
    }
    let parts = PartList::from_vec(Vec::from_slice(alloc, parts)?);
    let _out = problem.add_sum(kind, parts, least)?;
    Ok(())
}

fn add_term(
    alloc: Global,
    problem: &mut Problem,
    kind: AggKind,
    base: i64,
    parts: &[Part],
) -> Result<(), Fault>
    ensures bounds { problem.new.bounds ≡ problem.old.bounds }
    ensures retired { problem.new.retired ≡ problem.old.retired }
{
    if !are_parts_over(problem.vars(), parts) {
        return Err(Fault::Literal);
    }
    let name = Name::new(alloc, b"term")?;
    let parts = PartList::from_vec(Vec::from_slice(alloc, parts)?);
    problem.add_term(GroundTerm {
        name,
        kind,
        base,
        parts,
    })?;
    Ok(())
}

fn add_clause(problem: &mut Problem, lits: &[Lit]) -> Result<(), Fault>
    ensures bounds { problem.new.bounds ≡ problem.old.bounds }
    ensures retired { problem.new.retired ≡ problem.old.retired }
{
    if !are_over(problem.vars(), lits) {
        return Err(Fault::Literal);
    }
    problem.add_clause_of(lits)?;
    Ok(())
}

/// Says one thing more.
pub fn add(alloc: Global, problem: &mut Problem, said: &Said) -> Result<(), Fault>
    ensures bounds { problem.new.bounds ≡ problem.old.bounds }
    ensures retired { problem.new.retired ≡ problem.old.retired }
{
    match said {
        Said::Clause(lits) => add_clause(problem, lits),
        Said::Gate(all, parts) => add_gate(alloc, problem, *all, parts),
        Said::Same(a, b) => add_same(alloc, problem, *a, *b),
        Said::Sum(kind, least, parts) => add_sum(alloc, problem, *kind, *least, parts),
        Said::Term(kind, base, parts) => add_term(alloc, problem, *kind, *base, parts),
    }
}

/// The problem of which this is said.
pub fn made(alloc: Global, spoken: &Spoken) -> Result<Problem, Fault>
    ensures bounds { IfOk result (λ p. p.bounds ≡ []) }
    ensures retired { IfOk result (λ p. p.retired ≡ []) }
{
    let mut problem = problem_of(alloc, spoken.atoms)?;
    for it in &spoken.said {
        add(alloc, &mut problem, it)?;
    }
    Ok(problem)
}
