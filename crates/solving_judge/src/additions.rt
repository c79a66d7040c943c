//! Questions to a solver, and what is added to it, whichever it is.
ghost use Rattle.std.specs.Prelude.{◌≡◌, false, IsTrue, IfOk, IfSome, Contains};
ghost use Rattle.lit_core.specs.Literals.{valuation};
ghost use Rattle.ground_core.specs.Meaning.{Satisfies};
ghost use Rattle.solving_judge.specs.Answering.{IsFound};
ghost use Rattle.solving_judge.specs.Marking.{AreMarks};
ghost use Rattle.solving_judge.specs.Sayings.{IsFirstValue};

use crate::faults::Fault;
use ground_core::{Budget, Grow, Halt, LitList, Verdict};
use kb_logic::ExtInt;
use lit_core::{Lit, Values};
use solving_fixtures::are_over;

/// What is added to a solver, and what is given up.
#[derive(Drop)]
pub enum Event {
    /// The term is below the number.
    Bound(u32, i64),
    /// The ground atoms differ from these values.
    Exclusion(Values),
    /// The selector of this variable is false for good.
    Retired(u64),
}

/// What is known of a solver's problem: how much it has, its selectors, and those that are retired.
#[derive(Drop)]
pub struct Marks {
    pub atoms: usize,
    pub vars: u64,
    pub terms: usize,
    pub selectors: Vec<Lit>,
    pub retired: Vec<Lit>,
}

/// What a search found.
#[derive(Drop)]
pub enum Found {
    /// Values, and what the first term comes to, if there is one.
    Values(Values, Option<ExtInt>),
    Core(LitList),
    /// The limit was reached.
    Nothing,
}

/// What a search found, and how many clauses it learnt.
#[derive(Drop)]
pub struct Answer {
    pub found: Found,
    pub spent: u64,
}

/// Whether none of the literals is among the others.
fn are_apart(lits: &[Lit], others: &[Lit]) -> bool
    ensures { IsTrue result → (l : Lit) → Contains others.now l → Contains lits.now l → ⊥ }
{
    lits.iter()
        .all(|lit| !others.iter().any(|other| *other == *lit))
}

/// What the first term comes to under values of the problem.
fn first_value<S: Grow>(solver: &S, marks: &Marks, values: &Values) -> Option<ExtInt>
    requires marks { AreMarks (S.state solver.now).problem marks.now }
    requires satisfied { Satisfies (S.state solver.now).problem (valuation values.now) }
    ensures { IsFirstValue (S.state solver.now).problem (valuation values.now) result }
{
    if marks.terms == 0 {
        return None;
    }
    Some(solver.value(0, values))
}

/// Asks a question, if it is one of the solver's problem.
pub fn ask<S: Grow>(
    solver: &mut S,
    marks: &Marks,
    assume: &[Lit],
    limit: Option<u64>,
) -> Result<Answer, Fault>
    requires marks { AreMarks (S.state solver.old).problem marks.now }
    ensures found { IfOk result (λ a. IsFound (S.state solver.old).problem assume.now a.found) }
    ensures problem { (S.state solver.new).problem ≡ (S.state solver.old).problem }
{
    if !are_over(marks.vars, assume) {
        return Err(Fault::Literal);
    }
    if !are_apart(assume, &marks.retired) {
        return Err(Fault::Retired);
    }
    let mut budget = Budget { limit, spent: 0 };
    let found = match solver.solve(assume, &mut budget) {
        Ok(Verdict::Sat(values)) => {
            let value = first_value(solver, marks, &values);
            Found::Values(values, value)
        }
        Ok(Verdict::Unsat(core)) => Found::Core(core),
        Err(Halt::Spent) => Found::Nothing,
        Err(Halt::Memory) => return Err(Fault::Memory),
    };
    Ok(Answer {
        found,
        spent: budget.spent,
    })
}

/// Adds a bound on a term.
fn bound<S: Grow>(solver: &mut S, marks: &mut Marks, term: u32, below: i64) -> Result<(), Fault>
    requires marks { AreMarks (S.state solver.old).problem marks.old }
    ensures marks { AreMarks (S.state solver.new).problem marks.new }
{
    if term as usize >= marks.terms {
        return Err(Fault::Term);
    }
    solver.known();
    marks.selectors.reserve(1)?;
    let selector = solver.bound(term, ExtInt::Num(below))?;
    marks.vars = selector.var.0;
    marks.selectors.push_reserved(selector);
    Ok(())
}

/// Excludes values.
fn exclude<S: Grow>(solver: &mut S, marks: &mut Marks, values: &Values) -> Result<(), Fault>
    requires marks { AreMarks (S.state solver.old).problem marks.old }
    ensures marks { AreMarks (S.state solver.new).problem marks.new }
{
    if marks.atoms >= values.len() {
        return Err(Fault::Values);
    }
    solver.known();
    marks.selectors.reserve(1)?;
    let selector = solver.exclude(values)?;
    marks.vars = selector.var.0;
    marks.selectors.push_reserved(selector);
    Ok(())
}

/// Whether the literal is among the others.
fn is_among(lits: &[Lit], lit: Lit) -> bool
    ensures there { IsTrue result → Contains lits.now lit }
    ensures nowhere { result ≡ false → Contains lits.now lit → ⊥ }
{
    lits.iter().any(|other| *other == lit)
}

/// The selector of this variable.
fn selector_of(selectors: &[Lit], var: u64) -> Option<Lit>
    ensures { IfSome result (Contains selectors.now) }
{
    for selector in selectors {
        if selector.var.0 == var {
            return Some(*selector);
        }
    }
    None
}

/// Retires the selector of this variable.
fn retire<S: Grow>(solver: &mut S, marks: &mut Marks, var: u64) -> Result<(), Fault>
    requires marks { AreMarks (S.state solver.old).problem marks.old }
    ensures marks { AreMarks (S.state solver.new).problem marks.new }
{
    let Some(selector) = selector_of(&marks.selectors, var) else {
        return Err(Fault::Selector);
    };
    marks.retired.reserve(1)?;
    solver.retire(selector);
    if !is_among(&marks.retired, selector) {
        marks.retired.push_reserved(selector);
    }
    Ok(())
}

/// Adds what is added, or gives it up.
pub fn apply<S: Grow>(solver: &mut S, marks: &mut Marks, event: &Event) -> Result<(), Fault>
    requires marks { AreMarks (S.state solver.old).problem marks.old }
    ensures marks { AreMarks (S.state solver.new).problem marks.new }
{
    match event {
        Event::Bound(term, below) => bound(solver, marks, *term, *below),
        Event::Exclusion(values) => exclude(solver, marks, values),
        Event::Retired(var) => retire(solver, marks, *var),
    }
}
