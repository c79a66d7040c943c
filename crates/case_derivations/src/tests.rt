//! Derivations, which a check of the whole log accepts.
ghost use Rattle.std.specs.Prelude.{IsTrue};
ghost use Rattle.ground_core.specs.Problems.{AreLitsOf, ArePartsOf};

use crate::each_once::each_once;
use crate::walking::walk;
use ground_core::{AtomTable, GroundTerm, Memory, Part, PartList, Problem};
use kb_logic::{AggKind, ElemList, ExtInt, Literal, LiteralList, Name};
use lit_core::{Lit, Var};
use log_checker::{Checker, verify};
use std::alloc::Global;
use std::test::Fail;

/// Where variable 7 is true, three pigeons of two variables each sit in two holes, and no two in one.
const CLAUSES: [[i64; 3]; 9] = [
    [1, 2, -7],
    [3, 4, -7],
    [5, 6, -7],
    [-1, -3, -7],
    [-1, -5, -7],
    [-3, -5, -7],
    [-2, -4, -7],
    [-2, -6, -7],
    [-4, -6, -7],
];

/// Variable 10 is true where the term is below 3.
const BOUND: &[u8] = b"q 1\nb 10 1 3\n";

/// Literals that nothing admits: by the pigeons, by the sum, by the bound, and by both of them.
const REFUTED: [[i64; 2]; 4] = [[7, 7], [9, -8], [10, 8], [10, 9]];

/// Literals that some valuation admits.
const ADMITTED: [[i64; 2]; 3] = [[-7, 9], [8, 9], [10, -8]];

fn lit_of(number: i64) -> Lit {
    Lit {
        var: Var(number.unsigned_abs()),
        positive: number > 0,
    }
}

/// Whether the literals are of these variables.
fn are_over(vars: u64, lits: &[Lit]) -> bool
    ensures { IsTrue result → AreLitsOf vars lits.now }
{
    lits.iter().all(|lit| 1 <= lit.var.0 && lit.var.0 <= vars)
}

/// A problem of eight ground atoms, of which nothing is said.
fn plain_problem(alloc: Global) -> Result<Problem, Memory> {
    let mut list = LiteralList::new(alloc);
    for symbol in 0..8 {
        list.push(Literal {
            positive: true,
            symbol,
            args: ElemList::new(alloc),
            value: None,
        })?;
    }
    Ok(Problem::new(alloc, AtomTable::from_list(list)))
}

fn say(problem: &mut Problem, clause: [i64; 3]) -> Result<(), Memory> {
    let lits = [lit_of(clause[0]), lit_of(clause[1]), lit_of(clause[2])];
    if are_over(problem.vars(), &lits) {
        problem.add_clause_of(&lits)?;
    }
    Ok(())
}

/// Whether the parts are of these variables.
fn are_parts_over(vars: u64, parts: &[Part]) -> bool
    ensures { IsTrue result → ArePartsOf vars parts.now }
{
    parts
        .iter()
        .all(|part| 1 <= part.lit.var.0 && part.lit.var.0 <= vars)
}

/// The weight 5 of variable 8.
fn weight(alloc: Global) -> Result<PartList, Memory> {
    let mut parts = PartList::new(alloc);
    parts.push(Part {
        lit: lit_of(8),
        weight: 5,
    })?;
    Ok(parts)
}

/// Variable 9 is true where the weight comes to 3.
fn say_sum(problem: &mut Problem, parts: PartList) -> Result<(), Memory> {
    if are_parts_over(problem.vars(), parts.as_slice()) {
        let _out = problem.add_sum(AggKind::Sum, parts, ExtInt::Num(3))?;
    }
    Ok(())
}

/// The weight is the value of a term.
fn say_term(alloc: Global, problem: &mut Problem, parts: PartList) -> Result<(), Memory> {
    if are_parts_over(problem.vars(), parts.as_slice()) {
        problem.add_term(GroundTerm {
            name: Name::new(alloc, b"term")?,
            kind: AggKind::Sum,
            base: 0,
            parts,
        })?;
    }
    Ok(())
}

fn say_all(alloc: Global, problem: &mut Problem) -> Result<(), Memory> {
    for clause in &CLAUSES {
        say(problem, *clause)?;
    }
    say_sum(problem, weight(alloc)?)?;
    say_term(alloc, problem, weight(alloc)?)
}

/// The problem of the clauses, the sum and the term.
fn whole_problem(alloc: Global) -> Result<Problem, Memory> {
    let mut problem = plain_problem(alloc)?;
    say_all(alloc, &mut problem)?;
    Ok(problem)
}

/// What comes of the walk from the two literals: whether they are refuted. Others than of the checker count as out of
/// memory.
fn is_refuted(
    alloc: Global,
    checker: &mut Checker,
    text: &mut Vec<u8>,
    row: &[i64; 2],
) -> Result<bool, Memory> {
    let lits = [lit_of(row[0]), lit_of(row[1])];
    let Some(chosen) = each_once(alloc, &lits)? else {
        return Err(Memory);
    };
    if !are_over(checker.vars(), &chosen) {
        return Err(Memory);
    }
    Ok(walk(alloc, checker, text, &chosen)?.is_some())
}

/// Whether the rows come out so.
fn come_out(
    alloc: Global,
    checker: &mut Checker,
    text: &mut Vec<u8>,
    rows: &[[i64; 2]],
    refuted: bool,
) -> Result<bool, Memory> {
    for row in rows {
        if is_refuted(alloc, checker, text, row)? != refuted {
            return Ok(false);
        }
    }
    Ok(true)
}

/// Whether all rows come out as they should, behind the bound.
fn all_come_out(alloc: Global, checker: &mut Checker, text: &mut Vec<u8>) -> Result<bool, Memory> {
    text.extend_from_slice(BOUND)?;
    Ok(
        checker.go_on(1, BOUND)?
            && come_out(alloc, checker, text, &REFUTED, true)?
            && come_out(alloc, checker, text, &ADMITTED, false)?,
    )
}

/// The log of the whole problem, empty where a row comes out otherwise.
fn whole_log(alloc: Global) -> Result<Vec<u8>, Memory> {
    let mut text = Vec::new(alloc);
    let mut checker = Checker::begin(alloc, whole_problem(alloc)?)?;
    if !all_come_out(alloc, &mut checker, &mut text)? {
        text.truncate(0);
    }
    Ok(text)
}

/// Whether there is a log, and a check accepts it.
fn is_accepted(alloc: Global, problem: &Problem, log: &[u8]) -> bool {
    match verify(alloc, problem, log) {
        Ok(_) => !log.is_empty(),
        Err(_) => false,
    }
}

#[test]
fn what_is_derived_is_accepted(rt: HostRuntime) -> Result<(), Fail> {
    let log = whole_log(rt.alloc())?;
    let problem = whole_problem(rt.alloc())?;
    assert!(rt; is_accepted(rt.alloc(), &problem, &log));
    Ok(())
}
