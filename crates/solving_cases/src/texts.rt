//! What is printed.
use crate::drawing::Tally;
use conflict_analysis::{Analysis, Refuted};
use lit_core::Lit;
use solving_judge::asking::{Outcome, Wrong};
use std::alloc::{AllocError, Global};

fn name_of(wrong: Wrong) -> &'static str {
    match wrong {
        Wrong::Verdict => "brute force answers otherwise",
        Wrong::Values => "the values do not hold",
        Wrong::Term => "the term comes to something else",
        Wrong::Core => "the core is none of the assumptions",
        Wrong::Refutation => "the core is not refuted",
        Wrong::Limit => "more is learnt than the limit allows",
        Wrong::Stop => "it stopped before the limit",
        Wrong::Limits => "it answers under a smaller limit alone",
        Wrong::Anew => "made anew it answers otherwise",
    }
}

fn wrong_text(alloc: Global, wrong: Wrong) -> Result<String, AllocError> {
    let name = name_of(wrong);
    format!(in alloc; "wrong: {name}")
}

/// The outcome of a question.
pub fn outcome_text(alloc: Global, outcome: Outcome, blame: bool) -> Result<String, AllocError> {
    match outcome {
        Outcome::Sat => String::from_str(alloc, "sat"),
        Outcome::Unsat(count) if blame => format!(in alloc; "unsat {count}"),
        Outcome::Unsat(_) => String::from_str(alloc, "unsat"),
        Outcome::Spent => String::from_str(alloc, "spent"),
        Outcome::Wrong(why) => wrong_text(alloc, why),
    }
}

/// How often each verdict came.
pub fn tally_text(alloc: Global, tally: Tally) -> Result<String, AllocError> {
    if let Some(why) = tally.wrong {
        return wrong_text(alloc, why);
    }
    let sat = tally.sat;
    let unsat = tally.unsat;
    let limited = tally.limited;
    format!(in alloc; "{sat} sat, {unsat} unsat, {limited} under limits")
}

/// Numbers with blanks between them, or that there are none.
pub fn numbers_text(alloc: Global, numbers: &[u64]) -> Result<String, AllocError> {
    if numbers.is_empty() {
        return String::from_str(alloc, "none");
    }
    let mut text = String::new(alloc);
    for number in numbers {
        if !text.is_empty() {
            text.push_str(" ")?;
        }
        text.push_str(format!(in alloc; "{number}")?.as_str())?;
    }
    Ok(text)
}

/// Literals as DIMACS has them, with blanks between them.
pub fn lits_text(alloc: Global, lits: &[Lit]) -> Result<String, AllocError> {
    let mut text = String::new(alloc);
    for lit in lits {
        if !text.is_empty() {
            text.push_str(" ")?;
        }
        if !lit.positive {
            text.push_str("-")?;
        }
        let var = lit.var.0;
        text.push_str(format!(in alloc; "{var}")?.as_str())?;
    }
    Ok(text)
}

/// Decisions that are blamed, and the clauses by which they are.
pub fn refuted_text(alloc: Global, refuted: &Refuted) -> Result<String, AllocError> {
    let lits = lits_text(alloc, &refuted.lits)?;
    let hints = numbers_text(alloc, &refuted.hints)?;
    format!(in alloc; "{lits} from {hints}")
}

/// A learnt clause, the level at which it is unit, and from how many clauses it follows.
pub fn learnt_text(alloc: Global, analysis: &Analysis) -> Result<String, AllocError> {
    let clause = lits_text(alloc, &analysis.clause)?;
    let level = analysis.level;
    let hints = analysis.hints.len();
    format!(in alloc; "{clause} at {level} from {hints}")
}
