//! Entries that bear clauses.
ghost use Rattle.std.specs.Prelude.{◌≡◌, ◌++◌, [], ◌∷◌, IfOk, OnOk, length, map};
ghost use Rattle.lit_core.specs.Literals.{negated};
ghost use Rattle.lit_core.specs.Refutation.{IsOpenUnder};
ghost use Rattle.ground_core.specs.Problems.{AreLitsOf};
ghost use Rattle.derivation_log.specs.Lines.{entry_text};
ghost use Rattle.derivation_log.specs.Steps.{LogStep, HasNoOpposites, after};
ghost use Rattle.log_checker.specs.Growing.{known};
ghost use Rattle.log_checker.specs.Cases.{FailsAt, IsFalseAt};
ghost use Rattle.case_derivations.specs.Adding.{Adds};
ghost use Rattle.case_derivations.specs.OpenCases.{IsShut};

use crate::open_cases::Case;
use derivation_log::{Entry, NumberList, write_entry};
use ground_core::{LitList, Memory};
use lit_core::Lit;
use log_checker::Checker;
use std::alloc::Global;

/// The clause of the negations of these literals.
fn negations(alloc: Global, lits: &[Lit]) -> Result<LitList, Memory>
    ensures { IfOk result (λ c. c ≡ map negated lits.now) }
{
    let mut clause = LitList::new(alloc);
    for lit in lits {
        clause.push(lit.negated())?;
    }
    Ok(clause)
}

/// Two numbers.
fn both(alloc: Global, first: u64, second: u64) -> Result<NumberList, Memory>
    ensures { IfOk result (λ ns. ns ≡ first ∷ second ∷ []) }
{
    let mut numbers = NumberList::new(alloc);
    numbers.push(first)?;
    numbers.push(second)?;
    Ok(numbers)
}

/// Adds an entry, and appends its text. The number of the last clause then.
fn add(checker: &mut Checker, text: &mut Vec<u8>, entry: Entry) -> Result<u64, Memory>
    requires { LogStep checker.old.problem checker.old.state entry }
    ensures state { OnOk result (checker.new ≡ known checker.old.problem (after checker.old.state entry)) }
    ensures text { OnOk result (text.new.items ≡ text.old.items ++ entry_text entry) }
    ensures last { IfOk result (λ n. n ≡ length checker.new.state.clauses) }
    ensures problem { checker.new.problem ≡ checker.old.problem }
{
    write_entry(text, &entry)?;
    checker.add(entry)?;
    Ok(checker.clause_count())
}

/// Adds the clause of the negations of these literals, under which this constraint cannot hold.
pub fn add_sum(
    alloc: Global,
    checker: &mut Checker,
    text: &mut Vec<u8>,
    inforce: &[Lit],
    number: u64,
) -> Result<u64, Memory>
    requires literals { AreLitsOf checker.old.state.vars inforce.now }
    requires fine { HasNoOpposites inforce.now }
    requires fails { FailsAt checker.old inforce.now number }
    ensures adds { OnOk result (Adds checker.old checker.new text.old.items text.new.items) }
    ensures bears { IfOk result (IsFalseAt checker.new.state.clauses inforce.now) }
    ensures problem { checker.new.problem ≡ checker.old.problem }
{
    // Asked for what its type says: that it is a number of 64 bits, so that each of the literals has a text.
    let _vars = checker.vars();
    let clause = negations(alloc, inforce)?;
    add(checker, text, Entry::Sum(number, clause))
}

/// Adds the clause of the negations of these literals, where in both cases of one more literal a clause is false.
pub fn add_resolvent(
    alloc: Global,
    checker: &mut Checker,
    text: &mut Vec<u8>,
    inforce: &[Lit],
    case: Case,
    number: u64,
) -> Result<u64, Memory>
    requires literals { AreLitsOf checker.old.state.vars inforce.now }
    requires fine { HasNoOpposites inforce.now }
    requires case { IsOpenUnder inforce.now case.lit }
    requires first { IsShut checker.old.state.clauses inforce.now (negated case.lit) case.other }
    requires second { IsFalseAt checker.old.state.clauses (inforce.now ++ case.lit ∷ []) number }
    ensures adds { OnOk result (Adds checker.old checker.new text.old.items text.new.items) }
    ensures bears { IfOk result (IsFalseAt checker.new.state.clauses inforce.now) }
    ensures problem { checker.new.problem ≡ checker.old.problem }
{
    // Asked for what its type says, as above.
    let _vars = checker.vars();
    let clause = negations(alloc, inforce)?;
    let hints = both(alloc, case.other, number)?;
    add(checker, text, Entry::Learnt(clause, hints))
}
