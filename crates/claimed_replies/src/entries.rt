//! One claim, where a clause shows it.
ghost use Rattle.std.specs.Prelude.{◌≡◌, Some, IfOk, OnOk};
ghost use Rattle.std.specs.Option.{IfSome};
ghost use Rattle.kb_logic.specs.Models.{IsAtomOver, atom_of};
ghost use Rattle.derivation_log.specs.Lines.{entry_text};
ghost use Rattle.derivation_log.specs.declared.entries.Entry.{Entry as AnEntry};
ghost use Rattle.claimed_replies.specs.Claims.{SaysForced, SaysInconsistent, SaysLeast};

use chooser::Choose;
use clause_learning::Solver;
use derivation_log::{Entry, write_entry};
use ground_core::LitList;
use ground_task::Task;
use kb_logic::{ExtInt, ListOf, Literal, Memory};
use lit_core::Lit;
use std::alloc::Global;

/// The literals as a list of its own.
fn list_of(alloc: Global, lits: &[Lit]) -> Result<LitList, Memory>
    ensures { IfOk result (λ list. list ≡ lits.now) }
{
    Ok(ListOf::from_vec(lits.to_vec(alloc)?))
}

// An entry has lists of its own, so that each way out of whoever holds one gives them up: here it has one.
/// The text of the entry, if there is one.
pub fn text_of(alloc: Global, found: &Option<Entry>) -> Result<Option<Vec<u8>>, Memory>
    ensures { IfOk result (λ text. IfSome text
        (λ bytes. (e : AnEntry) × (found.now ≡ Some e) × (bytes.items ≡ entry_text e))) }
{
    match found {
        Some(entry) => {
            let mut text = Vec::new(alloc);
            write_entry(&mut text, entry)?;
            Ok(Some(text))
        }
        None => Ok(None),
    }
}

/// The claim that nothing makes the literals true.
pub fn inconsistent<C: Choose + Drop>(
    alloc: Global,
    task: &Task<Solver<C>>,
    lits: &[Lit],
) -> Result<Option<Entry>, Memory>
    ensures { IfOk result (λ found. IfSome found (SaysInconsistent lits.now)) }
{
    match task.clause_of(lits)? {
        Some(clause) => Ok(Some(Entry::Inconsistent(list_of(alloc, lits)?, clause))),
        None => Ok(None),
    }
}

/// The number of a clause by which the literals and this one are not all true.
fn clause_with<C: Choose + Drop>(
    task: &Task<Solver<C>>,
    lits: &mut Vec<Lit>,
    lit: Lit,
) -> Result<Option<u64>, Memory>
    ensures { OnOk result (lits.new.items ≡ lits.old.items) }
{
    lits.push(lit)?;
    let clause = task.clause_of(lits.as_slice())?;
    lits.pop();
    Ok(clause)
}

/// The number of a clause by which the literal follows from the literals; 0 where it is one of them.
fn clause_for<C: Choose + Drop>(
    task: &Task<Solver<C>>,
    lits: &mut Vec<Lit>,
    lit: Lit,
) -> Result<Option<u64>, Memory>
    ensures { OnOk result (lits.new.items ≡ lits.old.items) }
{
    if lits.as_slice().iter().any(|other| *other == lit) {
        return Ok(Some(0));
    }
    clause_with(task, lits, lit.negated())
}

/// The claim that what makes the literals true makes this literal true.
pub fn forced<C: Choose + Drop>(
    alloc: Global,
    task: &Task<Solver<C>>,
    lits: &mut Vec<Lit>,
    literal: &Literal,
) -> Result<Option<Entry>, Memory>
    requires { IsAtomOver task.now.numbers.vocabulary.symbols task.now.numbers.domains (atom_of literal.now) }
    ensures kept { OnOk result (lits.new.items ≡ lits.old.items) }
    ensures says { IfOk result (λ found. IfSome found (SaysForced task.now.numbers lits.old.items literal.now)) }
{
    let lit = task.lit_of(literal);
    match clause_for(task, lits, lit)? {
        Some(clause) => Ok(Some(Entry::Forced(lit, list_of(alloc, lits.as_slice())?, clause))),
        None => Ok(None),
    }
}

/// The claim that nothing that makes the literals true gives the term a lower value, by the bound that was added last.
pub fn least<C: Choose + Drop>(
    alloc: Global,
    task: &Task<Solver<C>>,
    lits: &mut Vec<Lit>,
    term: u32,
    value: ExtInt,
) -> Result<Option<Entry>, Memory>
    ensures { IfOk result (λ found. IfSome found (SaysLeast lits.old.items term value)) }
{
    let Some(number) = term.checked_add(1) else {
        return Ok(None);
    };
    let Some(selector) = task.last_bound() else {
        return Ok(None);
    };
    match clause_with(task, lits, selector)? {
        Some(clause) => {
            let lits = list_of(alloc, lits.as_slice())?;
            Ok(Some(Entry::Least(number, value, lits, clause)))
        }
        None => Ok(None),
    }
}
