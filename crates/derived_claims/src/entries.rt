//! Entries that are added to a log, and their texts.
ghost use Rattle.std.specs.Prelude.{◌≡◌, ◌++◌, ◌∷◌, ◌+◌, [], IfOk, OnOk};
ghost use Rattle.ground_core.specs.Problems.{AreLitsOf};
ghost use Rattle.derivation_log.specs.Lines.{entry_text};
ghost use Rattle.derivation_log.specs.Steps.{LogStep, after, Cites};
ghost use Rattle.derivation_log.specs.Texts.{IsNumber, IsTerm};
ghost use Rattle.log_checker.specs.Growing.{known};
ghost use Rattle.log_checker.specs.Cases.{IsRefuted};
ghost use Rattle.log_checker.specs.Keeping.{IsKept};
ghost use Rattle.derived_claims.specs.Statements.{Derived, HasLower};

use case_derivations::derive;
use derivation_log::{Entry, write_entry};
use kb_logic::{ExtInt, Memory};
use lit_core::{Lit, Var};
use log_checker::Checker;
use std::alloc::Global;

/// Goes on by the entry, and appends its text.
pub fn put(checker: &mut Checker, text: &mut Vec<u8>, entry: Entry) -> Result<(), Memory>
    requires { LogStep checker.old.problem checker.old.state entry }
    ensures adds { OnOk result (checker.new ≡ known checker.old.problem (after checker.old.state entry)) }
    ensures text { OnOk result (text.new.items ≡ text.old.items ++ entry_text entry) }
{
    write_entry(text, &entry)?;
    checker.add(entry)?;
    Ok(())
}

/// Derives by cases a clause of negations of the literals and this one, all of which nothing admits.
pub fn derive_with(
    alloc: Global,
    checker: &mut Checker,
    text: &mut Vec<u8>,
    lits: &mut Vec<Lit>,
    lit: Lit,
) -> Result<u64, Memory>
    requires literals { AreLitsOf checker.old.state.vars (lits.old.items ++ lit ∷ []) }
    requires refuted { IsRefuted checker.old (lits.old.items ++ lit ∷ []) }
    ensures kept { OnOk result (lits.new.items ≡ lits.old.items) }
    ensures derives { OnOk result (Derived checker.old checker.new text.old.items text.new.items) }
    ensures cites { IfOk result (Cites checker.new.state (lits.old.items ++ lit ∷ []) (λ m. ⊥)) }
    ensures number { IfOk result IsNumber }
{
    lits.push(lit)?;
    let clause = derive(alloc, checker, text, lits.as_slice())?;
    lits.pop();
    Ok(clause)
}

/// The first variable that is not in use. One past the variables of 64 bits is answered as out of memory.
pub fn next_var(checker: &Checker) -> Result<Var, Memory>
    ensures next { IfOk result (λ s. s.0 ≡ checker.now.state.vars + 1) }
    ensures number { IfOk result (λ s. IsNumber s.0) }
{
    match checker.vars().checked_add(1) {
        Some(next) => Ok(Var(next)),
        None => Err(Memory),
    }
}

/// The number of the term in a log, which counts terms from 1 on. One of more than 32 bits is answered as out of
/// memory.
pub fn term_number(term: u32) -> Result<u32, Memory>
    ensures next { IfOk result (λ number. number ≡ term + 1) }
    ensures written { IfOk result IsTerm }
{
    match term.checked_add(1) {
        Some(number) => Ok(number),
        None => Err(Memory),
    }
}

// The checker is asked for something, so that what holds of its type is known.
/// What holds of a checker at any time.
pub fn is_kept(checker: &Checker)
    ensures { IsKept checker.now }
{
    let _vars = checker.vars();
}

/// Whether there are values below this one.
pub fn has_lower(value: ExtInt) -> bool
    ensures { HasLower value result }
{
    match value {
        ExtInt::NegInf => false,
        ExtInt::Num(_) => true,
        ExtInt::PosInf => true,
    }
}
