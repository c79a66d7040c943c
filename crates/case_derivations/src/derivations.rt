//! A clause that follows, derived by cases.
ghost use Rattle.std.specs.Prelude.{◌≡◌, ◌++◌, List, flat_map, IfOk};
ghost use Rattle.ground_core.specs.Problems.{AreLitsOf};
ghost use Rattle.derivation_log.specs.declared.entries.Entry.{Entry};
ghost use Rattle.derivation_log.specs.Lines.{entry_text};
ghost use Rattle.derivation_log.specs.Steps.{Cites};
ghost use Rattle.log_checker.specs.Cases.{IsRefuted, Derives};

use crate::each_once::each_once;
use crate::walking::walk;
use ground_core::Memory;
use lit_core::Lit;
use log_checker::Checker;
use std::alloc::Global;

/// Derives by cases a clause whose literals are negations of these, which nothing admits, and appends the texts of the
/// entries. Its number; 0 where a literal is there with its negation.
pub fn derive(
    alloc: Global,
    checker: &mut Checker,
    text: &mut Vec<u8>,
    lits: &[Lit],
) -> Result<u64, Memory>
    requires literals { AreLitsOf checker.old.state.vars lits.now }
    requires refuted { IsRefuted checker.old lits.now }
    ensures derives { IfOk result (λ c. (es : List Entry) × Derives checker.old checker.new es
        × (text.new.items ≡ text.old.items ++ flat_map entry_text es)) }
    ensures cites { IfOk result (λ c. Cites checker.new.state lits.now (λ m. ⊥) c) }
    ensures problem { checker.new.problem ≡ checker.old.problem }
{
    let Some(chosen) = each_once(alloc, lits)? else {
        return Ok(0);
    };
    match walk(alloc, checker, text, &chosen)? {
        Some(number) => Ok(number),
        None => unreachable!(),
    }
}
