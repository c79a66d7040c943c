//! The literals to begin with.
ghost use Rattle.std.specs.Prelude.{◌≡◌, IfOk, MatchOption};
ghost use Rattle.derivation_log.specs.Steps.{HasOpposites};
ghost use Rattle.case_derivations.specs.Once.{IsOnceOf};

use ground_core::Memory;
use lit_core::Lit;
use log_checker::LiteralSet;
use std::alloc::Global;

/// The literals, each once; None where one is there with its negation.
pub fn each_once(alloc: Global, lits: &[Lit]) -> Result<Option<Vec<Lit>>, Memory>
    ensures { IfOk result (λ o. MatchOption o (HasOpposites lits.now) (λ v. IsOnceOf lits.now v.items)) }
{
    let mut set = LiteralSet::new(alloc);
    let mut chosen = Vec::new(alloc);
    for lit in lits {
        if set.has(lit.negated()) {
            return Ok(None);
        }
        if set.has(*lit) {
            continue;
        }
        set.mark(*lit)?;
        chosen.push(*lit)?;
    }
    Ok(Some(chosen))
}
