//! A log, entry by entry.
ghost use Rattle.std.specs.Prelude.{◌≡◌, ◌<◌, ◌≤◌, length, List, [], ◌∷◌, All, IfOk, IfErr, OnOk, OnErr};
ghost use Rattle.std.specs.Prelude.{MatchOption, drop, Some, None};
ghost use Rattle.derivation_log.specs.Checks.{IsAccepted, NoStepHere};
ghost use Rattle.derivation_log.specs.Claims.{ClaimHolds};
ghost use Rattle.log_checker.specs.Sets.{OnlyIn};
ghost use Rattle.log_checker.specs.States.{state_view};
ghost use Rattle.log_checker.specs.Growing.{Reaches};
ghost use Rattle.log_checker.specs.Verdicts.{Takes, ComesTo, RefusedFor};

use crate::advancing::{advance, started};
use crate::checked::Checked;
use crate::deciding::is_step;
use crate::literal_sets::LiteralSet;
use crate::refusals::Refused;
use derivation_log::{Claim, EntryError, read_entry};
use ground_core::{Memory, Problem};
use kb_logic::ListOf;
use std::alloc::Global;

/// What an accepted log claims, in the order of its entries.
#[derive(Drop)]
pub struct Claims {
    pub list: ListOf<Claim>,
}

/// Checks the entry that begins at `at`, and answers where it ends; None where no step begins there.
fn take(
    alloc: Global,
    p: &Problem,
    st: &mut Checked,
    set: &mut LiteralSet,
    log: &[u8],
    at: usize,
) -> Result<Option<usize>, Memory>
    requires inside { at < length log.now }
    requires clean { OnlyIn set.old [] }
    ensures takes { IfOk result (λ o. MatchOption o (NoStepHere p.now (state_view st.old) (drop at log.now)
        × (state_view st.new ≡ state_view st.old)) (λ next. Takes p.now (state_view st.old) log.now at next
        (state_view st.new))) }
    ensures clean { OnOk result (OnlyIn set.new []) }
    ensures err { OnErr result (state_view st.new ≡ state_view st.old) }
{
    let (e, next) = match read_entry(alloc, log, at) {
        Ok(found) => found,
        Err(EntryError::NotAnEntry) => return Ok(None),
        Err(EntryError::Memory) => return Err(Memory),
    };
    if !is_step(alloc, p, st, set, &e)? {
        return Ok(None);
    }
    advance(alloc, st, e)?;
    Ok(Some(next))
}

/// Where the steps of a log end.
#[derive(Clone, Copy)]
pub struct Reached {
    pub at: usize,
    /// Of the entry that would come next, from 1 on.
    pub number: u64,
}

/// Goes through the log as far as its entries are steps.
pub fn go_through(
    alloc: Global,
    p: &Problem,
    st: &mut Checked,
    log: &[u8],
) -> Result<Reached, Memory>
    ensures comes { IfOk result (λ r. ComesTo p.now (state_view st.old) log.now r.at (state_view st.new) r.number) }
    ensures reaches { Reaches p.now (state_view st.old) (state_view st.new) }
{
    let mut set = LiteralSet::new(alloc);
    let mut at = 0;
    let mut number: u64 = 1;
    while at < log.len() {
        match take(alloc, p, st, &mut set, log, at)? {
            Some(next) => {
                at = next;
                number += 1;
            }
            None => return Ok(Reached { at, number }),
        }
    }
    Ok(Reached { at, number })
}

/// Checks every entry: what the log claims, or the first entry that is no step.
pub fn verify(alloc: Global, p: &Problem, log: &[u8]) -> Result<Claims, Refused>
    ensures claims { IfOk result (λ cs. IsAccepted p.now log.now cs.list) }
    ensures entry { IfErr result (RefusedFor p.now log.now) }
    ensures truth { IfOk result (λ cs. All (ClaimHolds p.now) cs.list) }
{
    // Asked for what it says of the problem: that all names its own variables, on which the truth of the claims rests.
    let _vars = p.vars();
    let Ok(mut st) = started(alloc, p) else {
        return Err(Refused::Memory);
    };
    let Ok(reached) = go_through(alloc, p, &mut st, log) else {
        return Err(Refused::Memory);
    };
    if reached.at < log.len() {
        return Err(Refused::Entry(reached.number));
    }
    Ok(Claims {
        list: ListOf::from_vec(st.claims),
    })
}
