//! The claims that belong to a reply.
ghost use Rattle.std.specs.Prelude.{◌≡◌, List, flat_map, IfOk};
ghost use Rattle.std.specs.Option.{IfSome};
ghost use Rattle.kb_logic.specs.Structures.{EachWith};
ghost use Rattle.derivation_log.specs.Lines.{entry_text};
ghost use Rattle.derivation_log.specs.declared.entries.Entry.{Entry};
ghost use Rattle.ground_task.specs.Choices.{AreOver};
ghost use Rattle.claimed_replies.specs.Claims.{AreClaims, AreForcedOver, AreLeastClaims, IsTheClaim};
ghost use Rattle.claimed_replies.specs.Claims.{SaysForced, SaysInconsistent};

use crate::entries::{forced, inconsistent, least, text_of};
use chooser::Choose;
use clause_learning::Solver;
use consult_text::{Command, Reply};
use ground_task::Task;
use kb_logic::{ExtInt, Literal, Memory};
use lit_core::Lit;
use std::alloc::Global;

/// The claim of `inconsistent`.
fn of_inconsistent<C: Choose + Drop>(
    alloc: Global,
    task: &Task<Solver<C>>,
    lits: &[Lit],
) -> Result<Option<Vec<u8>>, Memory>
    ensures { IfOk result (λ found. IfSome found (λ bytes. (es : List Entry)
        × IsTheClaim (SaysInconsistent lits.now) es × (bytes.items ≡ flat_map entry_text es))) }
{
    let found = inconsistent(alloc, task, lits)?;
    text_of(alloc, &found)
}

/// The claims of `forced`, one for each literal.
fn of_forced<C: Choose + Drop>(
    alloc: Global,
    task: &Task<Solver<C>>,
    lits: &mut Vec<Lit>,
    literals: &[Literal],
) -> Result<Option<Vec<u8>>, Memory>
    requires { AreOver task.now.numbers literals.now }
    ensures { IfOk result (λ found. IfSome found (λ bytes. (es : List Entry)
        × EachWith (SaysForced task.now.numbers lits.old.items) literals.now es
        × (bytes.items ≡ flat_map entry_text es))) }
{
    let mut bytes = Vec::new(alloc);
    for literal in literals {
        let found = forced(alloc, task, lits, literal)?;
        let Some(text) = text_of(alloc, &found)? else {
            return Ok(None);
        };
        bytes.extend_from_slice(&text)?;
    }
    Ok(Some(bytes))
}

/// The claim of `minimum`; none where the value is `-inf`, below which there is none.
fn of_minimum<C: Choose + Drop>(
    alloc: Global,
    task: &Task<Solver<C>>,
    lits: &mut Vec<Lit>,
    term: u32,
    value: ExtInt,
) -> Result<Option<Vec<u8>>, Memory>
    ensures { IfOk result (λ found. IfSome found (λ bytes. (es : List Entry)
        × AreLeastClaims lits.old.items term value es × (bytes.items ≡ flat_map entry_text es))) }
{
    if let ExtInt::NegInf = value {
        return Ok(Some(Vec::new(alloc)));
    }
    let found = least(alloc, task, lits, term, value)?;
    text_of(alloc, &found)
}

/// The claims that belong to the reply to a command under these choices, all of them; None where there is one of which
/// the solver knows no clause.
pub fn claims_of<C: Choose + Drop>(
    alloc: Global,
    task: &Task<Solver<C>>,
    choices: &[Literal],
    command: &Command,
    reply: &Reply,
) -> Result<Option<Vec<u8>>, Memory>
    requires choices { AreOver task.now.numbers choices.now }
    requires forced { AreForcedOver task.now.numbers reply.now }
    ensures { IfOk result (λ found. IfSome found
        (λ bytes. AreClaims task.now.numbers choices.now command.now reply.now bytes.items)) }
{
    let mut lits = task.lits_of(alloc, choices)?;
    match reply {
        Reply::Inconsistent => of_inconsistent(alloc, task, lits.as_slice()),
        Reply::Forced(literals) => of_forced(alloc, task, &mut lits, literals.as_slice()),
        Reply::Minimum(value, _) => match command {
            Command::Minimize(term) => of_minimum(alloc, task, &mut lits, *term, *value),
            _ => Ok(Some(Vec::new(alloc))),
        },
        _ => Ok(Some(Vec::new(alloc))),
    }
}
