//! Runs over a shelf, a source and a sink in memory, scripted by a plan.
ghost use Rattle.std.specs.Prelude.{◌≡◌, IfOk};

use super::bases::EITHER_P_OR_Q;
use idp_cli::{Status, run};
use kb_io::{MemFile, MemShelf, MemSink, MemSource};
use std::alloc::AllocError;
use std::test::Fail;

/// The words of a consultation about the file of a plan.
pub(super) const CONSULT: &[&str] = &["consult", "kb"];

/// The words of a consultation that keeps a log.
pub(super) const LOGGED: &[&str] = &["consult", "kb", "--log", "to"];

/// The words of a check of a log.
pub(super) const VERIFY: &[&str] = &["verify", "kb", "log"];

/// The words of a check of it.
pub(super) const CHECK: &[&str] = &["check", "kb"];

/// What the devices of a run do. The numbers in `failing` are those of the calls that fail.
#[derive(Clone, Copy)]
pub(super) struct Plan<'a> {
    pub(super) file: &'a [u8],
    pub(super) file_failing: &'a [u64],
    pub(super) file_pieces: &'a [usize],
    pub(super) script: &'a [u8],
    pub(super) script_failing: &'a [u64],
    pub(super) script_pieces: &'a [usize],
    pub(super) failing_writes: &'a [u64],
    pub(super) failing_flushes: &'a [u64],
    pub(super) out_pieces: &'a [usize],
    pub(super) log: &'a [u8],
    pub(super) log_failing: &'a [u64],
    pub(super) log_failing_writes: &'a [u64],
    pub(super) log_failing_flushes: &'a [u64],
    pub(super) log_pieces: &'a [usize],
}

pub(super) const PLAN: Plan = Plan {
    file: EITHER_P_OR_Q,
    file_failing: &[],
    file_pieces: &[],
    script: b"model.\n",
    script_failing: &[],
    script_pieces: &[],
    failing_writes: &[],
    failing_flushes: &[],
    out_pieces: &[],
    log: b"",
    log_failing: &[],
    log_failing_writes: &[],
    log_failing_flushes: &[],
    log_pieces: &[],
};

pub(super) fn source(
    rt: &HostRuntime,
    bytes: &[u8],
    failing: &[u64],
    pieces: &[usize],
) -> Result<MemSource, AllocError>
    ensures { IfOk result (λ s. s.faults ≡ 0) }
{
    Ok(MemSource::new(
        bytes.to_vec(rt.alloc())?,
        failing.to_vec(rt.alloc())?,
        pieces.to_vec(rt.alloc())?,
    ))
}

pub(super) fn sink(rt: &HostRuntime, plan: &Plan<'_>) -> Result<MemSink, AllocError> {
    Ok(MemSink::new(
        Vec::new(rt.alloc()),
        plan.failing_writes.to_vec(rt.alloc())?,
        plan.failing_flushes.to_vec(rt.alloc())?,
        plan.out_pieces.to_vec(rt.alloc())?,
    ))
}

/// The sink that a log is written to.
fn log_sink(rt: &HostRuntime, plan: &Plan<'_>) -> Result<MemSink, AllocError> {
    Ok(MemSink::new(
        Vec::new(rt.alloc()),
        plan.log_failing_writes.to_vec(rt.alloc())?,
        plan.log_failing_flushes.to_vec(rt.alloc())?,
        plan.log_pieces.to_vec(rt.alloc())?,
    ))
}

/// A shelf with the files `kb` and `log`.
pub(super) fn shelf(rt: &HostRuntime, plan: &Plan<'_>) -> Result<MemShelf, Fail> {
    let file = MemFile {
        name: String::from_str(rt.alloc(), "kb")?,
        source: source(rt, plan.file, plan.file_failing, plan.file_pieces)?,
    };
    let log = MemFile {
        name: String::from_str(rt.alloc(), "log")?,
        source: source(rt, plan.log, plan.log_failing, &[])?,
    };
    Ok(MemShelf::new(vec![in rt.alloc(); file, log]?, Vec::new(rt.alloc())))
}

pub(super) fn words(rt: &HostRuntime, texts: &[&str]) -> Result<Vec<String>, Fail> {
    let mut words = Vec::new(rt.alloc());
    for text in texts {
        words.push(String::from_str(rt.alloc(), text)?)?;
    }
    Ok(words)
}

/// How a run by the words ended, and what the output and the log held then.
#[derive(Drop)]
pub(super) struct Outcome {
    pub(super) status: Status,
    pub(super) text: Vec<u8>,
    pub(super) log: Vec<u8>,
}

/// Runs by the plan with these words and commands.
pub(super) fn outcome_on(
    rt: &HostRuntime,
    texts: &[&str],
    plan: &Plan<'_>,
    commands: MemSource,
) -> Result<Outcome, Fail> {
    let mut commands = commands;
    let mut shelf = shelf(rt, plan)?;
    let words = words(rt, texts)?;
    let mut out = sink(rt, plan)?;
    let mut log = log_sink(rt, plan)?;
    let status = run(
        rt.alloc(),
        &words,
        &mut shelf,
        &mut commands,
        &mut out,
        &mut log,
    );
    let text = out.held().to_vec(rt.alloc())?;
    let log = log.held().to_vec(rt.alloc())?;
    Ok(Outcome { status, text, log })
}

/// Whether a run by the plan with these words ends in this exit status and leaves this output.
pub(super) fn gives(
    rt: &HostRuntime,
    texts: &[&str],
    plan: &Plan<'_>,
    code: u8,
    wanted: &[u8],
) -> Result<bool, Fail> {
    let commands = source(rt, plan.script, plan.script_failing, plan.script_pieces)?;
    gives_on(rt, texts, plan, commands, code, wanted)
}

/// The same for these commands.
pub(super) fn gives_on(
    rt: &HostRuntime,
    texts: &[&str],
    plan: &Plan<'_>,
    commands: MemSource,
    code: u8,
    wanted: &[u8],
) -> Result<bool, Fail> {
    let outcome = outcome_on(rt, texts, plan, commands)?;
    Ok(outcome.status.code() == code && outcome.text.as_slice() == wanted)
}

/// Whether a run by the plan with these words ends in this exit status, and leaves this output and this log.
pub(super) fn leaves(
    rt: &HostRuntime,
    texts: &[&str],
    plan: &Plan<'_>,
    code: u8,
    wanted: (&[u8], &[u8]),
) -> Result<bool, Fail> {
    let commands = source(rt, plan.script, plan.script_failing, plan.script_pieces)?;
    let outcome = outcome_on(rt, texts, plan, commands)?;
    let (text, log) = wanted;
    Ok(
        outcome.status.code() == code
            && outcome.text.as_slice() == text
            && outcome.log.as_slice() == log,
    )
}
