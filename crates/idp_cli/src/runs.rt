//! The top call: one run over the words, a shelf, the commands, the output and a log.
ghost use Rattle.std.specs.Prelude.{◌≡◌, ◌⊎◌, true};
ghost use Rattle.std.specs.Bool.{OnFalse};
ghost use Rattle.kb_io.specs.Outside.{GrewByName, KeptNumber};
ghost use Rattle.consult_base.specs.Opened.{base_of};
ghost use Rattle.consult_text.specs.States.{first_state};
ghost use Rattle.consultation.specs.Accepted.{LogsAccepted};
ghost use Rattle.consultation.specs.Answering.{OpensAndAnswers};
ghost use Rattle.consultation.specs.Streams.{streams};
ghost use Rattle.idp_cli.specs.Jobs.{AskForLog};
ghost use Rattle.idp_cli.specs.JobViews.{choice_view};
ghost use Rattle.idp_cli.specs.Runs.{outside, texts_of, ended_as, OnFiles, RunEnds, CheckEnds, ConsultationEnds};
ghost use Rattle.idp_cli.specs.Runs.{AcceptsLog, AsksForFile, LogEnds};

use crate::generation::{make, summarise};
use crate::jobs::{ConsultJob, Job, Options, job_of};
use crate::load::open_file;
use crate::printing::{print_structure, refuse_words};
use crate::status::Status;
use crate::verification::verify;
use consult_base::KnowledgeBase;
use consultation::{Consultant, Stop};
use kb_io::{Shelf, Sink, Source};
use std::alloc::Global;

/// Answers the commands by the knowledge base. Their first byte is taken once all memory that reading lines takes is
/// at hand.
fn answer_commands<C: Source, W: Sink, L: Sink>(
    alloc: Global,
    kb: KnowledgeBase,
    job: ConsultJob<'_>,
    commands: &mut C,
    out: &mut W,
    log: &mut L,
) -> Result<(), Stop>
    ensures ends { OpensAndAnswers job.entry.logs result (base_of kb) (first_state job.entry.budget)
        (streams (C.left commands.old) (C.faults commands.old) (W.holds out.old) (W.faults out.old) (L.holds log.old)
        (L.faults log.old))
        (streams (C.left commands.new) (C.faults commands.new) (W.holds out.new) (W.faults out.new) (L.holds log.new)
        (L.faults log.new)) }
    ensures accepted { (L.holds log.new ≡ L.holds log.old) ⊎ ((job.entry.logs ≡ true)
        × LogsAccepted result (base_of kb) (L.holds log.old) (L.holds log.new)) }
    ensures log { OnFalse job.entry.logs (log.new ≡ log.old) }
{
    let Ok(mut consultant) = Consultant::open(alloc, kb, job.budget, job.logs) else {
        return Err(Stop::Memory);
    };
    let ended = consultant.answer_all(commands, out, log);
    consultant.let_go();
    ended
}

/// The status of a run in which the answers ended so.
fn status_of(ended: Result<(), Stop>) -> Status
    ensures { result ≡ ended_as ended }
{
    match ended {
        Ok(()) => Status::Done,
        Err(Stop::ReadFault) => Status::ReadFault,
        Err(Stop::WriteFault) | Err(Stop::LogFault) => Status::WriteFault,
        Err(Stop::Memory) => Status::Memory,
        Err(Stop::ScriptTooLong) => Status::ScriptTooLong,
    }
}

/// Consults about the named file.
fn consult<H: Shelf, C: Source, W: Sink, L: Sink>(
    alloc: Global,
    job: ConsultJob<'_>,
    shelf: &mut H,
    commands: &mut C,
    out: &mut W,
    log: &mut L,
) -> Status
    ensures ends { ConsultationEnds result job.entry.file.now (choice_view job.entry.options) job.entry.budget
        job.entry.logs
        (outside (H.file shelf.old) (H.faults shelf.old)
        (streams (C.left commands.old) (C.faults commands.old) (W.holds out.old) (W.faults out.old) (L.holds log.old)
        (L.faults log.old)))
        (outside (H.file shelf.new) (H.faults shelf.new)
        (streams (C.left commands.new) (C.faults commands.new) (W.holds out.new) (W.faults out.new) (L.holds log.new)
        (L.faults log.new))) }
    ensures asked { GrewByName (H.asked shelf.old) (H.asked shelf.new) job.entry.file.now }
    ensures closed { KeptNumber (H.open_sources shelf.old) (H.open_sources shelf.new) }
    ensures accepted { AcceptsLog result job.entry.file.now (choice_view job.entry.options) job.entry.logs
        (H.file shelf.old) (L.holds log.old) (L.holds log.new) }
    ensures log { OnFalse job.entry.logs (log.new ≡ log.old) }
{
    match open_file(alloc, job.file, job.options, shelf, out) {
        Ok(kb) => status_of(answer_commands(alloc, kb, job, commands, out, log)),
        Err(status) => status,
    }
}

/// Checks the named file. No command is taken, whatever is left of them.
fn check<H: Shelf, W: Sink>(
    alloc: Global,
    name: &str,
    options: Options<'_>,
    shelf: &mut H,
    out: &mut W,
) -> Status
    ensures ends { OnFiles (CheckEnds result name.now (choice_view options.entry))
        (outside (H.file shelf.old) (H.faults shelf.old)) (outside (H.file shelf.new) (H.faults shelf.new))
        (W.holds out.old) (W.holds out.new) (W.faults out.old) (W.faults out.new) }
    ensures asked { GrewByName (H.asked shelf.old) (H.asked shelf.new) name.now }
    ensures closed { KeptNumber (H.open_sources shelf.old) (H.open_sources shelf.new) }
{
    match open_file(alloc, name, options, shelf, out) {
        Ok(kb) => print_structure(alloc, &kb, out),
        Err(status) => status,
    }
}

/// Does what the words say, and returns how that ended.
pub fn run<H: Shelf, C: Source, W: Sink, L: Sink>(
    alloc: Global,
    words: &[String],
    shelf: &mut H,
    commands: &mut C,
    out: &mut W,
    log: &mut L,
) -> Status
    ensures ends { RunEnds result words.now
        (outside (H.file shelf.old) (H.faults shelf.old)
        (streams (C.left commands.old) (C.faults commands.old) (W.holds out.old) (W.faults out.old) (L.holds log.old)
        (L.faults log.old)))
        (outside (H.file shelf.new) (H.faults shelf.new)
        (streams (C.left commands.new) (C.faults commands.new) (W.holds out.new) (W.faults out.new) (L.holds log.new)
        (L.faults log.new))) }
    ensures asked { AsksForFile words.now (H.file shelf.old) (H.asked shelf.old) (H.asked shelf.new) }
    ensures closed { KeptNumber (H.open_sources shelf.old) (H.open_sources shelf.new) }
    ensures log { AskForLog (texts_of words.now) ⊎ (log.new ≡ log.old) }
    ensures accepted { LogEnds result words.now (H.file shelf.old) (L.holds log.old) (L.holds log.new) }
{
    match job_of(alloc, words) {
        Ok(Some(Job::Consult(job))) => consult(alloc, job, shelf, commands, out, log),
        Ok(Some(Job::Check(name, options))) => check(alloc, name, options, shelf, out),
        Ok(Some(Job::Verify(name, options, path))) => {
            verify(alloc, name, options, path, shelf, out)
        }
        Ok(Some(Job::Make(kind, number))) => make(alloc, kind, number, out),
        Ok(Some(Job::Summarise(kind, number))) => summarise(alloc, kind, number, out),
        Ok(None) => refuse_words(out),
        Err(_) => Status::Memory,
    }
}
