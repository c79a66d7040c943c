//! Logs of what was derived from a file, which are verified by that file.
ghost use Rattle.std.specs.Prelude.{◌≡◌, ◌≢◌, ℕ, List, Option};
ghost use Rattle.kb_io.specs.Outside.{GrewByName, KeptNumber};
ghost use Rattle.consult_base.specs.Opened.{base_of};
ghost use Rattle.base_reader.specs.FileMeanings.{Choice, FileMeans};
ghost use Rattle.base_reader.specs.Readings.{meaning_of};
ghost use Rattle.consultation.specs.Streams.{IfObservable};
ghost use Rattle.idp_cli.specs.JobViews.{choice_view};
ghost use Rattle.idp_cli.specs.Runs.{AsksForLog, OnFiles, VerificationEnds, outside};
ghost use Rattle.idp_cli.specs.Verifying.{PrintsAnswer, ReadsLog};

use crate::jobs::Options;
use crate::load::{open_file, read_file};
use crate::printing::{print_text, refuse_log};
use crate::status::Status;
use consult_base::KnowledgeBase;
use kb_io::{ReadError, Shelf, Sink};
use std::alloc::Global;
use verified_claims::{LogError, verdict_of};

/// Longer logs are not read.
const MOST_LOG_BYTES: usize = 67_108_864;

/// The bytes of the named log, or how the run ends without them.
fn read_log<H: Shelf>(alloc: Global, shelf: &mut H, name: &str) -> Result<Vec<u8>, Status>
    ensures read { ReadsLog result (H.file shelf.old name.now) (H.faults shelf.old) (H.faults shelf.new) }
    ensures asked { GrewByName (H.asked shelf.old) (H.asked shelf.new) name.now }
    ensures closed { KeptNumber (H.open_sources shelf.old) (H.open_sources shelf.new) }
{
    match read_file(alloc, shelf, name, MOST_LOG_BYTES) {
        Ok(bytes) => Ok(bytes),
        Err(ReadError::TooLong(_)) => Err(Status::ScriptTooLong),
        Err(ReadError::Fault) => Err(Status::ReadFault),
        Err(ReadError::Memory) => Err(Status::Memory),
    }
}

/// Prints the verdict on a log, or that an entry of it is no step.
fn print_answer<W: Sink>(alloc: Global, kb: &KnowledgeBase, log: &[u8], out: &mut W) -> Status
    ensures { PrintsAnswer result (base_of kb.now) log.now (W.holds out.old) (W.holds out.new) (W.faults out.old)
        (W.faults out.new) }
{
    match verdict_of(alloc, kb, log) {
        Ok(text) => print_text(&text, out),
        Err(LogError::Refused(entry)) => refuse_log(alloc, out, entry),
        Err(LogError::Memory) => Status::Memory,
    }
}

/// Verifies the named log by the knowledge base, which is that of a file.
fn verify_by<H: Shelf, W: Sink>(
    alloc: Global,
    kb: &KnowledgeBase,
    name: &str,
    shelf: &mut H,
    out: &mut W,
) -> Status
    ensures ends { (file : List ℕ) (c : Choice) (files : List ℕ → Option (List ℕ))
        → IfObservable (files file) (λ bytes. FileMeans c bytes (meaning_of kb.now))
        → (name.now ≢ file → H.file shelf.old name.now ≡ files name.now)
        → OnFiles (VerificationEnds result file c name.now)
        (outside files (H.faults shelf.old)) (outside (H.file shelf.new) (H.faults shelf.new))
        (W.holds out.old) (W.holds out.new) (W.faults out.old) (W.faults out.new) }
    ensures asked { GrewByName (H.asked shelf.old) (H.asked shelf.new) name.now }
    ensures closed { KeptNumber (H.open_sources shelf.old) (H.open_sources shelf.new) }
{
    match read_log(alloc, shelf, name) {
        Ok(bytes) => print_answer(alloc, kb, &bytes, out),
        Err(status) => status,
    }
}

/// Verifies a log by the named file. The log is opened once the file was found to mean a knowledge base.
pub fn verify<H: Shelf, W: Sink>(
    alloc: Global,
    name: &str,
    options: Options<'_>,
    log: &str,
    shelf: &mut H,
    out: &mut W,
) -> Status
    ensures ends { OnFiles (VerificationEnds result name.now (choice_view options.entry) log.now)
        (outside (H.file shelf.old) (H.faults shelf.old)) (outside (H.file shelf.new) (H.faults shelf.new))
        (W.holds out.old) (W.holds out.new) (W.faults out.old) (W.faults out.new) }
    ensures asked { AsksForLog name.now (choice_view options.entry) log.now (H.file shelf.old) (H.asked shelf.old)
        (H.asked shelf.new) }
    ensures closed { KeptNumber (H.open_sources shelf.old) (H.open_sources shelf.new) }
{
    match open_file(alloc, name, options, shelf, out) {
        Ok(kb) => verify_by(alloc, &kb, log, shelf, out),
        Err(status) => status,
    }
}
