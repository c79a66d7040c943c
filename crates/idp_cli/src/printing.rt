//! What is printed of a file, of a log or of words that are refused, and of a file that is checked.
ghost use Rattle.std.specs.Prelude.{◌≡◌, IfOk};
ghost use Rattle.std.specs.String.{string_bytes};
ghost use Rattle.base_reader.specs.Readings.{meaning_of};
ghost use Rattle.idp_cli.specs.Files.{refusal_text, log_refusal_text};
ghost use Rattle.idp_cli.specs.Printing.{PrintsRefusal, PrintsLogRefusal, PrintsText, PrintsUsage};
ghost use Rattle.idp_cli.specs.Runs.{structure_text};

use crate::status::Status;
use consult_base::KnowledgeBase;
use consultation::say;
use fo_printer::print_block;
use kb_io::Sink;
use kb_logic::Memory;
use kb_text::K;
use std::alloc::{AllocError, Global};

fn refusal_line(alloc: Global, k: K, line: u64) -> Result<String, AllocError>
    ensures { IfOk result (λ text. string_bytes text ≡ refusal_text k line) }
{
    format!(in alloc; "error {k} line {line}\n")
}

/// Says that the knowledge base is refused.
pub fn refuse<W: Sink>(alloc: Global, out: &mut W, k: K, line: u64) -> Status
    ensures { PrintsRefusal result k line (W.holds out.old) (W.holds out.new) (W.faults out.old) (W.faults out.new) }
{
    let Ok(text) = refusal_line(alloc, k, line) else {
        return Status::Memory;
    };
    match say(out, text.as_bytes()) {
        Ok(()) => Status::KbRefused(k, line),
        Err(_) => Status::WriteFault,
    }
}

fn log_refusal_line(alloc: Global, entry: u64) -> Result<String, AllocError>
    ensures { IfOk result (λ text. string_bytes text ≡ log_refusal_text entry) }
{
    format!(in alloc; "error log entry {entry}\n")
}

/// Says that this entry of the log is no step.
pub fn refuse_log<W: Sink>(alloc: Global, out: &mut W, entry: u64) -> Status
    ensures { PrintsLogRefusal result entry (W.holds out.old) (W.holds out.new) (W.faults out.old) (W.faults out.new) }
{
    let Ok(text) = log_refusal_line(alloc, entry) else {
        return Status::Memory;
    };
    match say(out, text.as_bytes()) {
        Ok(()) => Status::LogRefused(entry),
        Err(_) => Status::WriteFault,
    }
}

/// Says that the words are no command line.
pub fn refuse_words<W: Sink>(out: &mut W) -> Status
    ensures { PrintsUsage result (W.holds out.old) (W.holds out.new) (W.faults out.old) (W.faults out.new) }
{
    match say(out, b"error usage\n") {
        Ok(()) => Status::Usage,
        Err(_) => Status::WriteFault,
    }
}

/// The canonical text of the structure that is chosen.
fn structure_text(alloc: Global, kb: &KnowledgeBase) -> Result<Vec<u8>, Memory>
    ensures { IfOk result (λ text. text.items ≡ structure_text (meaning_of kb.now)) }
{
    let mut text = Vec::new(alloc);
    print_block(alloc, &mut text, kb.vocabulary(), kb.structure(), kb.data())?;
    Ok(text)
}

/// Prints a text.
pub fn print_text<W: Sink>(text: &[u8], out: &mut W) -> Status
    ensures { PrintsText result text.now (W.holds out.old) (W.holds out.new) (W.faults out.old) (W.faults out.new) }
{
    match say(out, text) {
        Ok(()) => Status::Done,
        Err(_) => Status::WriteFault,
    }
}

/// Prints the structure that is chosen.
pub fn print_structure<W: Sink>(alloc: Global, kb: &KnowledgeBase, out: &mut W) -> Status
    ensures { PrintsText result (structure_text (meaning_of kb.now))
        (W.holds out.old) (W.holds out.new) (W.faults out.old) (W.faults out.new) }
{
    match structure_text(alloc, kb) {
        Ok(text) => print_text(&text, out),
        Err(_) => Status::Memory,
    }
}
