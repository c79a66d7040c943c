//! Files that are made of a number: their texts, and what is said of them.
ghost use Rattle.std.specs.Prelude.{◌≡◌, List, length, IfOk};
ghost use Rattle.std.specs.Option.{IfSome};
ghost use Rattle.kb_logic.specs.declared.elements.ExtInt.{ExtInt};
ghost use Rattle.kb_logic.specs.declared.structures.Literal.{Literal};
ghost use Rattle.consult_base.specs.Opened.{base_of};
ghost use Rattle.generated_files.specs.Texts.{file_text};
ghost use Rattle.idp_cli.specs.Files.{Takes};
ghost use Rattle.idp_cli.specs.Runs.{OnOutput, SummaryEnds, TextEnds};
ghost use Rattle.idp_cli.specs.Summaries.{AnswersQuestions, no_choice, summary_text};

use crate::jobs::Options;
use crate::load::{LoadError, take};
use crate::printing::{print_text, refuse};
use crate::status::Status;
use crate::summaries::{summary_of, summary_text};
use consult_base::KnowledgeBase;
use generated_files::{Kind, file_text};
use kb_io::Sink;
use kb_logic::Memory;
use std::alloc::Global;

/// Prints the file that is made of the number.
#[tactic(auto, using(crate::proofs::Generating::text_ends))]
pub fn make<W: Sink>(alloc: Global, kind: Kind, number: u32, out: &mut W) -> Status
    ensures { OnOutput (TextEnds result (file_text kind number)) (W.holds out.old) (W.holds out.new)
        (W.faults out.old) (W.faults out.new) }
{
    match file_text(alloc, kind, number) {
        Ok(text) => print_text(text.as_bytes(), out),
        Err(_) => Status::Memory,
    }
}

/// The knowledge base that the file means that is made of the number.
fn made(alloc: Global, kind: Kind, number: u32) -> Result<KnowledgeBase, LoadError>
    ensures { Takes no_choice result (file_text kind number) }
{
    let Ok(text) = file_text(alloc, kind, number) else {
        return Err(LoadError::Memory);
    };
    let options = Options {
        theory: None,
        structure: None,
    };
    take(alloc, text.as_bytes(), options)
}

/// The text of the summary of that file, which means the knowledge base; none where there is no summary.
fn summary(
    alloc: Global,
    kind: Kind,
    number: u32,
    kb: KnowledgeBase,
) -> Result<Option<Vec<u8>>, Memory>
    ensures { IfOk result (λ found. IfSome found (λ text. (ls : List Literal) × (least : ExtInt)
        × AnswersQuestions (base_of kb) ls least × (text.items ≡ summary_text kind number (length ls) least))) }
{
    match summary_of(alloc, kb)? {
        Some(summary) => Ok(Some(summary_text(alloc, kind, number, &summary)?)),
        None => Ok(None),
    }
}

/// Prints what follows from the file that is made of the number, and the least cost of its models.
#[tactic(auto, using(crate::proofs::Generating::refusal_ends, crate::proofs::Generating::summarised))]
pub fn summarise<W: Sink>(alloc: Global, kind: Kind, number: u32, out: &mut W) -> Status
    ensures { OnOutput (SummaryEnds result kind number) (W.holds out.old) (W.holds out.new) (W.faults out.old)
        (W.faults out.new) }
{
    let kb = match made(alloc, kind, number) {
        Ok(kb) => kb,
        Err(LoadError::Refused(k, line)) => return refuse(alloc, out, k, line),
        // Nothing is read from a device.
        Err(LoadError::ReadFault) | Err(LoadError::Memory) => return Status::Memory,
    };
    // Each file that is made has models, and a cost: were there none, there would be nothing to print.
    match summary(alloc, kind, number, kb) {
        Ok(Some(text)) => print_text(&text, out),
        Ok(None) | Err(Memory) => Status::Memory,
    }
}
