//! The knowledge base of a file.
ghost use Rattle.std.specs.Prelude.{◌≡◌, ◌≢◌, ℕ, ◌+◌, ◌<◌, ◌≤◌, List, length, take, Ok, IfOk, IfErr, OnOk};
ghost use Rattle.grammar.specs.FileReads.{most_bytes};
ghost use Rattle.kb_io.specs.Lines.{newlines};
ghost use Rattle.kb_io.specs.Outside.{GrewByName, KeptNumber};
ghost use Rattle.idp_cli.specs.Files.{Loads, Takes, line_of};
ghost use Rattle.idp_cli.specs.JobViews.{choice_view};
ghost use Rattle.idp_cli.specs.Reading.{ReadsFile};
ghost use Rattle.idp_cli.specs.Runs.{FileFails, OnFiles, outside};

use crate::jobs::Options;
use crate::printing::refuse;
use crate::status::Status;
use base_reader::{KbError, read_base};
use consult_base::KnowledgeBase;
use kb_io::{ReadError, Shelf, Sink, newlines_in, read_up_to};
use kb_text::K;
use std::alloc::Global;

const MOST_FILE_BYTES: usize = 4_194_304;

/// Why a file gives no knowledge base.
#[derive(Clone, Copy)]
pub enum LoadError {
    /// It is refused, at this line.
    Refused(K, u64),
    ReadFault,
    Memory,
}

/// Reads the named file to its end. What is under other names stays.
pub fn read_file<H: Shelf>(
    alloc: Global,
    shelf: &mut H,
    name: &str,
    limit: usize,
) -> Result<Vec<u8>, ReadError>
    requires { limit < usize.MAX }
    ensures read { ReadsFile result limit (H.file shelf.old name.now) (H.faults shelf.old) (H.faults shelf.new) }
    ensures others { (other : List ℕ) → other ≢ name.now → H.file shelf.new other ≡ H.file shelf.old other }
    ensures asked { GrewByName (H.asked shelf.old) (H.asked shelf.new) name.now }
    ensures closed { KeptNumber (H.open_sources shelf.old) (H.open_sources shelf.new) }
{
    let Ok(mut source) = shelf.open(name) else {
        return Err(ReadError::Fault);
    };
    let bytes = read_up_to(alloc, &mut source, limit);
    shelf.close(source);
    bytes
}

/// The line of a place in the bytes.
fn line_at(bytes: &[u8], place: usize) -> u64
    requires { length bytes.now ≤ most_bytes }
    ensures { result ≡ line_of place bytes.now }
{
    let place = place.min(bytes.len());
    newlines_in(&bytes[..place]) as u64 + 1
}

/// The knowledge base that the bytes mean.
fn knowledge_base(
    alloc: Global,
    bytes: &[u8],
    options: Options<'_>,
) -> Result<KnowledgeBase, LoadError>
    requires { length bytes.now ≤ most_bytes }
    ensures { Takes (choice_view options.entry) result bytes.now }
{
    match read_base(alloc, bytes, options.theory, options.structure) {
        Ok(kb) => Ok(kb),
        Err(KbError::Memory) => Err(LoadError::Memory),
        Err(KbError::Refused(fault)) => Err(LoadError::Refused(
            fault.cause,
            line_at(bytes, fault.place),
        )),
    }
}

/// The line at which bytes end that are taken up to a limit.
fn line_at_limit(bytes: &[u8], limit: usize) -> u64
    requires longer { limit < length bytes.now }
    requires few { limit ≤ most_bytes }
    ensures { result ≡ newlines (take limit bytes.now) + 1 }
{
    newlines_in(&bytes[..limit]) as u64 + 1
}

/// The knowledge base that bytes mean, however many they are.
pub fn take(alloc: Global, bytes: &[u8], options: Options<'_>) -> Result<KnowledgeBase, LoadError>
    ensures { Takes (choice_view options.entry) result bytes.now }
{
    if bytes.len() > MOST_FILE_BYTES {
        let line = line_at_limit(bytes, MOST_FILE_BYTES);
        return Err(LoadError::Refused(K::TooLong, line));
    }
    knowledge_base(alloc, bytes, options)
}

/// Loads the knowledge base of the named file. What is under other names stays.
fn load<H: Shelf>(
    alloc: Global,
    shelf: &mut H,
    name: &str,
    options: Options<'_>,
) -> Result<KnowledgeBase, LoadError>
    ensures loaded { Loads (choice_view options.entry) result (H.file shelf.old name.now) (H.faults shelf.old)
        (H.faults shelf.new) }
    ensures others { (other : List ℕ) → other ≢ name.now → H.file shelf.new other ≡ H.file shelf.old other }
    ensures asked { GrewByName (H.asked shelf.old) (H.asked shelf.new) name.now }
    ensures closed { KeptNumber (H.open_sources shelf.old) (H.open_sources shelf.new) }
{
    match read_file(alloc, shelf, name, MOST_FILE_BYTES) {
        Ok(bytes) => knowledge_base(alloc, &bytes, options),
        Err(ReadError::TooLong(newlines)) => Err(LoadError::Refused(K::TooLong, newlines + 1)),
        Err(ReadError::Fault) => Err(LoadError::ReadFault),
        Err(ReadError::Memory) => Err(LoadError::Memory),
    }
}

/// Opens the named file: its knowledge base, or how the run ends without one. That the file is refused is printed.
pub fn open_file<H: Shelf, W: Sink>(
    alloc: Global,
    name: &str,
    options: Options<'_>,
    shelf: &mut H,
    out: &mut W,
) -> Result<KnowledgeBase, Status>
    ensures loaded { IfOk result (λ kb. Loads (choice_view options.entry) (Ok kb) (H.file shelf.old name.now)
        (H.faults shelf.old) (H.faults shelf.new)) }
    ensures silent { OnOk result (out.new ≡ out.old) }
    ensures fails { IfErr result (λ status. OnFiles (FileFails status name.now (choice_view options.entry))
        (outside (H.file shelf.old) (H.faults shelf.old)) (outside (H.file shelf.new) (H.faults shelf.new))
        (W.holds out.old) (W.holds out.new) (W.faults out.old) (W.faults out.new)) }
    ensures others { (other : List ℕ) → other ≢ name.now → H.file shelf.new other ≡ H.file shelf.old other }
    ensures asked { GrewByName (H.asked shelf.old) (H.asked shelf.new) name.now }
    ensures closed { KeptNumber (H.open_sources shelf.old) (H.open_sources shelf.new) }
{
    match load(alloc, shelf, name, options) {
        Ok(kb) => Ok(kb),
        Err(LoadError::Refused(k, line)) => Err(refuse(alloc, out, k, line)),
        Err(LoadError::ReadFault) => Err(Status::ReadFault),
        Err(LoadError::Memory) => Err(Status::Memory),
    }
}
