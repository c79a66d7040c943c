//! Runs over devices in memory.
ghost use Rattle.std.specs.Prelude.{◌≡◌, [], IfOk, Some};
ghost use Rattle.kb_io.specs.Files.{file_named, AreFresh, NamesDiffer};
ghost use Rattle.consult_cases.specs.Playing.{Leaves, kb, log};

use crate::cases::Case;
use idp_cli::{Status, run};
use kb_io::{MemFile, MemShelf, MemSink, MemSource};
use std::alloc::{AllocError, Global};

/// How a run ended, and what its output and its log held then.
#[derive(Drop)]
pub struct Outcome {
    pub status: Status,
    pub text: Vec<u8>,
    pub log: Vec<u8>,
}

/// A source that gives the bytes in pieces of these sizes, and the rest at once.
fn source_of(alloc: Global, bytes: &[u8], pieces: &[usize]) -> Result<MemSource, AllocError>
    ensures left { IfOk result (λ source. source.left ≡ bytes.now) }
    ensures faults { IfOk result (λ source. source.faults ≡ 0) }
{
    Ok(MemSource::new(bytes.to_vec(alloc)?, Vec::new(alloc), pieces.to_vec(alloc)?))
}

/// A sink that holds nothing and takes pieces of these sizes.
fn sink_of(alloc: Global, pieces: &[usize]) -> Result<MemSink, AllocError>
    ensures { IfOk result (λ sink. sink.held ≡ []) }
{
    Ok(MemSink::new(
        Vec::new(alloc),
        Vec::new(alloc),
        Vec::new(alloc),
        pieces.to_vec(alloc)?,
    ))
}

/// A shelf with the files `kb` and `log`; the second has the bytes of the commands.
fn shelf_of(alloc: Global, case: &Case<'_>, pieces: &[usize]) -> Result<MemShelf, AllocError>
    ensures kb { IfOk result (λ shelf. file_named shelf.files kb ≡ Some case.now.file.now) }
    ensures log { IfOk result (λ shelf. file_named shelf.files log ≡ Some case.now.script.now) }
{
    let file = MemFile {
        name: String::from_str(alloc, "kb")?,
        source: source_of(alloc, case.file, pieces)?,
    };
    let log = MemFile {
        name: String::from_str(alloc, "log")?,
        source: source_of(alloc, case.script, pieces)?,
    };
    Ok(MemShelf::new(vec![in alloc; file, log]?, Vec::new(alloc)))
}

/// Runs by the words over a shelf with the files `kb` and `log`. Each device hands its bytes over in pieces of these
/// sizes.
pub fn play(
    alloc: Global,
    words: &[String],
    case: &Case<'_>,
    pieces: &[usize],
) -> Result<Outcome, AllocError>
    ensures { IfOk result (λ outcome. Leaves words.now case.now.file.now case.now.script.now outcome.status
        outcome.text.items outcome.log.items) }
{
    let mut shelf = shelf_of(alloc, case, pieces)?;
    let mut commands = source_of(alloc, case.script, pieces)?;
    let mut out = sink_of(alloc, pieces)?;
    let mut log = sink_of(alloc, pieces)?;
    let status = run(alloc, words, &mut shelf, &mut commands, &mut out, &mut log);
    Ok(Outcome {
        status,
        text: out.held().to_vec(alloc)?,
        log: log.held().to_vec(alloc)?,
    })
}
