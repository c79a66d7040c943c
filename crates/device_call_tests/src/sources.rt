//! Scripted sources.
ghost use Rattle.std.specs.Prelude.{◌≡◌, IfOk};

use kb_io::MemSource;
use std::alloc::{AllocError, Global};

/// A source of these bytes, in pieces of these sizes, whose calls with these numbers fail.
pub fn source(
    alloc: Global,
    bytes: &[u8],
    failing: &[u64],
    pieces: &[usize],
) -> Result<MemSource, AllocError>
    ensures { IfOk result (λ s. s.faults ≡ 0) }
{
    Ok(MemSource::new(
        bytes.to_vec(alloc)?,
        failing.to_vec(alloc)?,
        pieces.to_vec(alloc)?,
    ))
}
