//! Whole inputs and whole outputs.
ghost use Rattle.std.specs.Prelude.{◌≡◌, ◌<◌, OnOk, OnErr};
ghost use Rattle.std.specs.Io.KnownBytes.{Appends};
ghost use Rattle.kb_io.specs.Outside.{HasCause};
ghost use Rattle.kb_io.specs.Lines.{newlines};
ghost use Rattle.kb_io.specs.ReadWrite.{ReadUpTo, AppendsPrefix};
ghost use Rattle.kb_io.specs.declared.read_write.ReadError.TheVariants.{Memory, Fault};

use crate::traits::{Failed, Sink, Source};
use std::alloc::{AllocError, Global};
use thiserror::Error;

/// Why an input was not read whole.
#[derive(Debug, Drop, Error)]
pub enum ReadError {
    /// It has more bytes than the limit; with the number of newlines before the limit.
    #[error("more bytes than allowed, after {0} lines")]
    TooLong(u64),
    #[error("reading failed")]
    Fault,
    #[error("no memory")]
    Memory,
}

impl From<AllocError> for ReadError {
    ghost from_gives = { λ _ e. e ≡ Memory };

    fn from(_e: AllocError) -> ReadError {
        ReadError::Memory
    }
}

impl From<Failed> for ReadError {
    ghost from_gives = { λ _ e. e ≡ Fault };

    fn from(_e: Failed) -> ReadError {
        ReadError::Fault
    }
}

/// How many newlines there are.
pub fn newlines_in(bytes: &[u8]) -> usize
    ensures { result ≡ newlines bytes.now }
{
    bytes.iter().filter(|b| **b == b'\n').count()
}

/// Reads all that a source has left, if it is at most `limit` bytes.
pub fn read_up_to<S: Source>(alloc: Global, src: &mut S, limit: usize) -> Result<Vec<u8>, ReadError>
    requires { limit < usize.MAX }
    ensures { ReadUpTo result limit (S.left src.old) (S.left src.new) (S.faults src.old) (S.faults src.new) }
{
    let mut bytes = Vec::new(alloc);
    let mut buf = [0u8; 4096];
    loop {
        let room = (limit + 1 - bytes.len()).min(4096);
        let count = src.read(&mut buf[..room])?;
        if count == 0 {
            return Ok(bytes);
        }
        bytes.extend_from_slice(&buf[..count])?;
        if bytes.len() > limit {
            let lines = newlines_in(&bytes[..limit]);
            return Err(ReadError::TooLong(lines as u64));
        }
    }
}

/// Writes all of the bytes.
pub fn write_all<W: Sink>(out: &mut W, bytes: &[u8]) -> Result<(), Failed>
    ensures ok { OnOk result (Appends (W.holds out.old) (W.holds out.new) bytes.now) }
    ensures err { OnErr result (AppendsPrefix (W.holds out.old) (W.holds out.new) bytes.now) }
    ensures cause { HasCause (W.faults out.old) (W.faults out.new) result }
{
    let mut rest = bytes;
    while !rest.is_empty() {
        let count = out.write(rest)?;
        rest = &rest[count..];
    }
    Ok(())
}
