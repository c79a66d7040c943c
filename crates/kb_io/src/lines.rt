//! Inputs by lines.
ghost use Rattle.std.specs.Prelude.{◌≡◌, ◌<◌, IfOk, [], List, ℕ};
ghost use Rattle.kb_io.specs.Lines.{newlines};
ghost use Rattle.kb_io.specs.Pending.{NextLine, GivesLine};
ghost use Rattle.kb_io.specs.declared.lines.LineError.TheVariants.{Fault};

use crate::line_buffer::Buffer;
use crate::traits::{Failed, Source};
use std::alloc::{AllocError, Global};
use std::marker::Model;
use thiserror::Error;

/// What the next line is.
#[derive(Clone, Copy, Debug)]
pub enum Next {
    /// A line of at most 65,536 bytes, which the state lends.
    Line,
    /// A line of more than 65,536 bytes. Its end was read, and its bytes are given up.
    LongLine,
    /// No byte is left.
    End,
}

/// Why a line was not read to its end.
#[derive(Clone, Copy, Debug, Error)]
pub enum LineError {
    /// The source failed. The bytes taken before stay, and the line can be asked for again.
    #[error("reading failed")]
    Fault,
    /// The source has offered more than 67,108,864 bytes. It is not read any more.
    #[error("more bytes than allowed")]
    TooLong,
}

impl From<Failed> for LineError {
    ghost from_gives = { λ _ e. e ≡ Fault };

    fn from(_e: Failed) -> LineError {
        LineError::Fault
    }
}

/// What is known of a source that is read by lines. It has all the memory that reading by lines takes.
#[derive(Drop)]
pub struct LineState {
    buffer: Buffer,
}

impl Model for LineState {
    ghost use Rattle.kb_io.specs.Pending.{Pending};

    ghost Value = { Pending };

    ghost use Rattle.kb_io.specs.Buffer.{IsSound, pending};

    ghost view = { λ s. pending s.buffer };

    ghost invariant = { λ s. IsSound s.buffer };
}

impl LineState {
    /// No byte was taken.
    pub fn new(alloc: Global) -> Result<LineState, AllocError>
        ensures { IfOk result (λ state. state ≡ record { taken = 0; ahead = []; line = [] }) }
    {
        Ok(LineState {
            buffer: Buffer::new(alloc)?,
        })
    }

    /// The line that `next_line` returned last, without its newline. It is empty after any other result.
    pub fn line(&self) -> &[u8]
        ensures { result.now ≡ self.now.line }
    {
        self.buffer.answered()
    }
}

/// Reads the next line. The source is read only where no whole line was taken of it before.
pub fn next_line<S: Source>(src: &mut S, state: &mut LineState) -> Result<Next, LineError>
    ensures next { NextLine result state.old state.new (S.left src.old) (S.left src.new) (S.faults src.old)
        (S.faults src.new) }
    ensures lines { GivesLine result state.old state.new (S.left src.old) (S.left src.new) }
    ensures still { 0 < newlines state.old.ahead → src.new ≡ src.old }
{
    state.buffer.next(src)
}
