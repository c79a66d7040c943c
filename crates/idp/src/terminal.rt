//! What is told on standard error beside a consultation whose commands are typed at a terminal: a prompt, and why a
//! command is refused. That it cannot be told changes neither what is read nor what is written.
use crate::adapters::read_again;
use refusal_notes::reply_note;
use std::io::{Read, Result, Write};

const PROMPT: &[u8] = b"idp> ";

/// A reader, before each read of which a prompt is told, once also where a signal interrupts it.
#[derive(Drop)]
pub struct Prompted<R, T> {
    inner: R,
    told: T,
    is_typed: bool,
}

impl<R, T> Prompted<R, T> {
    /// A prompt is told where the commands are typed.
    pub fn new(inner: R, told: T, is_typed: bool) -> Prompted<R, T> {
        Prompted {
            inner,
            told,
            is_typed,
        }
    }
}

impl<R: Read, T: Write> Read for Prompted<R, T> {
    fn read(&mut self, buf: &mut [u8]) -> Result<usize> {
        if self.is_typed {
            let _told = self.told.write_all(PROMPT);
        }
        read_again(&mut self.inner, buf)
    }
}

/// A writer, after each write to which it is told what a refusal means.
#[derive(Drop)]
pub struct Noted<W, T> {
    inner: W,
    told: T,
    is_typed: bool,
}

impl<W, T> Noted<W, T> {
    /// Refusals are told of where the commands are typed.
    pub fn new(inner: W, told: T, is_typed: bool) -> Noted<W, T> {
        Noted {
            inner,
            told,
            is_typed,
        }
    }
}

impl<W: Write, T: Write> Write for Noted<W, T> {
    fn write(&mut self, piece: &[u8]) -> Result<usize> {
        let count = self.inner.write(piece)?;
        if self.is_typed {
            let _told = self.told.write_all(reply_note(piece).as_bytes());
        }
        Ok(count)
    }

    fn flush(&mut self) -> Result<()> {
        self.inner.flush()
    }
}
