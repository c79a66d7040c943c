//! The adapters over readers and writers. They count errors and tell no bytes.
ghost use Rattle.std.specs.Prelude.{None, ◌≡◌, nat_lt};
ghost use Rattle.std.specs.Io.{ReadsAtMost, WritesAtMost};

#[cfg(test)]
mod tests;

use kb_io::{Failed, Sink, Source};
use std::io::{self, ErrorKind, Read, Write};

/// One read, made again where a signal interrupts it.
pub fn read_again<R: Read>(inner: &mut R, buf: &mut [u8]) -> io::Result<usize>
    ensures { ReadsAtMost result buf.new }
{
    for _ in 0..u64::MAX {
        match inner.read(buf) {
            Err(e) if e.kind() == ErrorKind::Interrupted => {}
            result => return result,
        }
    }
    Err(io::Error::from(ErrorKind::Interrupted))
}

/// One write, made again where a signal interrupts it.
fn write_again<W: Write>(inner: &mut W, piece: &[u8]) -> io::Result<usize>
    ensures { WritesAtMost result piece.now }
{
    for _ in 0..u64::MAX {
        match inner.write(piece) {
            Err(e) if e.kind() == ErrorKind::Interrupted => {}
            result => return result,
        }
    }
    Err(io::Error::from(ErrorKind::Interrupted))
}

/// A reader, with a count of its errors. A read that a signal interrupts is no error: it is made again.
#[derive(Drop)]
pub struct CountedReader<R> {
    inner: R,
    faults: u64,
}

impl<R> CountedReader<R> {
    /// It has not failed.
    pub fn new(inner: R) -> CountedReader<R>
        ensures { result.faults ≡ 0 }
    {
        CountedReader { inner, faults: 0 }
    }

    /// Whether a read failed.
    pub fn has_failed(&self) -> bool
        ensures { result ≡ nat_lt 0 self.now.faults }
    {
        self.faults > 0
    }

    /// The reader.
    pub fn into_inner(self) -> R {
        self.inner
    }
}

impl<R: Read> Source for CountedReader<R> {
    ghost left = { λ _. None };

    ghost faults = { λ s. s.faults };

    fn read(&mut self, buf: &mut [u8]) -> Result<usize, Failed> {
        match read_again(&mut self.inner, buf) {
            Ok(count) => Ok(count),
            Err(_) => {
                self.faults = self.faults.saturating_add(1);
                Err(Failed)
            }
        }
    }
}

/// A writer, with a count of its errors. A write that a signal interrupts is no error: it is made again.
#[derive(Drop)]
pub struct CountedWriter<W> {
    inner: W,
    faults: u64,
}

impl<W> CountedWriter<W> {
    /// It has not failed.
    pub fn new(inner: W) -> CountedWriter<W>
        ensures { result.faults ≡ 0 }
    {
        CountedWriter { inner, faults: 0 }
    }

    /// Whether a write or a flush failed.
    pub fn has_failed(&self) -> bool {
        self.faults > 0
    }
}

impl<W: Write> Sink for CountedWriter<W> {
    ghost holds = { λ _. None };

    ghost faults = { λ s. s.faults };

    fn write(&mut self, piece: &[u8]) -> Result<usize, Failed> {
        match write_again(&mut self.inner, piece) {
            Ok(count) if count > 0 || piece.is_empty() => Ok(count),
            _ => {
                self.faults = self.faults.saturating_add(1);
                Err(Failed)
            }
        }
    }

    fn flush(&mut self) -> Result<(), Failed> {
        match self.inner.flush() {
            Ok(()) => Ok(()),
            Err(_) => {
                self.faults = self.faults.saturating_add(1);
                Err(Failed)
            }
        }
    }
}
