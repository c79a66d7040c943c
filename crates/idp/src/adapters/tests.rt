//! What the adapters hand on, and that each error is counted.

use super::{CountedReader, CountedWriter};
use kb_io::{Sink, Source};
use std::io::{self, ErrorKind, Read, Write};
use std::test::Fail;

/// A stream each of whose calls fails.
#[derive(Drop)]
struct Broken;

impl Read for Broken {
    fn read(&mut self, _buf: &mut [u8]) -> io::Result<usize> {
        Err(io::Error::from(ErrorKind::Other))
    }
}

impl Write for Broken {
    fn write(&mut self, _buf: &[u8]) -> io::Result<usize> {
        Err(io::Error::from(ErrorKind::Other))
    }

    fn flush(&mut self) -> io::Result<()> {
        Err(io::Error::from(ErrorKind::Other))
    }
}

/// A stream that takes nothing.
#[derive(Drop)]
struct Full;

impl Write for Full {
    fn write(&mut self, _buf: &[u8]) -> io::Result<usize> {
        Ok(0)
    }

    fn flush(&mut self) -> io::Result<()> {
        Ok(())
    }
}

/// A stream whose first calls are interrupted by signals.
#[derive(Drop)]
struct Interrupted {
    times: u8,
}

impl Interrupted {
    /// Whether this call is interrupted.
    fn interrupts(&mut self) -> bool {
        let interrupts = self.times > 0;
        self.times = self.times.saturating_sub(1);
        interrupts
    }
}

impl Read for Interrupted {
    fn read(&mut self, _buf: &mut [u8]) -> io::Result<usize> {
        if self.interrupts() {
            return Err(io::Error::from(ErrorKind::Interrupted));
        }
        Ok(0)
    }
}

impl Write for Interrupted {
    fn write(&mut self, buf: &[u8]) -> io::Result<usize> {
        if self.interrupts() {
            return Err(io::Error::from(ErrorKind::Interrupted));
        }
        Ok(buf.len())
    }

    fn flush(&mut self) -> io::Result<()> {
        Ok(())
    }
}

#[test]
fn interrupted_calls_are_made_again(rt: HostRuntime) -> Result<(), Fail> {
    let mut source = CountedReader::new(Interrupted { times: 3 });
    assert_eq!(rt; source.read(&mut [0u8; 4])?, 0);
    assert_eq!(rt; source.faults, 0);
    let mut sink = CountedWriter::new(Interrupted { times: 3 });
    assert_eq!(rt; sink.write(b"text")?, 4);
    assert_eq!(rt; sink.faults, 0);
    Ok(())
}

#[test]
fn failing_reads_are_counted(rt: HostRuntime) -> Result<(), Fail> {
    let mut broken = CountedReader::new(Broken);
    assert!(rt; broken.read(&mut [0u8; 4]).is_err());
    assert!(rt; broken.read(&mut [0u8; 4]).is_err());
    assert_eq!(rt; broken.faults, 2);
    Ok(())
}

#[test]
fn bytes_are_read(rt: HostRuntime) -> Result<(), Fail> {
    let mut text = CountedReader::new(b"text".as_slice());
    let mut buf = [0u8; 8];
    assert_eq!(rt; text.read(&mut buf)?, 4);
    assert_eq!(rt; &buf[..4], b"text".as_slice());
    assert_eq!(rt; text.faults, 0);
    Ok(())
}

#[test]
fn failing_writes_and_flushes_are_counted(rt: HostRuntime) -> Result<(), Fail> {
    let mut broken = CountedWriter::new(Broken);
    assert!(rt; broken.write(b"text").is_err());
    assert!(rt; broken.flush().is_err());
    assert_eq!(rt; broken.faults, 2);
    Ok(())
}

#[test]
fn taking_nothing_is_a_fault(rt: HostRuntime) -> Result<(), Fail> {
    let mut full = CountedWriter::new(Full);
    assert!(rt; full.write(b"text").is_err());
    assert_eq!(rt; full.write(b"")?, 0);
    full.flush()?;
    assert_eq!(rt; full.faults, 1);
    Ok(())
}
