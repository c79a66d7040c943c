//! Each reply is flushed before the next line is read.
ghost use Rattle.std.specs.Prelude.{None};

use super::bases::COVER;
use super::runs::{CONSULT, PLAN, Plan, shelf, sink, words};
use idp_cli::run;
use kb_io::{Failed, Sink, Source};
use std::cell::Cell;
use std::rc::Rc;
use std::test::Fail;

const LINES: [&[u8]; 3] = [b"assert Q(b).\n", b"choices.\n", b"model.\n"];

/// Gives line i only after i flushes, and fails before.
#[derive(Drop)]
struct Paced {
    given: usize,
    flushes: Rc<Cell<u64>>,
    faults: u64,
}

impl Source for Paced {
    ghost left = { λ _. None };

    ghost faults = { λ s. s.faults };

    fn read(&mut self, buf: &mut [u8]) -> Result<usize, Failed> {
        if self.flushes.get() < self.given as u64 {
            self.faults = self.faults.saturating_add(1);
            return Err(Failed);
        }
        let Some(line) = LINES.get(self.given) else {
            return Ok(0);
        };
        let count = line.len().min(buf.len());
        buf[..count].copy_from_slice(&line[..count]);
        self.given += 1;
        Ok(count)
    }
}

/// Counts its flushes.
#[derive(Drop)]
struct Counting {
    flushes: Rc<Cell<u64>>,
}

impl Sink for Counting {
    ghost holds = { λ _. None };

    ghost faults = { λ _. 0 };

    fn write(&mut self, piece: &[u8]) -> Result<usize, Failed> {
        Ok(piece.len())
    }

    fn flush(&mut self) -> Result<(), Failed> {
        self.flushes.set(self.flushes.get().wrapping_add(1));
        Ok(())
    }
}

#[test]
fn each_reply_is_flushed_before_the_next_line(rt: HostRuntime) -> Result<(), Fail> {
    let flushes = Rc::new(rt.alloc(), Cell::new(0u64))?;
    let mut commands = Paced {
        given: 0,
        flushes: flushes.clone()?,
        faults: 0,
    };
    let mut out = Counting {
        flushes: flushes.clone()?,
    };
    let words = words(&rt, CONSULT)?;
    let mut shelf = shelf(
        &rt,
        &Plan {
            file: COVER,
            ..PLAN
        },
    )?;
    let mut log = sink(&rt, &PLAN)?;
    let status = run(
        rt.alloc(),
        &words,
        &mut shelf,
        &mut commands,
        &mut out,
        &mut log,
    );
    assert_eq!(rt; status.code(), 0);
    assert_eq!(rt; flushes.get(), 3);
    Ok(())
}
