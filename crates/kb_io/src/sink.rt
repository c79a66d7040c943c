//! Sinks in memory.
ghost use Rattle.std.specs.Prelude.{◌≡◌, ◌<◌, ◌≤◌, ℕ, List, Option, Some, None, IfOk, length};
ghost use Rattle.std.specs.Io.KnownBytes.{WriteAppends, Keeps};
ghost use Rattle.kb_io.specs.Outside.{HasCause};
ghost use Rattle.kb_io.specs.Memory.{SinkState, WritesAsScripted, FlushesAsScripted};

use crate::source::piece_of;
use crate::traits::{Failed, Sink};
use std::marker::Model;

/// A sink over memory, which fails and takes pieces exactly as scripted. Its writes and its flushes are counted
/// apart, each from 0. A write that finds no memory is a fault too.
#[derive(Drop)]
pub struct MemSink {
    held: Vec<u8>,
    failing_writes: Vec<u64>,
    failing_flushes: Vec<u64>,
    pieces: Vec<usize>,
    writes: u64,
    flushes: u64,
    faults: u64,
}

impl Model for MemSink {
    ghost use Rattle.kb_io.specs.Memory.{SinkState};

    ghost Value = { SinkState };

    ghost view = { λ s. record {
      held = s.held.items;
      failing_writes = s.failing_writes.items;
      failing_flushes = s.failing_flushes.items;
      pieces = s.pieces.items;
      writes = s.writes;
      flushes = s.flushes;
      faults = s.faults;
    } };
}

impl MemSink {
    /// It holds `held`, and no call was made. The calls whose numbers are in the two lists fail. Any other write
    /// takes at most as many bytes as the item of `pieces` at its number says.
    pub fn new(
        held: Vec<u8>,
        failing_writes: Vec<u64>,
        failing_flushes: Vec<u64>,
        pieces: Vec<usize>,
    ) -> MemSink
        ensures { result ≡ record {
          held = held.items;
          failing_writes = failing_writes.items;
          failing_flushes = failing_flushes.items;
          pieces = pieces.items;
          writes = 0;
          flushes = 0;
          faults = 0;
        } }
    {
        MemSink {
            held,
            failing_writes,
            failing_flushes,
            pieces,
            writes: 0,
            flushes: 0,
            faults: 0,
        }
    }

    /// The bytes that it holds.
    pub fn held(&self) -> &[u8]
        ensures { result.now ≡ self.now.held }
    {
        self.held.as_slice()
    }
}

impl Sink for MemSink {
    ghost holds = { λ s. Some s.held };

    ghost faults = { λ s. s.faults };

    fn write(&mut self, piece: &[u8]) -> Result<usize, Failed>
        ensures bound { IfOk result (λ n. n ≤ length piece.now) }
        ensures some { 0 < length piece.now → IfOk result (λ n. 0 < n) }
        ensures bytes { WriteAppends (Some self.old.held) (Some self.new.held) result piece.now }
        ensures cause { HasCause self.old.faults self.new.faults result }
        ensures told { WritesAsScripted self.old self.new result (length piece.now) }
    {
        let call = self.writes;
        self.writes = call.saturating_add(1);
        if self.failing_writes.contains(&call) {
            self.faults = self.faults.saturating_add(1);
            return Err(Failed);
        }
        let count = piece_of(&self.pieces, call, piece.len());
        if self.held.extend_from_slice(&piece[..count]).is_err() {
            self.faults = self.faults.saturating_add(1);
            return Err(Failed);
        }
        Ok(count)
    }

    fn flush(&mut self) -> Result<(), Failed>
        ensures bytes { Keeps (Some self.old.held) (Some self.new.held) }
        ensures cause { HasCause self.old.faults self.new.faults result }
        ensures told { FlushesAsScripted self.old self.new result }
    {
        let call = self.flushes;
        self.flushes = call.saturating_add(1);
        if self.failing_flushes.contains(&call) {
            self.faults = self.faults.saturating_add(1);
            return Err(Failed);
        }
        Ok(())
    }
}

/// Takes all, keeps nothing and never fails.
#[derive(Drop)]
pub struct NullSink;

impl Sink for NullSink {
    ghost holds = { λ _. None };

    ghost faults = { λ _. 0 };

    fn write(&mut self, piece: &[u8]) -> Result<usize, Failed>
        ensures bound { IfOk result (λ n. n ≤ length piece.now) }
        ensures some { 0 < length piece.now → IfOk result (λ n. 0 < n) }
        ensures bytes { WriteAppends None None result piece.now }
        ensures cause { HasCause 0 0 result }
        ensures all { result ≡ Ok (length piece.now) }
    {
        Ok(piece.len())
    }

    fn flush(&mut self) -> Result<(), Failed>
        ensures bytes { Keeps None None }
        ensures cause { HasCause 0 0 result }
        ensures all { result ≡ Ok tt }
    {
        Ok(())
    }
}
