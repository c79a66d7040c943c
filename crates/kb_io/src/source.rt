//! Sources in memory.
ghost use Rattle.std.specs.Prelude.{◌≡◌, ◌<◌, ◌≤◌, ℕ, List, Option, Some, IfOk, length, slice_get};
ghost use Rattle.std.specs.Io.KnownBytes.{ReadConsumes};
ghost use Rattle.kb_io.specs.Outside.{HasCause};
ghost use Rattle.kb_io.specs.Memory.{SourceState, ReadsAsScripted, piece};

use crate::traits::{Failed, Source};
use std::marker::Model;

/// A source over bytes in memory, which fails and gives pieces exactly as scripted. Its reads are counted from 0.
#[derive(Drop)]
pub struct MemSource {
    bytes: Vec<u8>,
    at: usize,
    failing: Vec<u64>,
    pieces: Vec<usize>,
    calls: u64,
    faults: u64,
}

impl Model for MemSource {
    ghost use Rattle.std.specs.Prelude.{◌≤◌, length, drop};
    ghost use Rattle.kb_io.specs.Memory.{SourceState};

    ghost Value = { SourceState };

    ghost view = { λ s. record {
      left = drop s.at s.bytes.items;
      failing = s.failing.items;
      pieces = s.pieces.items;
      calls = s.calls;
      faults = s.faults;
    } };

    ghost invariant = { λ s. s.at ≤ length s.bytes.items };
}

impl MemSource {
    /// All bytes are left, and no call was made. The calls whose numbers are in `failing` fail. Any other call
    /// gives at most as many bytes as the item of `pieces` at its number says.
    pub fn new(bytes: Vec<u8>, failing: Vec<u64>, pieces: Vec<usize>) -> MemSource
        ensures { result ≡ record {
          left = bytes.items;
          failing = failing.items;
          pieces = pieces.items;
          calls = 0;
          faults = 0;
        } }
    {
        MemSource {
            bytes,
            at: 0,
            failing,
            pieces,
            calls: 0,
            faults: 0,
        }
    }

    pub(crate) fn faults(&self) -> u64
        ensures { result ≡ self.now.faults }
    {
        self.faults
    }
}

/// How many of `room` bytes the call of this number gives.
pub(crate) fn piece_of(pieces: &[usize], call: u64, room: usize) -> usize
    ensures { result ≡ piece (slice_get pieces.now call) room }
{
    match pieces.get(call as usize) {
        Some(most) => room.min((*most).max(1)),
        None => room,
    }
}

impl Source for MemSource {
    ghost left = { λ s. Some s.left };

    ghost faults = { λ s. s.faults };

    fn read(&mut self, buf: &mut [u8]) -> Result<usize, Failed>
        ensures bound { IfOk result (λ n. n ≤ length buf.new) }
        ensures bytes { ReadConsumes (Some self.old.left) (Some self.new.left) result buf.new }
        ensures cause { HasCause self.old.faults self.new.faults result }
        ensures told { ReadsAsScripted self.old self.new result (length buf.old) }
    {
        let call = self.calls;
        self.calls = call.saturating_add(1);
        if self.failing.contains(&call) {
            self.faults = self.faults.saturating_add(1);
            return Err(Failed);
        }
        let room = buf.len().min(self.bytes.len() - self.at);
        let count = piece_of(&self.pieces, call, room);
        let end = self.at + count;
        buf[..count].copy_from_slice(&self.bytes[self.at..end]);
        self.at = end;
        Ok(count)
    }
}

/// A file in memory.
#[derive(Drop)]
pub struct MemFile {
    pub name: String,
    pub source: MemSource,
}
