//! The bytes of a source between two lines: the line under way, and the rest of the last chunk that was read.
ghost use Rattle.std.specs.Prelude.{◌≡◌, ◌+◌, ◌-◌, ◌<◌, ◌≤◌, [], ◌∷◌, ◌++◌, List, ℕ, true, false, IfOk, MatchOption};
ghost use Rattle.std.specs.Prelude.{MatchResult, length, take, drop};
ghost use Rattle.std.specs.Io.KnownBytes.{Consumes, Keeps, IsAtEnd};
ghost use Rattle.kb_io.specs.Outside.{HasCause};
ghost use Rattle.kb_io.specs.Lines.{newlines, StandsFor};

use crate::lines::{LineError, Next};
use crate::traits::{Failed, Source};
use std::alloc::{AllocError, Global};

const LONGEST_LINE: usize = 65_536;

const MOST_BYTES: usize = 67_108_864;

const CHUNK: usize = 65_536;

/// How far a line has come.
#[derive(Clone, Copy)]
pub(crate) enum Stage {
    /// The bytes are its beginning.
    Partial,
    /// It is too long, and its bytes were given up.
    Overlong,
    /// The bytes are a line that was returned.
    Complete,
}

/// The line under way, or the one returned last.
#[derive(Drop)]
pub(crate) struct LineBuffer {
    bytes: Vec<u8>,
    stage: Stage,
}

impl LineBuffer {
    ghost use Rattle.kb_io.specs.Buffer.{begun, answered, IsUnderWay, IsSoundLine};
    ghost use Rattle.kb_io.specs.Finishes.{Finishes, FinishesLast};

    // Begins a line where none is under way.
    fn begin(&mut self)
        requires { IsSoundLine self.old }
        ensures sound { IsSoundLine self.new }
        ensures under_way { IsUnderWay self.new }
        ensures begun { begun self.new ≡ begun self.old }
    {
        if let Stage::Complete = self.stage {
            self.bytes.clear();
            self.stage = Stage::Partial;
        }
    }

    // Adds a piece to the line under way.
    fn keep(&mut self, piece: &[u8])
        requires sound { IsSoundLine self.old }
        requires under_way { IsUnderWay self.old }
        requires none { newlines piece.now ≡ 0 }
        ensures sound { IsSoundLine self.new }
        ensures under_way { IsUnderWay self.new }
        ensures begun { StandsFor (begun self.new) (begun self.old ++ piece.now) }
    {
        match self.stage {
            Stage::Partial if piece.len() <= LONGEST_LINE - self.bytes.len() => {
                // The room for the longest line was taken before.
                let _ = self.bytes.extend_from_slice(piece);
            }
            Stage::Partial => self.stage = Stage::Overlong,
            Stage::Overlong => {}
            Stage::Complete => {}
        }
    }

    // Returns the line under way.
    fn finish(&mut self) -> Next
        requires sound { IsSoundLine self.old }
        requires under_way { IsUnderWay self.old }
        ensures sound { IsSoundLine self.new }
        ensures answer { Finishes result self.old self.new }
    {
        match self.stage {
            Stage::Overlong => {
                self.bytes.clear();
                self.stage = Stage::Partial;
                Next::LongLine
            }
            Stage::Partial | Stage::Complete => {
                self.stage = Stage::Complete;
                Next::Line
            }
        }
    }

    // The line under way has a byte.
    fn has_begun(&self) -> bool
        requires { IsUnderWay self.now }
        ensures some { result ≡ true → 0 < length (begun self.now) }
        ensures none { result ≡ false → begun self.now ≡ [] }
    {
        match self.stage {
            Stage::Partial => !self.bytes.is_empty(),
            Stage::Overlong => true,
            Stage::Complete => true,
        }
    }

    // Returns the line under way where nothing follows it.
    fn finish_last(&mut self) -> Next
        requires sound { IsSoundLine self.old }
        requires under_way { IsUnderWay self.old }
        ensures sound { IsSoundLine self.new }
        ensures answer { FinishesLast result self.old self.new }
    {
        if self.has_begun() {
            self.finish()
        } else {
            Next::End
        }
    }
}

// The offset of the first newline.
fn newline_in(bytes: &[u8]) -> Option<usize>
    ensures { MatchOption result (newlines bytes.now ≡ 0) (λ i. (i < length bytes.now) × (newlines
        (take i bytes.now) ≡ 0) × (drop i bytes.now ≡ 10 ∷ drop (i + 1) bytes.now)) }
{
    for (i, byte) in bytes.iter().enumerate() {
        if *byte == b'\n' {
            return Some(i);
        }
    }
    None
}

// Reads to the beginning of the chunk.
fn fill<S: Source>(src: &mut S, chunk: &mut [u8], room: usize) -> Result<usize, Failed>
    requires within { room ≤ length chunk.old }
    requires some { 0 < room }
    ensures bound { IfOk result (λ n. n ≤ room) }
    ensures bytes { MatchResult result (λ n. Consumes (S.left src.old) (S.left src.new) (take n chunk.new) × (n ≡ 0
        → IsAtEnd (S.left src.new))) (λ _. Keeps (S.left src.old) (S.left src.new)) }
    ensures cause { HasCause (S.faults src.old) (S.faults src.new) result }
{
    src.read(&mut chunk[..room])
}

/// The bytes taken of a source and not yet given out: the line under way, and the rest of the last chunk.
#[derive(Drop)]
pub(crate) struct Buffer {
    line: LineBuffer,
    chunk: Vec<u8>,
    at: usize,
    end: usize,
    taken: usize,
}

impl Buffer {
    ghost use Rattle.kb_io.specs.Buffer.{begun, answered, unread, pending, IsUnderWay, IsSound};
    ghost use Rattle.kb_io.specs.Finishes.{Cuts, Refills};
    ghost use Rattle.kb_io.specs.Pending.{NextLine, most_bytes};

    pub(crate) fn new(alloc: Global) -> Result<Buffer, AllocError>
        ensures { IfOk result (λ buffer. IsSound buffer ×
            (pending buffer ≡ record { taken = 0; ahead = []; line = [] })) }
    {
        Ok(Buffer {
            line: LineBuffer {
                bytes: Vec::with_capacity(alloc, LONGEST_LINE)?,
                stage: Stage::Partial,
            },
            chunk: Vec::from_elem(alloc, 0, CHUNK)?,
            at: 0,
            end: 0,
            taken: 0,
        })
    }

    pub(crate) fn answered(&self) -> &[u8]
        ensures { result.now ≡ answered self.now.line }
    {
        match self.line.stage {
            Stage::Complete => &self.line.bytes,
            _ => &[],
        }
    }

    // Moves what is unread to the line under way, up to the first newline, and returns the line that ends there.
    fn cut(&mut self) -> Option<Next>
        requires { IsSound self.old }
        ensures sound { IsSound self.new }
        ensures taken { self.new.taken ≡ self.old.taken }
        ensures answer { Cuts result self.old self.new }
    {
        self.line.begin();
        let unread = &self.chunk[self.at..self.end];
        match newline_in(unread) {
            Some(n) => {
                self.line.keep(&unread[..n]);
                self.at += n + 1;
                Some(self.line.finish())
            }
            None => {
                self.line.keep(unread);
                self.at = self.end;
                None
            }
        }
    }

    // Takes a chunk of the source. All that was taken before was looked at.
    fn refill<S: Source>(&mut self, src: &mut S) -> Result<usize, LineError>
        requires sound { IsSound self.old }
        requires empty { self.old.at ≡ self.old.end }
        ensures sound { IsSound self.new }
        ensures line { self.new.line ≡ self.old.line }
        ensures answer { Refills result self.old self.new (S.left src.old) (S.left src.new) (S.faults src.old)
            (S.faults src.new) }
    {
        if self.taken >= MOST_BYTES {
            return self.probe(src);
        }
        let room = (MOST_BYTES - self.taken).min(CHUNK);
        let count = fill(src, &mut self.chunk, room)?;
        self.at = 0;
        self.end = count;
        self.taken += count;
        Ok(count)
    }

    // Looks for a byte beyond the bytes that may be taken.
    fn probe<S: Source>(&mut self, src: &mut S) -> Result<usize, LineError>
        requires sound { IsSound self.old }
        requires empty { self.old.at ≡ self.old.end }
        requires full { most_bytes ≤ self.old.taken }
        ensures sound { IsSound self.new }
        ensures line { self.new.line ≡ self.old.line }
        ensures answer { Refills result self.old self.new (S.left src.old) (S.left src.new) (S.faults src.old)
            (S.faults src.new) }
    {
        if self.taken > MOST_BYTES {
            return Err(LineError::TooLong);
        }
        let mut one = [0u8; 1];
        if src.read(&mut one)? == 0 {
            return Ok(0);
        }
        self.taken += 1;
        Err(LineError::TooLong)
    }

    /// Reads the next line.
    pub(crate) fn next<S: Source>(&mut self, src: &mut S) -> Result<Next, LineError>
        requires { IsSound self.old }
        ensures sound { IsSound self.new }
        ensures next { NextLine result (pending self.old) (pending self.new) (S.left src.old) (S.left src.new)
            (S.faults src.old) (S.faults src.new) }
        ensures still { 0 < newlines (pending self.old).ahead → src.new ≡ src.old }
    {
        loop {
            if let Some(next) = self.cut() {
                return Ok(next);
            }
            if self.refill(src)? == 0 {
                return Ok(self.line.finish_last());
            }
        }
    }
}
