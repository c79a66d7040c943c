//! The devices that a program reads and writes, as traits.
ghost use Rattle.std.specs.Prelude.{◌≡◌, ◌≢◌, ℕ, ◌<◌, ◌≤◌, List, Option, Some, IfOk, IfSome, length};
ghost use Rattle.std.specs.Io.KnownBytes.{ReadConsumes, WriteAppends, Keeps};
ghost use Rattle.kb_io.specs.Outside.{HasCause, GrewByName, KeptNames, Closes, OpensOne, LoweredByOne};

use thiserror::Error;

/// A call of a device that did not come about.
#[derive(Clone, Copy, Debug, Error)]
#[error("the outside failed")]
pub struct Failed;

/// A source of bytes.
pub trait Source {
    // the bytes that it has left, where they are observable
    ghost left: { Self → Option (List ℕ) };
    // how often it has failed
    ghost faults: { Self → ℕ };

    /// Reads some bytes to the beginning of `buf`. For a `buf` that is not empty 0 is the end of input.
    fn read(&mut self, buf: &mut [u8]) -> Result<usize, Failed>
        ensures bound { IfOk result (λ n. n ≤ length buf.new) }
        ensures bytes { ReadConsumes (left self.old) (left self.new) result buf.new }
        ensures cause { HasCause (faults self.old) (faults self.new) result };
}

/// A sink for bytes.
pub trait Sink {
    // the bytes that it holds, where they are observable
    ghost holds: { Self → Option (List ℕ) };
    // how often it has failed
    ghost faults: { Self → ℕ };

    /// Takes a prefix of the piece, which is not empty where the piece is not.
    fn write(&mut self, piece: &[u8]) -> Result<usize, Failed>
        ensures bound { IfOk result (λ n. n ≤ length piece.now) }
        ensures some { 0 < length piece.now → IfOk result (λ n. 0 < n) }
        ensures bytes { WriteAppends (holds self.old) (holds self.new) result piece.now }
        ensures cause { HasCause (faults self.old) (faults self.new) result };

    /// Hands on what was written.
    fn flush(&mut self) -> Result<(), Failed>
        ensures bytes { Keeps (holds self.old) (holds self.new) }
        ensures cause { HasCause (faults self.old) (faults self.new) result };
}

/// A shelf of named files. A file's faults reach the shelf's count when it is closed.
pub trait Shelf {
    type Src: Source + Drop;

    // the bytes of the named file, where they are observable
    ghost file: { Self → List ℕ → Option (List ℕ) };
    // the names that it was asked for, where they are observable
    ghost asked: { Self → Option (List (List ℕ)) };
    // how many sources it has handed out and not got back, where that is observable
    ghost open_sources: { Self → Option ℕ };
    // how often it, or a source that it got back, has failed
    ghost faults: { Self → ℕ };

    /// Hands out the named file.
    fn open(&mut self, name: &str) -> Result<Self::Src, Failed>
        ensures fresh { IfOk result (λ src. Self.Src.faults src ≡ 0) }
        ensures bytes { IfOk result (λ src. IfSome (file self.old name.now) (λ bytes. Self.Src.left src ≡ Some bytes)) }
        ensures others { (other : List ℕ) → other ≢ name.now → file self.new other ≡ file self.old other }
        ensures names { GrewByName (asked self.old) (asked self.new) name.now }
        ensures handed_out { OpensOne result (open_sources self.old) (open_sources self.new) }
        ensures cause { HasCause (faults self.old) (faults self.new) result };

    /// Takes a source back.
    fn close(&mut self, src: Self::Src)
        ensures files { (name : List ℕ) → file self.new name ≡ file self.old name }
        ensures names { KeptNames (asked self.old) (asked self.new) }
        ensures taken_back { LoweredByOne (open_sources self.old) (open_sources self.new) }
        ensures cause { Closes (Self.Src.faults src) (faults self.old) (faults self.new) };
}
