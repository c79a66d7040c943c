//! Devices: sources of bytes, sinks for bytes and shelves of files, each with a count of its faults; whole inputs and
//! outputs over them; and inputs by lines.
#![tactic(auto)]

pub mod laws;
mod line_buffer;
mod lines;
mod read_write;
mod shelf;
mod sink;
mod source;
mod traits;

pub use lines::{LineError, LineState, Next, next_line};
pub use read_write::{ReadError, newlines_in, read_up_to, write_all};
pub use shelf::MemShelf;
pub use sink::{MemSink, NullSink};
pub use source::{MemFile, MemSource};
pub use std::alloc::AllocError as Memory;
pub use traits::{Failed, Shelf, Sink, Source};
