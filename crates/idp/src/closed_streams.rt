//! Standard streams that were closed before the program began.
use std::fs;
use std::rt::Files;

/// Holds the numbers of standard streams that are closed: a file that is opened takes the least free number, so that
/// replies would be printed into a log that came by the number of the output. What is held is a folder, of which no
/// byte can be read, and to which none can be written. Where no stream is closed, it takes other numbers.
#[derive(Drop)]
pub struct StandIns<F> {
    _held: [Option<F>; 3],
}

/// A folder that is always there.
fn folder<R: Files>(rt: &R) -> Option<R::File> {
    match fs::open(rt, "/") {
        Ok(file) => Some(file),
        Err(_) => None,
    }
}

impl<F> StandIns<F> {
    /// The numbers are held until it is dropped.
    pub fn new<R: Files<File = F>>(rt: &R) -> StandIns<F> {
        StandIns {
            _held: [folder(rt), folder(rt), folder(rt)],
        }
    }
}
