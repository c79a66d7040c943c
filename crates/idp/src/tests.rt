//! The words of the process.
ghost use Rattle.std.specs.Io.{WritesAtMost};

use super::words_of;
use std::env::{Env, FillError};
use std::test::Fail;

/// The arguments of a process, its name among them.
#[derive(Drop)]
struct Arguments<'a> {
    words: &'a [&'a [u8]],
}

impl Env for Arguments<'_> {
    fn arg(&self, i: usize, buf: &mut [u8]) -> Result<usize, FillError> {
        let Some(word) = self.words.get(i) else {
            return Err(FillError::NotPresent);
        };
        let count = word.len();
        if count > buf.len() {
            return Err(FillError::TooLong);
        }
        buf[..count].copy_from_slice(word);
        Ok(count)
    }

    fn var(&self, _name: &str, _buf: &mut [u8]) -> Result<usize, FillError> {
        Err(FillError::NotPresent)
    }

    fn var_at(&self, _i: usize, _buf: &mut [u8]) -> Result<usize, FillError> {
        Err(FillError::NotPresent)
    }
}

const WORDS: [(&[&[u8]], usize); 4] = [
    (&[b"idp"], 0),
    (&[b"idp", b"consult", b"kb.idp"], 2),
    (&[b"idp", b"consult", b"\xff"], 0),
    (&[], 0),
];

#[test]
fn words_that_are_no_text_are_none(rt: HostRuntime) -> Result<(), Fail> {
    for (words, count) in &WORDS {
        let found = words_of(&(Arguments { words }, rt.alloc()))?;
        assert_eq!(rt; found.len(), *count);
    }
    Ok(())
}
