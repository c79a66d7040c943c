//! A small log.
ghost use Rattle.search_log.specs.Entries.{AreEntries};

use crate::under_last_bound;
use std::test::Fail;

/// A search with two bounds: 5, of constraint 4, and 6, of constraint 5.
fn search() -> &'static [u8]
    ensures { AreEntries result.now }
{
    b"b 5 1 10\nl -5 1 0 2 3 0\nb 6 1 7\nc 4 2 -5 0\nc 5 -6 3 0\nc 3 1 0\nl 1 -5 4 -6 0 8 0\n"
}

/// The same under 6.
const TIGHT: &[u8] =
    b"b 5 1 10\nb 6 1 7\nl 1 -6 0 2 3 0\nc 5 2 -6 0\nc 5 3 -6 0\nc 3 1 0\nl 1 4 -6 0 8 0\n";

#[test]
fn what_was_derived_under_one_bound_is_under_the_last(rt: HostRuntime) -> Result<(), Fail> {
    let text = under_last_bound(rt.alloc(), search(), 3)?;
    assert!(rt; text.as_slice() == TIGHT);
    Ok(())
}
