//! The lines of all cases.
ghost use Rattle.std.specs.Prelude.{◌≡◌, IfOk};
ghost use Rattle.std.specs.String.{string_bytes};
ghost use Rattle.reading_cases.specs.Lines.{IsLine};
ghost use Rattle.reading_cases.specs.Reports.{Adds, IsReport};

use crate::lines::line;
use memchr::memmem;
use std::alloc::{AllocError, Global};

// What stands between two cases.
const MARKER: &[u8] = b"\n====\n";

fn add_line(alloc: Global, lines: &mut String, case: &[u8]) -> Result<(), AllocError>
    ensures { IfOk result (λ _. Adds IsLine case.now (string_bytes lines.old) (string_bytes lines.new)) }
{
    let line = line(alloc, case)?;
    lines.push_str(line.as_str())
}

/// The lines of all cases, in order.
pub fn printed(alloc: Global, cases: &[u8]) -> Result<String, AllocError>
    ensures { IfOk result (λ lines. IsReport cases.now (string_bytes lines)) }
{
    let mut lines = String::new(alloc);
    let mut rest = cases;
    while let Some(len) = memmem::find(rest, MARKER) {
        let (case, after) = rest.split_at(len);
        add_line(alloc, &mut lines, case)?;
        (_, rest) = after.split_at(MARKER.len());
    }
    add_line(alloc, &mut lines, rest)?;
    Ok(lines)
}
