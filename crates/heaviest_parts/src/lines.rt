//! What is told of the heaviest parts.
use crate::choice::heaviest;
use crate::numbers::grouped;
use crate::parts::Part;
use refusal_notes::line_of;
use std::alloc::{AllocError as Memory, Global};

/// How many parts are told.
const TOLD: usize = 3;

/// What is above its limit.
#[derive(Clone, Copy)]
pub enum Excess {
    /// The number of ground atoms.
    Atoms,
    /// The weight of the theory with all terms.
    Weight,
    /// What the data leave open of that weight.
    Open,
}

/// What stands before the parts of a file that weighs so much.
fn heading(alloc: Global, weight: u64, excess: Excess) -> Result<String, Memory> {
    let weight = grouped(alloc, weight)?;
    match excess {
        Excess::Atoms => {
            String::from_str(alloc, "  the declarations with the most ground atoms:\n")
        }
        Excess::Weight => format!(in alloc;
            "  it weighs {weight} of at most 64,000,000; what weighs most of it, by the line where it ends:\n"
        ),
        Excess::Open => format!(in alloc;
            "  it weighs {weight} of at most 64,000,000, but what the data leave open of it more than 4,000,000: give \
more\n  data, as all rows of a predicate or all values of a function, or fewer elements\n  what the data leave open of \
its heaviest parts, by the line where they end:\n"
        ),
    }
}

/// Appends the line of a part.
fn push_part(alloc: Global, bytes: &[u8], part: Part, out: &mut Vec<u8>) -> Result<(), Memory> {
    let (front, _) = bytes.split_at(part.place.min(bytes.len()));
    let line = line_of(front);
    let count = grouped(alloc, part.count)?;
    let text = format!(in alloc; "    line {line}: {count}\n")?;
    out.extend_from_slice(text.as_bytes())
}

/// Appends the lines of the parts that count most, the greatest first.
fn push_heaviest(
    alloc: Global,
    bytes: &[u8],
    parts: &[Part],
    out: &mut Vec<u8>,
) -> Result<(), Memory> {
    let mut passed = Vec::new(alloc);
    for _ in 0..TOLD {
        let Some(part) = heaviest(parts, &passed) else {
            return Ok(());
        };
        push_part(alloc, bytes, part, out)?;
        passed.push(part.place)?;
    }
    Ok(())
}

/// What is told of what is above its limit in a file that weighs so much: which of these parts count most, a line each.
pub fn lines_on(
    alloc: Global,
    bytes: &[u8],
    weight: u64,
    excess: Excess,
    parts: &[Part],
) -> Result<Vec<u8>, Memory> {
    let mut out = Vec::new(alloc);
    out.extend_from_slice(heading(alloc, weight, excess)?.as_bytes())?;
    push_heaviest(alloc, bytes, parts, &mut out)?;
    Ok(out)
}
