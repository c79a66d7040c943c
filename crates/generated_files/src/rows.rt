//! The rows of pairs of a number and the next one.
ghost use Rattle.std.specs.Prelude.{◌≡◌, IfOk, codes};
ghost use Rattle.std.specs.List.{join_by};
ghost use Rattle.std.specs.String.{string_bytes};
ghost use Rattle.generated_files.specs.Texts.{early_courses, numbers_before, row_text};

use std::alloc::{AllocError, Global};

/// How many courses a group has, but for the last one.
const GROUP: u32 = 4;

/// Of so many courses in groups, those that have a next one in their group.
pub fn early_courses(alloc: Global, courses: u32) -> Result<Vec<u32>, AllocError>
    ensures { IfOk result (λ found. found.items ≡ early_courses courses) }
{
    let mut found = Vec::new(alloc);
    for course in 1..courses {
        if course % GROUP != 0 {
            found.push(course)?;
        }
    }
    Ok(found)
}

/// Of so many days, those that have a next one.
pub fn early_days(alloc: Global, days: u32) -> Result<Vec<u32>, AllocError>
    ensures { IfOk result (λ found. found.items ≡ numbers_before days) }
{
    let mut found = Vec::new(alloc);
    for day in 1..days {
        found.push(day)?;
    }
    Ok(found)
}

/// The number and the one after it.
fn row_text(alloc: Global, first: u32) -> Result<String, AllocError>
    ensures { IfOk result (λ text. string_bytes text ≡ row_text first) }
{
    let next = u64::from(first) + 1;
    format!(in alloc; "{first},{next}")
}

/// Each of the numbers with the one after it.
pub fn rows_text(alloc: Global, firsts: &[u32]) -> Result<String, AllocError>
    ensures { IfOk result (λ text. string_bytes text ≡ join_by row_text (codes "; ") firsts.now) }
{
    let mut rows = Vec::new(alloc);
    for first in firsts {
        rows.push(row_text(alloc, *first)?)?;
    }
    rows.as_slice().join(alloc, "; ")
}
