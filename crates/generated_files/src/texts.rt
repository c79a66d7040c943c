//! The texts of files.
ghost use Rattle.std.specs.Prelude.{◌≡◌, ◌++◌, IfOk, codes};
ghost use Rattle.std.specs.String.{string_bytes};
ghost use Rattle.generated_files.specs.Texts.{file_text, pairs_line, rooms, span_line};
ghost use Rattle.generated_files.specs.Texts.{roster_lines, text_of_lines, timetable_lines};

use crate::kinds::Kind;
use crate::rows::{early_courses, early_days, rows_text};
use std::alloc::{AllocError, Global};

/// What stands before the lines of a timetable that have numbers.
const TIMETABLE_RULES: &str = "\
vocabulary V {
  type Course isa nat
  type Slot isa nat
  type Room isa nat
  Before(Course,Course)
  slot(Course):Slot
  room(Course):Room
}
theory T : V {
  !c d: Before(c,d) => slot(c) < slot(d).
  !c d: c < d & slot(c) = slot(d) => room(c) ~= room(d).
}
structure S : V {
";

/// What stands before the lines of a roster that have numbers.
const ROSTER_RULES: &str = "\
vocabulary V {
  type Nurse isa nat
  type Day isa nat
  Next(Day,Day)
  Works(Nurse,Day)
}
theory T : V {
  !d: ?=2 n: Works(n,d).
  !n d e: Works(n,d) & Next(d,e) => ~Works(n,e).
}
structure S : V {
  Nurse = {1..4}
";

/// One room more than there are groups of four courses.
fn rooms(courses: u32) -> u64
    ensures { result ≡ rooms courses }
{
    (u64::from(courses) + 3) / 4 + 1
}

/// The line that gives a type the numbers from 1 to the last one.
fn span_line(alloc: Global, name: &str, last: u64) -> Result<String, AllocError>
    ensures { IfOk result (λ line. string_bytes line ≡ span_line name.now last ++ codes "\n") }
{
    let mut line = format!(in alloc; "  {name} = {{1..{last}}}")?;
    line.push_str("\n")?;
    Ok(line)
}

/// The line that gives a predicate each of the numbers with the one after it.
fn pairs_line(alloc: Global, name: &str, firsts: &[u32]) -> Result<String, AllocError>
    ensures { IfOk result (λ line. string_bytes line ≡ pairs_line name.now firsts.now ++ codes "\n") }
{
    let rows = rows_text(alloc, firsts)?;
    let mut line = format!(in alloc; "  {name} = {{{rows}}}")?;
    line.push_str("\n")?;
    Ok(line)
}

/// A timetable of so many courses.
fn timetable(alloc: Global, courses: u32) -> Result<String, AllocError>
    ensures { IfOk result (λ text. string_bytes text ≡ text_of_lines (timetable_lines courses)) }
{
    let firsts = early_courses(alloc, courses)?;
    let course = span_line(alloc, "Course", u64::from(courses))?;
    let room = span_line(alloc, "Room", rooms(courses))?;
    let before = pairs_line(alloc, "Before", firsts.as_slice())?;
    let parts = [
        TIMETABLE_RULES,
        course.as_str(),
        "  Slot = {1..8}\n",
        room.as_str(),
        before.as_str(),
        "}\nterm cost : V { max{c : true : slot(c)} }\n",
    ];
    parts.as_slice().join(alloc, "")
}

/// A roster of so many days.
fn roster(alloc: Global, days: u32) -> Result<String, AllocError>
    ensures { IfOk result (λ text. string_bytes text ≡ text_of_lines (roster_lines days)) }
{
    let firsts = early_days(alloc, days)?;
    let day = span_line(alloc, "Day", u64::from(days))?;
    let next = pairs_line(alloc, "Next", firsts.as_slice())?;
    let parts = [
        ROSTER_RULES,
        day.as_str(),
        next.as_str(),
        "}\nterm cost : V { sum{n d : Works(n,d) : n} }\n",
    ];
    parts.as_slice().join(alloc, "")
}

/// The file of a kind and a number. Any number makes a file; those of the kind make one that is within all limits.
pub fn file_text(alloc: Global, kind: Kind, number: u32) -> Result<String, AllocError>
    ensures { IfOk result (λ text. string_bytes text ≡ file_text kind number) }
{
    match kind {
        Kind::Timetable => timetable(alloc, number),
        Kind::Roster => roster(alloc, number),
    }
}
