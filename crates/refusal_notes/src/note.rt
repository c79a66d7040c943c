//! What is told of a refused file.
ghost use Rattle.std.specs.Prelude.{◌≡◌, ◌++◌, IfOk, OnOk, drop, take};
ghost use Rattle.refusal_notes.specs.Notes.{head, note_text, IsNote};

use crate::advice::advice;
use crate::causes::sentence;
use crate::excerpt::{first_bytes, is_text, nearest, push_bytes, push_excerpt};
use crate::places::{Place, place_between};
use crate::spots::{column_of, line_of};
use kb_text::{K, KbFault};
pub use std::alloc::AllocError as Memory;
use std::alloc::Global;

/// What stands before a place of a text, and what stands behind it.
fn parts_at(text: &[u8], place: usize) -> (&[u8], &[u8])
    ensures front { result.0.now ≡ take place text.now }
    ensures behind { result.1.now ≡ drop place text.now }
{
    text.split_at(place.min(text.len()))
}

/// Appends the name of the file, the line and the column of the fault, and its code and name.
fn push_head(
    alloc: Global,
    out: &mut Vec<u8>,
    name: &str,
    front: &[u8],
    fault: KbFault,
) -> Result<(), Memory>
    ensures { OnOk result (out.new.items ≡ out.old.items ++ head name.now front.now fault) }
{
    let line = line_of(front);
    let column = column_of(front);
    let cause = fault.cause;
    push_bytes(out, name.as_bytes())?;
    push_bytes(
        out,
        format!(in alloc; ":{line}:{column}: {cause}: ")?.as_bytes(),
    )
}

/// What is said of a fault beside its place, and whether the parts of its line are text.
#[derive(Drop)]
pub struct Wording {
    words: Vec<u8>,
    /// Nothing, or a line.
    advice: Vec<u8>,
    front_is_text: bool,
    is_text: bool,
}

/// The line that says how a refusal is mended; none where that cannot be said.
fn advice_line(alloc: Global, cause: K, place: &Place<'_>) -> Result<Vec<u8>, Memory> {
    let mut out = Vec::new(alloc);
    if let Some(advice) = advice(cause, place) {
        push_bytes(&mut out, b"  ")?;
        push_bytes(&mut out, advice)?;
        push_bytes(&mut out, b"\n")?;
    }
    Ok(out)
}

/// What to say of the fault at the place between the two texts.
fn wording_of(
    alloc: Global,
    fault: KbFault,
    front: &[u8],
    behind: &[u8],
) -> Result<Wording, Memory> {
    let place = place_between(front, behind);
    let words = sentence(alloc, fault.cause, &place)?;
    let advice = advice_line(alloc, fault.cause, &place)?;
    Ok(Wording {
        words,
        advice,
        front_is_text: is_text(nearest(front)),
        is_text: is_text(first_bytes(behind)),
    })
}

/// Appends what is told of a fault in these words.
fn push_note(
    alloc: Global,
    out: &mut Vec<u8>,
    name: &str,
    text: &[u8],
    fault: KbFault,
    wording: &Wording,
) -> Result<(), Memory>
    ensures { OnOk result (out.new.items ≡ out.old.items ++ note_text name.now text.now fault wording.now) }
{
    let (front, behind) = parts_at(text, fault.place);
    push_head(alloc, out, name, front, fault)?;
    push_bytes(out, &wording.words)?;
    push_bytes(out, b"\n")?;
    push_excerpt(out, front, behind, wording.front_is_text, wording.is_text)?;
    push_bytes(out, &wording.advice)
}

/// What is told of a fault in the text of the named file: where it is, what it is, the line with a caret under the
/// place, and where a habit from other languages is the likely reason, what to write. It ends with a newline.
pub fn fault_note(alloc: Global, name: &str, text: &[u8], fault: KbFault) -> Result<Vec<u8>, Memory>
    ensures { IfOk result (λ note. IsNote name.now text.now fault note.items) }
{
    let (front, behind) = parts_at(text, fault.place);
    let wording = wording_of(alloc, fault, front, behind)?;
    let mut out = Vec::new(alloc);
    push_note(alloc, &mut out, name, text, fault, &wording)?;
    Ok(out)
}

/// What is told of a file that has too many bytes, with so many newlines before the limit.
pub fn long_file_note(alloc: Global, name: &str, newlines: u64) -> Result<Vec<u8>, Memory> {
    let line = newlines.saturating_add(1);
    let text = format!(in alloc;
        "{name}:{line}: K15 TooLong: the file has more than 4,194,304 bytes\n"
    )?;
    Ok(text.into_bytes())
}

/// What is told of a file that cannot be read, or of the commands where there is no name.
pub fn file_note(alloc: Global, name: Option<&str>) -> Result<Vec<u8>, Memory> {
    let Some(name) = name else {
        return b"idp: standard input cannot be read\n".to_vec(alloc);
    };
    let text = format!(in alloc; "idp: {name}: there is no such file, or it cannot be read\n")?;
    Ok(text.into_bytes())
}

/// What is told of a file that was refused, and cannot be read again, or is no longer refused.
pub fn gone_file_note(alloc: Global, name: &str) -> Result<Vec<u8>, Memory> {
    let text = format!(in alloc;
        "idp: {name}: the file can no longer be read as it was refused\n"
    )?;
    Ok(text.into_bytes())
}
