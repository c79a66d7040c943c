//! The part of a line around a place, as it is shown, and the caret under the place.
ghost use Rattle.std.specs.Prelude.{◌≡◌, ◌++◌, ◌<◌, ◌≤◌, OnOk, flat_map, length, map};
ghost use Rattle.std.specs.List.{prefix_len};
ghost use Rattle.refusal_notes.specs.Excerpts.{
  hex_digit,
  shown,
  blanks,
  is_shown_byte,
  nearest,
  first_bytes,
  dots,
  shown_line,
  caret_line,
  excerpt,
};

use crate::note::Memory;
use crate::spots::last_line_len;
use std::str;

/// So many bytes of a line are shown on either side of a place.
const MOST_SHOWN: usize = 60;

pub fn push_bytes(out: &mut Vec<u8>, bytes: &[u8]) -> Result<(), Memory>
    ensures { OnOk result (out.new.items ≡ out.old.items ++ bytes.now) }
{
    out.extend_from_slice(bytes)?;
    Ok(())
}

/// The digit of a number below 16.
fn hex_digit(n: u8) -> u8
    requires { n < 16 }
    ensures { result ≡ hex_digit n }
{
    if n < 10 { n + 48 } else { n + 87 }
}

/// Appends a byte as it is shown.
fn push_shown_byte(out: &mut Vec<u8>, b: u8, is_text: bool) -> Result<(), Memory>
    ensures { OnOk result (out.new.items ≡ out.old.items ++ shown is_text b) }
{
    if is_text && b >= 128 {
        return push_bytes(out, &[b]);
    }
    if b >= 32 && b < 127 {
        return push_bytes(out, &[b]);
    }
    if b == b'\t' {
        return push_bytes(out, b" ");
    }
    push_bytes(out, &[92, 120, hex_digit(b / 16), hex_digit(b % 16)])
}

/// Appends bytes as they are shown.
pub fn push_shown(out: &mut Vec<u8>, bytes: &[u8], is_text: bool) -> Result<(), Memory>
    ensures { OnOk result (out.new.items ≡ out.old.items ++ flat_map (shown is_text) bytes.now) }
{
    for b in bytes {
        push_shown_byte(out, *b, is_text)?;
    }
    Ok(())
}

/// Appends the blanks that are as wide as the byte is shown.
fn push_blanks_of_byte(out: &mut Vec<u8>, b: u8, is_text: bool) -> Result<(), Memory>
    ensures { OnOk result (out.new.items ≡ out.old.items ++ blanks is_text b) }
{
    if is_text && b >= 128 && b < 192 {
        return Ok(());
    }
    if is_text && b >= 128 || b >= 32 && b < 127 || b == b'\t' {
        return push_bytes(out, b" ");
    }
    push_bytes(out, b"    ")
}

/// Appends the blanks that are as wide as the bytes are shown.
fn push_blanks(out: &mut Vec<u8>, bytes: &[u8], is_text: bool) -> Result<(), Memory>
    ensures { OnOk result (out.new.items ≡ out.old.items ++ flat_map (blanks is_text) bytes.now) }
{
    for b in bytes {
        push_blanks_of_byte(out, *b, is_text)?;
    }
    Ok(())
}

/// How many bytes are shown of the line that begins here.
fn shown_len(behind: &[u8]) -> usize
    ensures value { result ≡ prefix_len is_shown_byte behind.now }
    ensures within { result ≤ length behind.now }
{
    behind
        .iter()
        .take_while(|b| **b != b'\n' && **b != b'\r')
        .count()
}

/// The bytes of the last line, those that are nearest to what follows.
pub fn nearest(front: &[u8]) -> &[u8]
    ensures { result.now ≡ nearest front.now }
{
    let len = last_line_len(front).min(MOST_SHOWN);
    &front[front.len() - len..]
}

/// The bytes of the first line.
pub fn first_bytes(behind: &[u8]) -> &[u8]
    ensures { result.now ≡ first_bytes behind.now }
{
    &behind[..shown_len(behind).min(MOST_SHOWN)]
}

/// What tells that more of the line stands there than is shown.
fn dots(len: usize) -> &'static [u8]
    ensures { result.now ≡ dots len }
{
    if len > MOST_SHOWN { b"..." } else { b"" }
}

/// The same width in blanks.
fn dots_of_blanks(len: usize) -> &'static [u8]
    ensures { result.now ≡ map (λ _. 32) (dots len) }
{
    if len > MOST_SHOWN { b"   " } else { b"" }
}

/// Whether the bytes are UTF-8 without control characters beyond ASCII, which a terminal may obey.
pub fn is_text(bytes: &[u8]) -> bool {
    for pair in bytes.windows(2) {
        if pair[0] == 0xc2 && pair[1] < 0xa0 {
            return false;
        }
    }
    str::from_utf8(bytes).is_ok()
}

/// Appends the line around the place between the two texts.
fn push_shown_line(
    out: &mut Vec<u8>,
    front: &[u8],
    behind: &[u8],
    front_is_text: bool,
    is_text: bool,
) -> Result<(), Memory>
    ensures { OnOk result (out.new.items ≡ out.old.items ++ shown_line front_is_text is_text front.now behind.now) }
{
    push_bytes(out, dots(last_line_len(front)))?;
    push_shown(out, nearest(front), front_is_text)?;
    push_shown(out, first_bytes(behind), is_text)?;
    push_bytes(out, dots(shown_len(behind)))
}

/// Appends the caret and the blanks before it.
fn push_caret_line(out: &mut Vec<u8>, front: &[u8], front_is_text: bool) -> Result<(), Memory>
    ensures { OnOk result (out.new.items ≡ out.old.items ++ caret_line front_is_text front.now) }
{
    push_bytes(out, dots_of_blanks(last_line_len(front)))?;
    push_blanks(out, nearest(front), front_is_text)?;
    push_bytes(out, b"^")
}

/// Appends the line around the place between the two texts, and the caret under it. They are shown as text, or not.
pub fn push_excerpt(
    out: &mut Vec<u8>,
    front: &[u8],
    behind: &[u8],
    front_is_text: bool,
    is_text: bool,
) -> Result<(), Memory>
    ensures { OnOk result (out.new.items ≡ out.old.items ++ excerpt front_is_text is_text front.now behind.now) }
{
    push_bytes(out, b"  ")?;
    push_shown_line(out, front, behind, front_is_text, is_text)?;
    push_bytes(out, b"\n  ")?;
    push_caret_line(out, front, front_is_text)?;
    push_bytes(out, b"\n")
}
