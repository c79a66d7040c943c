//! The fields of a line, read from its bytes.
//!
//! No byte is refused here, so that a line is read in one pass with no error: what is read of a line that is no entry
//! does not matter, since its text is compared afterwards (`read_entry`).
ghost use Rattle.std.specs.Prelude.{◌≡◌, IfOk};
ghost use Rattle.derivation_log.specs.Scans.{blank, digit_on, begun, grown, scan};

use crate::fields::{Field, FieldList};
use ground_core::Memory;
use kb_logic::ListOf;
use std::alloc::Global;

/// One digit more, modulo 2^64.
fn digit_on(n: u64, byte: u8) -> u64
    ensures { result ≡ digit_on n byte }
{
    n.wrapping_mul(10)
        .wrapping_add(u64::from(byte.saturating_sub(b'0')))
}

/// The field that begins with this byte.
fn begun(byte: u8) -> Field
    ensures { result ≡ begun byte }
{
    if byte == b'-' {
        Field::Minus(0)
    } else if byte == b'+' {
        Field::Infinite
    } else if byte <= b'9' {
        Field::Plain(u64::from(byte.saturating_sub(b'0')))
    } else {
        Field::Letter(byte)
    }
}

/// The field with one byte more.
fn grown(field: Field, byte: u8) -> Field
    ensures { result ≡ grown field byte }
{
    match field {
        Field::Letter(letter) => {
            if letter == 0 {
                begun(byte)
            } else {
                Field::Letter(letter)
            }
        }
        Field::Plain(n) => Field::Plain(digit_on(n, byte)),
        Field::Minus(n) => Field::Minus(digit_on(n, byte)),
        Field::Infinite => Field::Infinite,
    }
}

/// The fields up to the first newline; without a newline the last field is left out.
pub fn scan(alloc: Global, bytes: &[u8]) -> Result<FieldList, Memory>
    ensures { IfOk result (λ fs. fs ≡ scan blank bytes.now) }
{
    let mut found = ListOf::new(alloc);
    let mut field = Field::Letter(0);
    for byte in bytes {
        if *byte == b'\n' {
            found.push(field)?;
            return Ok(found);
        }
        if *byte == b' ' {
            found.push(field)?;
            field = Field::Letter(0);
        } else {
            field = grown(field, *byte);
        }
    }
    Ok(found)
}
