//! The texts of numbers.
ghost use Rattle.std.specs.Prelude.{◌≡◌, ◌++◌, OnOk, OnErr};
ghost use Rattle.kb_logic.specs.Decimals.{decimal_text};

use crate::elements::ExtInt;
use itoa::Buffer;
use std::alloc::AllocError as Memory;

/// Appends the number in decimal, or `+inf` or `-inf`.
pub fn decimal(out: &mut Vec<u8>, n: ExtInt) -> Result<(), Memory>
    ensures ok { OnOk result (out.new.items ≡ out.old.items ++ decimal_text n) }
    ensures err { OnErr result (out.new.items ≡ out.old.items) }
{
    let mut buffer = Buffer::new();
    let text = match n {
        ExtInt::NegInf => "-inf",
        ExtInt::Num(n) => buffer.format(n),
        ExtInt::PosInf => "+inf",
    };
    out.extend_from_slice(text.as_bytes())?;
    Ok(())
}
