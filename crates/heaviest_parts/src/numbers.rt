//! Numbers as they are read.
use std::alloc::{AllocError as Memory, Global};

/// The digits of a number, with a comma before each three of them.
pub fn grouped(alloc: Global, number: u64) -> Result<String, Memory> {
    let digits = format!(in alloc; "{number}")?;
    let mut out = String::new(alloc);
    for (at, digit) in digits.chars().enumerate() {
        if at > 0 && digits.len().saturating_sub(at) % 3 == 0 {
            out.push(',')?;
        }
        out.push(digit)?;
    }
    Ok(out)
}
