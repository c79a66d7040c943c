//! What a line is made of.

use kb_logic::ListOf;

/// A letter, an integer with or without a minus, or `+inf`.
#[derive(Clone, Copy, Debug)]
pub enum Field {
    Letter(u8),
    Plain(u64),
    Minus(u64),
    Infinite,
}

/// Fields, which contracts see as a list.
pub type FieldList = ListOf<Field>;
