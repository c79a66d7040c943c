//! Claims in the words of a vocabulary.
use kb_logic::{ExtInt, Literal, LiteralList};

/// What is claimed under choices, on the line of a command; 0 where no command stands before it.
#[derive(Drop)]
pub enum SaidClaim {
    /// There is no model.
    Inconsistent(u64, LiteralList),
    /// The literal is true in all models.
    Forced(u64, Literal, LiteralList),
    /// The term block of this number, from 0 on, has in no model a value below this one.
    Least(u64, u32, ExtInt, LiteralList),
}
