//! What signs do to the depth of the tokens after them.
ghost use Rattle.std.specs.Prelude.{◌≡◌};
ghost use Rattle.kb_text.specs.Roles.{role_of, single_role};

use crate::bytes::{is_arrow, is_triple};

/// What a sign does to the depth of the tokens after it.
#[derive(Clone, Copy)]
pub enum Role {
    /// This bracket opens.
    Open(u8),
    /// What this bracket opened is closed.
    Close(u8),
    /// A quantifier or an arrow: deeper up to the next dot.
    Count,
    /// A dot.
    Stop,
    /// A sign before a formula or term: deeper for what follows at once.
    Prefix,
    Other,
}

fn single_role(b: u8) -> Role
    ensures { result ≡ single_role b }
{
    match b {
        b'(' | b'[' | b'{' => Role::Open(b),
        b')' => Role::Close(b'('),
        b']' => Role::Close(b'['),
        b'}' => Role::Close(b'{'),
        b'!' | b'?' => Role::Count,
        b'.' => Role::Stop,
        b'~' | b'-' => Role::Prefix,
        _ => Role::Other,
    }
}

/// The role of a sign's text.
pub fn role_of(text: &[u8]) -> Role
    ensures { result ≡ role_of text.now }
{
    match text {
        [] => Role::Other,
        [a] => single_role(*a),
        [a, b] => if is_arrow(*a, *b) {
            Role::Count
        } else {
            Role::Other
        },
        [a, b, c, ..] => if is_triple(*a, *b, *c) {
            Role::Count
        } else {
            Role::Other
        },
    }
}
