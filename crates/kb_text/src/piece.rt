//! The piece of a text that begins at a place: spaces, a comment or a token.
ghost use Rattle.std.specs.Prelude.{◌≡◌, ◌<◌, length};
ghost use Rattle.kb_text.specs.Pieces.{IsLongest, SignText, OpensWith};
ghost use Rattle.kb_text.specs.Found.{FoundAt};
ghost use Rattle.kb_text.specs.declared.bytes.Class.TheVariants.{Letter, Mark, Slash};

use crate::bytes::{Class, class_of, digits_len, is_pair, is_triple, line_len, word_len};
use crate::ends::close_len;
use crate::fault::K;
use crate::procedure::{is_procedure_word, procedure_len};
use crate::token::Kind;

/// What begins at the start of a text, and how many bytes it takes.
pub enum Found {
    Gap(usize),
    Token(Kind, usize),
    Nothing(K),
}

fn comment(in_braces: bool, bytes: &[u8]) -> Found
    requires { OpensWith Slash bytes.now }
    ensures { FoundAt in_braces bytes.now result }
{
    if bytes.len() < 2 {
        return Found::Nothing(K::Unsupported);
    }
    let second = bytes[1];
    let (_, rest) = bytes.split_at(2);
    if second == b'/' {
        Found::Gap(line_len(rest) + 2)
    } else if second == b'*' {
        match close_len(rest, b'*', b'/') {
            Some(n) => Found::Gap(n + 2),
            None => Found::Nothing(K::Syntax),
        }
    } else {
        Found::Nothing(K::Unsupported)
    }
}

fn sign_len(bytes: &[u8]) -> usize
    requires { OpensWith Mark bytes.now }
    ensures { IsLongest bytes.now SignText result }
{
    if bytes.len() > 2 && is_triple(bytes[0], bytes[1], bytes[2]) {
        3
    } else if bytes.len() > 1 && is_pair(bytes[0], bytes[1]) {
        2
    } else {
        1
    }
}

fn word(in_braces: bool, bytes: &[u8]) -> Found
    requires { OpensWith Letter bytes.now }
    ensures { FoundAt in_braces bytes.now result }
{
    let n = word_len(bytes);
    let (text, rest) = bytes.split_at(n);
    if is_procedure_word(in_braces, text) {
        match procedure_len(rest) {
            Some(m) => Found::Token(Kind::Procedure, n + m),
            None => Found::Nothing(K::Syntax),
        }
    } else {
        Found::Token(Kind::Word, n)
    }
}

/// What begins at the start, where some brace is open or none.
pub fn piece(in_braces: bool, bytes: &[u8]) -> Found
    requires { 0 < length bytes.now }
    ensures { FoundAt in_braces bytes.now result }
{
    match class_of(bytes[0]) {
        Class::Space => Found::Gap(1),
        Class::Letter => word(in_braces, bytes),
        Class::Digit => Found::Token(Kind::Int, digits_len(bytes)),
        Class::Mark => Found::Token(Kind::Sign, sign_len(bytes)),
        Class::Slash => comment(in_braces, bytes),
        Class::Refused => Found::Nothing(K::Unsupported),
        Class::Unknown => Found::Nothing(K::Syntax),
    }
}
