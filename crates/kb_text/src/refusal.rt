//! Tokens that are refused for their own sake: words of the manual that are not read, and integers out of range.
ghost use Rattle.std.specs.Prelude.{◌≡◌, ◌≤◌, ◌^◌, IfNone};
ghost use Rattle.std.specs.List.{list_any};
ghost use Rattle.std.specs.Str.{bytes_eq};
ghost use Rattle.kb_text.specs.Pieces.{IsPiece, IntText};
ghost use Rattle.kb_text.specs.Tokens.{decimal, is_too_large, is_unsupported, own_refusal_of, refusal_of, IsSpellingOf};
ghost use Rattle.kb_text.specs.Depth.{around_of, depth_of};

use crate::bytes::same_text;
use crate::depth::Nesting;
use crate::fault::K;
use crate::token::Kind;

/// Words of IDP3 that are not read here.
const UNSUPPORTED: [&[u8]; 14] = [
    b"partial",
    b"prod",
    b"include",
    b"namespace",
    b"LTCvocabulary",
    b"factlist",
    b"aspstructure",
    b"fobdd",
    b"query",
    b"extern",
    b"using",
    b"string",
    b"char",
    b"float",
];

/// Those that are not read before an opening `[`.
const UNSUPPORTED_CHAINS: [&[u8]; 3] = [b"MIN", b"MAX", b"SUCC"];

/// Those that are not read before an opening `(`.
const UNSUPPORTED_CALLS: [&[u8]; 1] = [b"abs"];

fn is_any_of(text: &[u8], words: &[&[u8]]) -> bool
    ensures { result ≡ list_any (λ w. bytes_eq w.now text.now) words.now }
{
    words.iter().any(|word| same_text(*word, text))
}

fn is_unsupported(text: &[u8], behind: &[u8]) -> bool
    ensures { result ≡ is_unsupported text.now behind.now }
{
    if is_any_of(text, &UNSUPPORTED) {
        true
    } else if is_any_of(text, &UNSUPPORTED_CHAINS) {
        behind.starts_with(b"[")
    } else if is_any_of(text, &UNSUPPORTED_CALLS) {
        behind.starts_with(b"(")
    } else {
        false
    }
}

/// Whether the digits are a number above that of an i64.
fn is_too_large(digits: &[u8]) -> bool
    requires { IsPiece IntText digits.now }
    ensures { result ≡ is_too_large digits.now }
{
    let mut n: u64 = 0;
    for b in digits {
        if n > 1_000_000_000_000_000_000 {
            return true;
        }
        n = 10 * n + u64::from(*b - b'0');
    }
    n >= 1 << 63
}

fn own_refusal(kind: Kind, text: &[u8], behind: &[u8]) -> Option<K>
    requires { IsSpellingOf kind text.now }
    ensures { result ≡ own_refusal_of kind text.now behind.now }
{
    match kind {
        Kind::Word => if is_unsupported(text, behind) {
            Some(K::Unsupported)
        } else {
            None
        },
        Kind::Int => if is_too_large(text) {
            Some(K::OutOfRange)
        } else {
            None
        },
        Kind::Sign | Kind::Procedure => None,
    }
}

/// Why a token is refused where it stands, if it is.
pub fn refusal(nesting: &Nesting, kind: Kind, text: &[u8], behind: &[u8]) -> Option<K>
    requires { IsSpellingOf kind text.now }
    ensures value { result ≡ refusal_of (around_of nesting.now) kind text.now behind.now }
    ensures depth { IfNone result (depth_of (around_of nesting.now) ≤ 200) }
{
    match own_refusal(kind, text, behind) {
        Some(cause) => Some(cause),
        None => if nesting.depth() > 200 {
            Some(K::TooDeep)
        } else {
            None
        },
    }
}
