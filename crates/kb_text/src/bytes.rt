//! Classes of bytes, the signs of two and three bytes, and spaces.
ghost use Rattle.std.specs.Prelude.{◌≡◌};
ghost use Rattle.std.specs.List.{prefix_len};
ghost use Rattle.std.specs.Str.{bytes_eq};
ghost use Rattle.kb_text.specs.Bytes.{class_of, is_arrow, is_pair, is_triple, is_word_byte, is_digit_byte};
ghost use Rattle.kb_text.specs.Bytes.{is_line_byte, is_space_byte, only_spaces};

/// What a byte begins.
#[derive(Clone, Copy, Debug, PartialEq, Eq)]
pub enum Class {
    Space,
    Letter,
    Digit,
    Mark,
    Slash,
    Refused,
    Unknown,
}

#[tactic(auto, unfolding(crate::specs::Bytes::class_of))]
pub fn class_of(b: u8) -> Class
    ensures { result ≡ class_of b }
{
    match b {
        9 | 10 | 13 | 32 => Class::Space,
        b'A'..=b'Z' | b'a'..=b'z' | b'_' => Class::Letter,
        b'0'..=b'9' => Class::Digit,
        b'/' => Class::Slash,
        b'%' | b'^' | b'"' | b'\'' => Class::Refused,
        b'{'
        | b'}'
        | b'('
        | b')'
        | b'['
        | b']'
        | b':'
        | b';'
        | b','
        | b'.'
        | b'!'
        | b'?'
        | b'~'
        | b'&'
        | b'|'
        | b'='
        | b'<'
        | b'>'
        | b'+'
        | b'-'
        | b'*'
        | b'#' => Class::Mark,
        _ => Class::Unknown,
    }
}

#[tactic(auto, unfolding(crate::specs::Bytes::class_of))]
pub fn is_word_byte(b: u8) -> bool
    ensures { result ≡ is_word_byte b }
{
    matches!(b, b'A'..=b'Z' | b'a'..=b'z' | b'_' | b'0'..=b'9')
}

#[tactic(auto, unfolding(crate::specs::Bytes::class_of))]
pub fn is_digit_byte(b: u8) -> bool
    ensures { result ≡ is_digit_byte b }
{
    matches!(b, b'0'..=b'9')
}

pub fn is_space_byte(b: u8) -> bool
    ensures { result ≡ is_space_byte b }
{
    matches!(class_of(b), Class::Space)
}

pub fn is_pair(a: u8, b: u8) -> bool
    ensures { result ≡ is_pair a b }
{
    (b == b'>' && (a == b'=' || a == b'-'))
        || (b == b'=' && (a == b'<' || a == b'>' || a == b'~'))
        || (a == b'=' && b == b'<')
        || (a == b'<' && b == b'-')
        || (a == b'.' && b == b'.')
}

pub fn is_arrow(a: u8, b: u8) -> bool
    ensures { result ≡ is_arrow a b }
{
    (a == b'=' && b == b'>') || (a == b'<' && b == b'=')
}

pub fn is_triple(a: u8, b: u8, c: u8) -> bool
    ensures { result ≡ is_triple a b c }
{
    a == b'<' && b == b'=' && c == b'>'
}

pub fn word_len(bytes: &[u8]) -> usize
    ensures { result ≡ prefix_len is_word_byte bytes.now }
{
    bytes.iter().take_while(|b| is_word_byte(**b)).count()
}

pub fn digits_len(bytes: &[u8]) -> usize
    ensures { result ≡ prefix_len is_digit_byte bytes.now }
{
    bytes.iter().take_while(|b| is_digit_byte(**b)).count()
}

pub fn line_len(bytes: &[u8]) -> usize
    ensures { result ≡ prefix_len is_line_byte bytes.now }
{
    bytes.iter().take_while(|b| **b != b'\n').count()
}

/// Whether there is no comment, and nothing else but spaces, in what lies between two tokens.
pub fn only_spaces(bytes: &[u8]) -> bool
    ensures { result ≡ only_spaces bytes.now }
{
    bytes.iter().all(|b| is_space_byte(*b))
}

/// Whether two texts are the same. The lengths come first: most words of a text have another one than a reserved word,
/// and then no byte is looked at.
#[tactic(auto, using(crate::proofs::Lengths::other_length))]
pub fn same_text(a: &[u8], b: &[u8]) -> bool
    ensures { result ≡ bytes_eq a.now b.now }
{
    if a.len() == b.len() { a == b } else { false }
}
