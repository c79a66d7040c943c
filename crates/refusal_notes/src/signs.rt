//! The word or sign at a place, and what stands before and behind it.
ghost use Rattle.std.specs.Prelude.{◌≡◌, ◌<◌, ◌≤◌, length};

/// Signs of several bytes, the longer ones first, with those that other languages have.
const SIGNS: [&[u8]; 22] = [
    b"<=>", b"<->", b"=<", b"=>", b"<=", b">=", b"~=", b"<-", b"->", b"..", b"!=", b"==", b"&&",
    b"||", b"/\\", b"\\/", b"<>", b":-", b":=", b"//", b"/*", b"<<",
];

/// So many bytes of a word are shown.
const MOST_OF_A_WORD: usize = 40;

pub fn is_word_byte(b: u8) -> bool {
    matches!(b, b'A'..=b'Z' | b'a'..=b'z' | b'_' | b'0'..=b'9')
}

fn is_space(b: u8) -> bool {
    matches!(b, b' ' | b'\t' | b'\n' | b'\r')
}

/// The word at the beginning of a text, which is empty where none begins there.
pub fn word_at(text: &[u8]) -> &[u8] {
    let len = text.iter().take_while(|b| is_word_byte(**b)).count();
    &text[..len.min(text.len())]
}

/// The word at the end of a text.
pub fn word_before(text: &[u8]) -> &[u8] {
    let len = text.iter().rev().take_while(|b| is_word_byte(**b)).count();
    &text[text.len() - len.min(text.len())..]
}

/// A text without the spaces at its end.
pub fn without_spaces(text: &[u8]) -> &[u8] {
    let len = text.iter().rev().take_while(|b| is_space(**b)).count();
    &text[..text.len() - len.min(text.len())]
}

/// A text without the spaces at its beginning.
pub fn behind_spaces(text: &[u8]) -> &[u8] {
    let len = text.iter().take_while(|b| is_space(**b)).count();
    &text[len.min(text.len())..]
}

/// How many digits a text begins with.
fn digits_len(text: &[u8]) -> usize
    ensures { result ≤ length text.now }
{
    text.iter()
        .take_while(|b| **b >= b'0' && **b <= b'9')
        .count()
}

/// The length of the word or sign at the beginning of a text; of any other byte 1, and of the empty text 0. A - before
/// digits is a part of their number.
fn sign_len(text: &[u8]) -> usize
    ensures within { result ≤ length text.now }
    ensures moves { 0 < length text.now → 0 < result }
{
    let len = word_at(text).len();
    if len > 0 {
        return len.min(text.len());
    }
    for sign in &SIGNS {
        if text.starts_with(sign) {
            return sign.len().min(text.len());
        }
    }
    if text.starts_with(b"-") {
        return 1 + digits_len(&text[1..]);
    }
    text.len().min(1)
}

/// The word or sign at the beginning of a text, at most so many bytes of it. It is empty at the text's end.
pub fn sign_at(text: &[u8]) -> &[u8] {
    &text[..sign_len(text).min(MOST_OF_A_WORD)]
}

/// The bytes of the sentence, item or entry that a text ends in: those behind the last brace, full stop or semicolon.
/// The points of a range end nothing.
pub fn sentence_of(text: &[u8]) -> &[u8] {
    let mut start = text.len();
    while start > 0 {
        let b = text[start - 1];
        let in_range = b == b'.'
            && (text[..start - 1].ends_with(b".") || text[start..].starts_with(b"."));
        if b == b'{' || b == b'}' || b == b';' || b == b'.' && !in_range {
            break;
        }
        start -= 1;
    }
    &text[start..]
}

/// Whether a text has this word or sign, and not as a part of a longer one.
pub fn has_sign(text: &[u8], sign: &[u8]) -> bool {
    let mut rest = text;
    while !rest.is_empty() {
        let (first, behind) = rest.split_at(sign_len(rest));
        if first == sign {
            return true;
        }
        rest = behind;
    }
    false
}
