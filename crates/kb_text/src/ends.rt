//! Where quoted texts and long brackets of Lua end.
ghost use Rattle.std.specs.Prelude.{◌≡◌, ◌≤◌, length, false, IfSome};
ghost use Rattle.kb_text.specs.Ends.{close_of, is_end, is_unescaped, quoted_of};

fn is_end(first: u8, second: u8, a: u8, b: u8) -> bool
    ensures { result ≡ is_end first second a b }
{
    a == first && b == second
}

fn is_unescaped(escaped: bool, wanted: u8, b: u8) -> bool
    ensures { result ≡ is_unescaped escaped wanted b }
{
    !escaped && b == wanted
}

/// How many bytes there are up to the first of these pairs and with it.
pub fn close_len(bytes: &[u8], first: u8, second: u8) -> Option<usize>
    ensures value { result ≡ close_of first second bytes.now }
    ensures within { IfSome result (λ n. n ≤ length bytes.now) }
{
    let mut i = 0;
    while i + 1 < bytes.len() {
        if is_end(first, second, bytes[i], bytes[i + 1]) {
            return Some(i + 2);
        }
        i += 1;
    }
    None
}

/// How many bytes there are up to the closing quote and with it, where a backslash escapes.
pub fn quoted_len(bytes: &[u8], quote: u8) -> Option<usize>
    ensures value { result ≡ quoted_of false quote bytes.now }
    ensures within { IfSome result (λ n. n ≤ length bytes.now) }
{
    let mut escaped = false;
    let mut i = 0;
    while i < bytes.len() {
        if is_unescaped(escaped, quote, bytes[i]) {
            return Some(i + 1);
        }
        escaped = is_unescaped(escaped, b'\\', bytes[i]);
        i += 1;
    }
    None
}
