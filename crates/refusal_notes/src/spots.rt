//! The line and the column of a place.
ghost use Rattle.std.specs.Prelude.{◌≡◌, ◌≤◌, length};
ghost use Rattle.std.specs.List.{suffix_len};
ghost use Rattle.refusal_notes.specs.Spots.{is_line_byte, column_behind, line_behind};

use kb_io::newlines_in;

/// How many bytes at the end of a text stand behind its last newline.
pub fn last_line_len(front: &[u8]) -> usize
    ensures value { result ≡ suffix_len is_line_byte front.now }
    ensures within { result ≤ length front.now }
{
    front.iter().rev().take_while(|b| **b != b'\n').count()
}

/// The line of what follows a text.
pub fn line_of(front: &[u8]) -> u64
    ensures { result ≡ line_behind front.now }
{
    newlines_in(front) as u64 + 1
}

/// The column of what follows a text, in bytes.
pub fn column_of(front: &[u8]) -> u64
    ensures { result ≡ column_behind front.now }
{
    last_line_len(front) as u64 + 1
}
