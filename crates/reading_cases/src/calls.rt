//! The calls that a case can name.
ghost use Rattle.std.specs.Prelude.{◌≡◌};
ghost use Rattle.std.specs.List.{prefix_len};
ghost use Rattle.reading_cases.specs.Cases.{call_for, first_line, further_lines, is_in_line};

/// What is made of a case's text.
#[derive(Clone, Copy)]
pub enum Call {
    /// Its tokens.
    Tokens,
    /// How many tokens it has.
    Count,
    /// A formula.
    Formula,
    /// A term.
    Term,
    /// The blocks of a file.
    File,
    /// The theory and the structure of a file that are used where no name is given.
    Pick,
    /// The same where the theory's name is given: T or U.
    PickT,
    PickU,
    /// A file with numbers for words.
    Names,
    /// A file with the types of its variables.
    Types,
    /// The structure of a file and how large it makes the theory.
    Data,
}

/// The call of this name.
pub fn call_of(word: &[u8]) -> Option<Call>
    ensures { result ≡ call_for word.now }
{
    if word == b"tokens".as_slice() {
        Some(Call::Tokens)
    } else if word == b"count".as_slice() {
        Some(Call::Count)
    } else if word == b"formula".as_slice() {
        Some(Call::Formula)
    } else if word == b"term".as_slice() {
        Some(Call::Term)
    } else if word == b"file".as_slice() {
        Some(Call::File)
    } else if word == b"pick".as_slice() {
        Some(Call::Pick)
    } else if word == b"pick T".as_slice() {
        Some(Call::PickT)
    } else if word == b"pick U".as_slice() {
        Some(Call::PickU)
    } else if word == b"names".as_slice() {
        Some(Call::Names)
    } else if word == b"types".as_slice() {
        Some(Call::Types)
    } else if word == b"data".as_slice() {
        Some(Call::Data)
    } else {
        None
    }
}

fn line_len(text: &[u8]) -> usize
    ensures { result ≡ prefix_len is_in_line text.now }
{
    text.iter().take_while(|byte| **byte != b'\n').count()
}

/// The first line, and the lines after it.
pub fn cut(case: &[u8]) -> (&[u8], &[u8])
    ensures first { result.0.now ≡ first_line case.now }
    ensures further { result.1.now ≡ further_lines case.now }
{
    let (line, rest) = case.split_at(line_len(case));
    match rest.split_first() {
        Some((_newline, further)) => (line, further),
        None => (line, rest),
    }
}
