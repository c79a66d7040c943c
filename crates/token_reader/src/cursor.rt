//! The next token, and what follows it.
ghost use Rattle.std.specs.Prelude.{◌≡◌, ◌∷◌, [], ◌<◌, length, Err, IfOk, IfErr, IfSome, IfNone, true, false};
ghost use Rattle.grammar.specs.Terminals.{tok, toks, place_of};
ghost use Rattle.grammar.specs.Terminals as terminals;
ghost use Rattle.token_reader.specs.Signs.{next, No, IsSign, SignRead};
ghost use Rattle.token_reader.specs.Parts.{Connects, NoConnective, EndsPrim, NoArrows, NoAdd, NoCompare, EndsFactor};
ghost use Rattle.token_reader.specs.Parts.{Unsealed};
ghost use Rattle.grammar.specs.declared.stops.ReadError.TheVariants.{Memory};
ghost use Rattle.grammar.specs.declared.terminal.Terminal.TheVariants as t;

use grammar::{Adding, Arrow, Comparison, Item, ReadError, Terminal};

/// What was read, and the tokens after it.
pub type Found<'a, T> = Result<(T, &'a [Item<'a>]), ReadError>;

/// The next token, if there is one.
pub fn split<'a>(items: &'a [Item<'a>]) -> Option<(Item<'a>, &'a [Item<'a>])>
    ensures some { IfSome result (λ p. toks items.now ≡ tok p.0 ∷ toks p.1.now) }
    ensures shorter { IfSome result (λ p. length p.1.now < length items.now) }
    ensures none { IfNone result (toks items.now ≡ []) }
{
    match items.split_first() {
        Some((item, rest)) => Some((*item, rest)),
        None => None,
    }
}

// Whether this terminal is that sign.
fn is(terminal: Terminal, sign: Terminal) -> bool
    requires { IsSign sign }
    ensures yes { result ≡ true → terminal ≡ sign }
    ensures no { result ≡ false → terminal ≡ sign → ⊥ }
{
    match sign {
        Terminal::And => matches!(terminal, Terminal::And),
        Terminal::Or => matches!(terminal, Terminal::Or),
        Terminal::Not => matches!(terminal, Terminal::Not),
        Terminal::Times => matches!(terminal, Terminal::Times),
        Terminal::Every => matches!(terminal, Terminal::Every),
        Terminal::Some => matches!(terminal, Terminal::Some),
        Terminal::Open => matches!(terminal, Terminal::Open),
        Terminal::Close => matches!(terminal, Terminal::Close),
        Terminal::OpenSquare => matches!(terminal, Terminal::OpenSquare),
        Terminal::CloseSquare => matches!(terminal, Terminal::CloseSquare),
        Terminal::OpenBrace => matches!(terminal, Terminal::OpenBrace),
        Terminal::CloseBrace => matches!(terminal, Terminal::CloseBrace),
        Terminal::Comma => matches!(terminal, Terminal::Comma),
        Terminal::Colon => matches!(terminal, Terminal::Colon),
        Terminal::Count => matches!(terminal, Terminal::Count),
        Terminal::Compare(sought) => match terminal {
            Terminal::Compare(found) => found == sought,
            _ => false,
        },
        Terminal::Arrow(sought) => match terminal {
            Terminal::Arrow(found) => found == sought,
            _ => false,
        },
        Terminal::Add(sought) => match terminal {
            Terminal::Add(found) => found == sought,
            _ => false,
        },
        Terminal::Outer(sought) => match terminal {
            Terminal::Outer(found) => found == sought,
            _ => false,
        },
        _ => false,
    }
}

/// The tokens after this sign, if it is next, and its place.
pub fn skip<'a>(sign: Terminal, items: &'a [Item<'a>]) -> Option<(usize, &'a [Item<'a>])>
    requires { IsSign sign }
    ensures some { IfSome result (λ p. toks items.now ≡ terminals.sign sign p.0 ∷ toks p.1.now) }
    ensures shorter { IfSome result (λ p. length p.1.now < length items.now) }
    ensures none { IfNone result (No sign (next (toks items.now))) }
{
    let (item, rest) = split(items)?;
    if is(item.terminal, sign) {
        Some((item.place, rest))
    } else {
        None
    }
}

/// This sign, which has to come: its place.
pub fn sign<'a>(sign: Terminal, items: &'a [Item<'a>], end: usize) -> Found<'a, usize>
    requires { IsSign sign }
    ensures reads { SignRead sign (toks items.now) end result }
    ensures shorter { IfOk result (λ p. length p.1.now < length items.now) }
    ensures needs_no_memory { result ≡ Err Memory → ⊥ }
{
    match skip(sign, items) {
        Some((place, rest)) => Ok((place, rest)),
        None => Err(ReadError::Stuck(place_at(items, end))),
    }
}

/// The tokens after this connective, if it is next, and its place. After an open end no connective is looked for.
pub fn skip_connective<'a>(
    sign: Terminal,
    closed: bool,
    items: &'a [Item<'a>],
) -> Option<(usize, &'a [Item<'a>])>
    requires { IsSign sign }
    ensures some { IfSome result (λ p. toks items.now ≡ terminals.sign sign p.0 ∷ toks p.1.now) }
    ensures closed { IfSome result (λ p. closed ≡ true) }
    ensures shorter { IfSome result (λ p. length p.1.now < length items.now) }
    ensures none { IfNone result (closed ≡ true → No sign (next (toks items.now))) }
{
    if !closed {
        return None;
    }
    skip(sign, items)
}

/// The tokens after an arrow, if it is next.
pub fn after_arrow<'a>(
    closed: bool,
    items: &'a [Item<'a>],
) -> Option<(Arrow, usize, &'a [Item<'a>])>
    ensures some { IfSome result (λ p. toks items.now ≡ terminals.sign (t.Arrow p.0) p.1 ∷ toks p.2.now) }
    ensures closed { IfSome result (λ p. closed ≡ true) }
    ensures shorter { IfSome result (λ p. length p.2.now < length items.now) }
    ensures none { IfNone result (closed ≡ true → NoArrows (toks items.now)) }
{
    if !closed {
        return None;
    }
    let (item, rest) = split(items)?;
    match item.terminal {
        Terminal::Arrow(arrow) => Some((arrow, item.place, rest)),
        _ => None,
    }
}

/// The tokens after `+` or `-`, if it is next.
pub fn after_add<'a>(items: &'a [Item<'a>]) -> Option<(Adding, usize, &'a [Item<'a>])>
    ensures some { IfSome result (λ p. toks items.now ≡ terminals.sign (t.Add p.0) p.1 ∷ toks p.2.now) }
    ensures shorter { IfSome result (λ p. length p.2.now < length items.now) }
    ensures none { IfNone result (NoAdd (toks items.now)) }
{
    let (item, rest) = split(items)?;
    match item.terminal {
        Terminal::Add(sign) => Some((sign, item.place, rest)),
        _ => None,
    }
}

/// The tokens after a comparison, if it is next.
pub fn after_compare<'a>(items: &'a [Item<'a>]) -> Option<(Comparison, usize, &'a [Item<'a>])>
    ensures some { IfSome result (λ p. toks items.now ≡ terminals.sign (t.Compare p.0) p.1 ∷ toks p.2.now) }
    ensures shorter { IfSome result (λ p. length p.2.now < length items.now) }
    ensures none { IfNone result (NoCompare (toks items.now)) }
{
    let (item, rest) = split(items)?;
    match item.terminal {
        Terminal::Compare(sign) => Some((sign, item.place, rest)),
        _ => None,
    }
}

/// After an operand no arguments may follow but those that it has.
#[tactic(auto, using(crate::proofs::Signs::no_open))]
pub fn sealed(items: &[Item<'_>]) -> Result<(), ReadError>
    ensures ok { IfOk result (λ u. EndsFactor (toks items.now)) }
    ensures err { IfErr result (λ e. Unsealed (toks items.now) e) }
{
    match skip(Terminal::Open, items) {
        Some((place, _rest)) => Err(ReadError::Stuck(place)),
        None => Ok(()),
    }
}

/// The place of the next token, or of the text's end.
pub fn place_at(items: &[Item<'_>], end: usize) -> usize
    ensures { result ≡ place_of (toks items.now) end }
{
    match split(items) {
        Some((item, _rest)) => item.place,
        None => end,
    }
}

/// The tokens themselves, where a loop over them begins, and how many they are.
pub fn start<'a>(items: &'a [Item<'a>]) -> (usize, &'a [Item<'a>])
    ensures count { result.0 ≡ length items.now }
    ensures same { result.1.now ≡ items.now }
{
    (items.len(), items)
}

/// Whether a connective comes.
pub fn connects(items: &[Item<'_>]) -> bool
    ensures yes { result ≡ true → Connects (toks items.now) }
    ensures no { result ≡ false → NoConnective (toks items.now) }
{
    let Some((item, _rest)) = split(items) else {
        return false;
    };
    match item.terminal {
        Terminal::And | Terminal::Or | Terminal::Arrow(_) => true,
        _ => false,
    }
}

/// Whether what was read goes on as a term: by an operator or a comparison.
pub fn goes_on(items: &[Item<'_>]) -> bool
    ensures yes { result ≡ true → EndsPrim (toks items.now) → ⊥ }
    ensures no { result ≡ false → EndsFactor (toks items.now) → EndsPrim (toks items.now) }
{
    let Some((item, _rest)) = split(items) else {
        return false;
    };
    match item.terminal {
        Terminal::Times | Terminal::Add(_) | Terminal::Compare(_) => true,
        _ => false,
    }
}
