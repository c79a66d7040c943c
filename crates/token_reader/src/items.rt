//! What each token of a text is to the grammar.
ghost use Rattle.std.specs.Prelude.{◌≡◌, ◌<◌, ◌^◌, IfOk, IfErr};
ghost use Rattle.kb_text.specs.Pieces.{IsPiece, IntText};
ghost use Rattle.kb_text.specs.Tokens.{Fails, IsSpelled, IsSpellingOf, decimal, lexeme_of};
ghost use Rattle.kb_text.specs.declared.token.Kind.TheVariants.{Int};
ghost use Rattle.grammar.specs.Terminals.{tok, toks};
ghost use Rattle.grammar.specs.Items.{IsTokens, ItemsOf, longer_terminal, sign_terminal, single_terminal, terminal_of, tok_of};
ghost use Rattle.grammar.specs.Items.{word_terminal};

use grammar::{Adding, Aggregation, Arrow, Comparison, Item, KbError, Outer, Terminal};
use kb_text::{Kind, LexError, Lexer, Token, same_text};
use std::alloc::Global;

fn word_terminal(text: &[u8]) -> Terminal
    ensures { result ≡ word_terminal text.now }
{
    if same_text(text, b"vocabulary") {
        Terminal::Outer(Outer::Vocabulary)
    } else if same_text(text, b"theory") {
        Terminal::Outer(Outer::Theory)
    } else if same_text(text, b"structure") {
        Terminal::Outer(Outer::Structure)
    } else if same_text(text, b"term") {
        Terminal::Outer(Outer::Term)
    } else if same_text(text, b"procedure") {
        Terminal::Outer(Outer::Procedure)
    } else if same_text(text, b"type") {
        Terminal::Outer(Outer::Type)
    } else if same_text(text, b"isa") {
        Terminal::Outer(Outer::Isa)
    } else if same_text(text, b"constructed") {
        Terminal::Outer(Outer::Constructed)
    } else if same_text(text, b"true") {
        Terminal::Truth(true)
    } else if same_text(text, b"false") {
        Terminal::Truth(false)
    } else if same_text(text, b"sum") {
        Terminal::Aggregate(Aggregation::Sum)
    } else if same_text(text, b"min") {
        Terminal::Aggregate(Aggregation::Min)
    } else if same_text(text, b"max") {
        Terminal::Aggregate(Aggregation::Max)
    } else {
        Terminal::Word
    }
}

#[tactic(auto, unfolding(grammar::specs::Items::single_terminal))]
fn single_terminal(b: u8) -> Terminal
    ensures { result ≡ single_terminal b }
{
    match b {
        b'{' => Terminal::OpenBrace,
        b'}' => Terminal::CloseBrace,
        b'(' => Terminal::Open,
        b')' => Terminal::Close,
        b'[' => Terminal::OpenSquare,
        b']' => Terminal::CloseSquare,
        b':' => Terminal::Colon,
        b';' => Terminal::Outer(Outer::Semicolon),
        b',' => Terminal::Comma,
        b'.' => Terminal::Outer(Outer::Dot),
        b'!' => Terminal::Every,
        b'?' => Terminal::Some,
        b'~' => Terminal::Not,
        b'&' => Terminal::And,
        b'|' => Terminal::Or,
        b'=' => Terminal::Compare(Comparison::Equal),
        b'<' => Terminal::Compare(Comparison::Less),
        b'>' => Terminal::Compare(Comparison::Greater),
        b'+' => Terminal::Add(Adding::Plus),
        b'-' => Terminal::Add(Adding::Minus),
        b'*' => Terminal::Times,
        _ => Terminal::Count,
    }
}

fn longer_terminal(text: &[u8]) -> Terminal
    ensures { result ≡ longer_terminal text.now }
{
    if same_text(text, b"=>") {
        Terminal::Arrow(Arrow::Implies)
    } else if same_text(text, b"<=") {
        Terminal::Arrow(Arrow::ImpliedBy)
    } else if same_text(text, b"=<") {
        Terminal::Compare(Comparison::AtMost)
    } else if same_text(text, b">=") {
        Terminal::Compare(Comparison::AtLeast)
    } else if same_text(text, b"~=") {
        Terminal::Compare(Comparison::NotEqual)
    } else if same_text(text, b"<-") {
        Terminal::Outer(Outer::If)
    } else if same_text(text, b"->") {
        Terminal::Outer(Outer::To)
    } else if same_text(text, b"..") {
        Terminal::Outer(Outer::Range)
    } else {
        Terminal::Arrow(Arrow::Equivalent)
    }
}

fn sign_terminal(text: &[u8]) -> Terminal
    ensures { result ≡ sign_terminal text.now }
{
    match text {
        [b] => single_terminal(*b),
        _ => longer_terminal(text),
    }
}

fn number(digits: &[u8]) -> u64
    requires digits { IsPiece IntText digits.now }
    requires small { decimal digits.now < 2 ^ 63 }
    ensures { result ≡ decimal digits.now }
{
    let mut n: u64 = 0;
    for b in digits {
        n = 10 * n + u64::from(*b - b'0');
    }
    n
}

fn terminal_of(kind: Kind, text: &[u8]) -> Terminal
    requires spelled { IsSpellingOf kind text.now }
    requires small { kind ≡ Int → decimal text.now < 2 ^ 63 }
    ensures { result ≡ terminal_of kind text.now }
{
    match kind {
        Kind::Word => word_terminal(text),
        Kind::Int => Terminal::Integer(number(text)),
        Kind::Sign => sign_terminal(text),
        Kind::Procedure => Terminal::Outer(Outer::Procedure),
    }
}

fn item<'a>(token: Token<'a>) -> Item<'a>
    requires { IsSpelled (lexeme_of token) }
    ensures { tok result ≡ tok_of (lexeme_of token.entry) }
{
    Item {
        terminal: terminal_of(token.kind, token.text),
        text: token.text,
        place: token.start,
    }
}

// Each token is made an item as it is read: a list of the tokens of a text would be as long as that of the items.
fn items_of<'a>(alloc: Global, src: &'a [u8]) -> Result<Vec<Item<'a>>, LexError>
    ensures ok { IfOk result (λ v. IsTokens src.now (toks v.items)) }
    ensures err { IfErr result (λ e. Fails e src.now) }
{
    let mut found = Vec::new(alloc);
    let mut lexer = Lexer::new(alloc, src);
    while let Some(token) = lexer.next_token()? {
        found.push(item(token))?;
    }
    Ok(found)
}

/// The tokens of the text as the grammar sees them.
pub fn items<'a>(alloc: Global, src: &'a [u8]) -> Result<Vec<Item<'a>>, KbError>
    ensures { ItemsOf src.now result }
{
    match items_of(alloc, src) {
        Ok(found) => Ok(found),
        Err(LexError::Refused(fault)) => Err(KbError::Refused(fault)),
        Err(LexError::Memory) => Err(KbError::Memory),
    }
}
