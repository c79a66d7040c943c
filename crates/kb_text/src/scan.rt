//! The tokens of a whole text, or its first refusal.
ghost use Rattle.std.specs.Prelude.{◌≡◌, ℕ, List, IfOk, All};
ghost use Rattle.kb_text.specs.Depth.{outermost};
ghost use Rattle.kb_text.specs.Tokens.{AreShallow, IsSpelled, Outcome, SpansRise, TokensFrom, TokensOf, lexemes};

use crate::depth::Nesting;
use crate::fault::{K, KbFault, LexError};
use crate::piece::{Found, piece};
use crate::refusal::refusal;
use crate::token::Token;
use std::alloc::Global;

fn refused<T>(cause: K, place: usize) -> Result<T, LexError>
    ensures { result ≡ Err (LexError.Refused (record { cause = cause; place = place })) }
{
    Err(LexError::Refused(KbFault { cause, place }))
}

/// The tokens of a text, one after the other, so that a reader makes what it wants of each and keeps no list of them.
#[derive(Drop)]
pub struct Lexer<'a> {
    src: &'a [u8],
    /// Where the tokens so far end.
    start: usize,
    nesting: Nesting,
}

impl<'a> Lexer<'a> {
    ghost use Rattle.std.specs.Prelude.{◌≡◌, ◌<◌, [], List, IfOk, IfSome};
    ghost use Rattle.kb_text.specs.Tokens.{Lexeme, IsSpelled, lexeme_of};
    ghost use Rattle.kb_text.specs.Lexing.{HasPassed, TokenRead, left_of, text_of};

    /// Before the first token.
    pub fn new(alloc: Global, src: &'a [u8]) -> Lexer<'a>
        ensures text { text_of result ≡ src.now }
        ensures none { HasPassed [] result }
    {
        Lexer {
            src,
            start: 0,
            nesting: Nesting::new(alloc),
        }
    }

    /// The next token, if the text has a further one; else its end. A refusal is the text's first one.
    pub fn next_token(&mut self) -> Result<Option<Token<'a>>, LexError>
        ensures read { (ts : List Lexeme) → HasPassed ts self.old → TokenRead ts (text_of self.old) self.new result }
        ensures spelled { IfOk result (λ found. IfSome found (λ t. IsSpelled (lexeme_of t))) }
        ensures text { text_of self.new ≡ text_of self.old }
        ensures shorter { IfOk result (λ found. IfSome found (λ t. left_of self.new < left_of self.old)) }
    {
        let src = self.src;
        let mut start = self.start;
        while start < src.len() {
            let (_, rest) = src.split_at(start);
            match piece(self.nesting.in_braces(), rest) {
                Found::Gap(n) => start += n,
                Found::Token(kind, n) => {
                    let (text, behind) = rest.split_at(n);
                    if let Some(cause) = refusal(&self.nesting, kind, text, behind) {
                        return refused(cause, start);
                    }
                    self.nesting.pass(kind, text)?;
                    let end = start + n;
                    self.start = end;
                    let found = Token {
                        kind,
                        text,
                        start,
                        end,
                    };
                    return Ok(Some(found));
                }
                Found::Nothing(cause) => return refused(cause, start),
            }
        }
        Ok(None)
    }
}

/// The tokens of the text, in one pass.
///
/// A refusal is the first one: that of the least place, and there the one of the least number.
pub fn tokens<'a>(alloc: Global, src: &'a [u8]) -> Result<Vec<Token<'a>>, LexError>
    ensures outcome { TokensOf src.now result }
    ensures spans { IfOk result (λ v. SpansRise 0 src.now (lexemes v.items)) }
    ensures spelled { IfOk result (λ v. All IsSpelled (lexemes v.items)) }
    ensures shallow { IfOk result (λ v. AreShallow outermost (lexemes v.items)) }
{
    let mut out = Vec::new(alloc);
    let mut lexer = Lexer::new(alloc, src);
    while let Some(token) = lexer.next_token()? {
        out.push(token)?;
    }
    Ok(out)
}

/// Each text has one list of tokens or one first refusal, and no other.
pub fn one_answer()
    ensures { (src : List ℕ) → (r : Outcome) × TokensFrom outermost 0 src r
        × ((t : Outcome) → TokensFrom outermost 0 src t → t ≡ r) }
{}
