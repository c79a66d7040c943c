//! Reads the tokens of a line as a command.
ghost use Rattle.std.specs.Prelude.{◌≡◌, ◌≢◌, ◌<◌, ◌^◌, ◌∷◌, length, IfOk, IfSome, MatchBool, MatchOption};
ghost use Rattle.std.specs.List.{list_any};
ghost use Rattle.std.specs.Str.{bytes_eq};
ghost use Rattle.kb_text.specs.Tokens.{lexeme_of, is_word_of};
ghost use Rattle.consult_text.specs.Written.{word, sign, reserved_words};
ghost use Rattle.consult_text.specs.Lines.{tok_of};
ghost use Rattle.consult_text.specs.Parse.{toks, Behind, ParsesName, ParsesDigits, ParsesElem, ParsesFurther};
ghost use Rattle.consult_text.specs.Parse.{ParsesArgs, HasNoArgs, ParsesHead, HasNoHead, ParsesEquality, ParsesLiteral};
ghost use Rattle.consult_text.specs.Parse.{ParsesNegated, ParsesPositive, ParsesAbout, ParsesNumber, ParsesBudget};
ghost use Rattle.consult_text.specs.Parse.{ParsesMinimize, ParsesNumbered, ParsesShort, ParsesCommand};
ghost use Rattle.consult_text.specs.Parse.{literal_view, head_literal, dot, elem_views};

use crate::digits::{MOST_BUDGET, MOST_MODELS, number_up_to};
use crate::written::{CommandText, ElemText, Head, LiteralText};
use kb_logic::Memory;
use kb_text::{Kind, Token};
use std::alloc::Global;

/// Words that are no names.
const RESERVED: [&[u8]; 13] = [
    b"vocabulary",
    b"theory",
    b"structure",
    b"term",
    b"procedure",
    b"type",
    b"isa",
    b"constructed",
    b"true",
    b"false",
    b"sum",
    b"min",
    b"max",
];

fn is_any_of(text: &[u8], words: &[&[u8]]) -> bool
    ensures { result ≡ list_any (λ w. bytes_eq w.now text.now) words.now }
{
    words.iter().any(|word| *word == text)
}

fn is_reserved(text: &[u8]) -> bool
    ensures { result ≡ is_word_of reserved_words text.now }
{
    is_any_of(text, &RESERVED)
}

fn is_sign(token: &Token<'_>, text: &[u8]) -> bool
    ensures { MatchBool result (tok_of (lexeme_of token.now) ≡ sign text.now)
        (tok_of (lexeme_of token.now) ≢ sign text.now) }
{
    match token.kind {
        Kind::Sign => token.text == text,
        _ => false,
    }
}

fn is_word(token: &Token<'_>, text: &[u8]) -> bool
    ensures { MatchBool result (tok_of (lexeme_of token.now) ≡ word text.now)
        (tok_of (lexeme_of token.now) ≢ word text.now) }
{
    match token.kind {
        Kind::Word => token.text == text,
        _ => false,
    }
}

/// Behind this sign, where it comes first.
fn behind_sign<'a, 'b>(text: &[u8], tokens: &'b [Token<'a>]) -> Option<&'b [Token<'a>]>
    ensures behind { Behind (sign text.now) (toks tokens.now) result }
    ensures shorter { IfSome result (λ rest. length rest.now < length tokens.now) }
{
    let (first, rest) = tokens.split_first()?;
    if is_sign(first, text) {
        Some(rest)
    } else {
        None
    }
}

/// Behind this word, where it comes first.
fn behind_word<'a, 'b>(text: &[u8], tokens: &'b [Token<'a>]) -> Option<&'b [Token<'a>]>
    ensures { Behind (word text.now) (toks tokens.now) result }
{
    let (first, rest) = tokens.split_first()?;
    if is_word(first, text) {
        Some(rest)
    } else {
        None
    }
}

fn parse_name<'a, 'b>(tokens: &'b [Token<'a>]) -> Option<(&'a [u8], &'b [Token<'a>])>
    ensures cut { ParsesName (toks tokens.now) result }
    ensures shorter { IfSome result (λ p. length p.1.now < length tokens.now) }
{
    let (first, rest) = tokens.split_first()?;
    match first.kind {
        Kind::Word => {
            if is_reserved(first.text) {
                None
            } else {
                Some((first.text, rest))
            }
        }
        _ => None,
    }
}

fn parse_digits<'a, 'b>(tokens: &'b [Token<'a>]) -> Option<(&'a [u8], &'b [Token<'a>])>
    ensures cut { ParsesDigits (toks tokens.now) result }
    ensures shorter { IfSome result (λ p. length p.1.now < length tokens.now) }
{
    let (first, rest) = tokens.split_first()?;
    match first.kind {
        Kind::Int => Some((first.text, rest)),
        _ => None,
    }
}

fn parse_elem<'a, 'b>(tokens: &'b [Token<'a>]) -> Option<(ElemText<'a>, &'b [Token<'a>])>
    ensures cut { ParsesElem (toks tokens.now) result }
    ensures shorter { IfSome result (λ p. length p.1.now < length tokens.now) }
{
    if let Some((name, rest)) = parse_name(tokens) {
        return Some((ElemText::Name(name), rest));
    }
    match behind_sign(b"-", tokens) {
        Some(behind) => {
            let (digits, rest) = parse_digits(behind)?;
            Some((ElemText::Integer(true, digits), rest))
        }
        None => {
            let (digits, rest) = parse_digits(tokens)?;
            Some((ElemText::Integer(false, digits), rest))
        }
    }
}

/// Adds the elements up to the closing parenthesis, each of which a comma comes before.
fn parse_further<'a, 'b>(
    args: &mut Vec<ElemText<'a>>,
    tokens: &'b [Token<'a>],
) -> Result<Option<&'b [Token<'a>]>, Memory>
    ensures { IfOk result (λ found. ParsesFurther args.old.items args.new.items (toks tokens.now) found) }
{
    let (_, mut rest) = tokens.split_at(0);
    loop {
        if let Some(behind) = behind_sign(b")", rest) {
            return Ok(Some(behind));
        }
        let Some(behind) = behind_sign(b",", rest) else {
            return Ok(None);
        };
        let Some((elem, behind)) = parse_elem(behind) else {
            return Ok(None);
        };
        args.push(elem)?;
        rest = behind;
    }
}

/// The arguments in parentheses, or none where no parenthesis opens.
fn parse_args<'a, 'b>(
    alloc: Global,
    tokens: &'b [Token<'a>],
) -> Result<Option<(Vec<ElemText<'a>>, &'b [Token<'a>])>, Memory>
    ensures { IfOk result (λ found. MatchOption found (HasNoArgs (toks tokens.now))
        (λ p. ParsesArgs (toks tokens.now) (elem_views p.0.items) (toks p.1.now))) }
{
    let mut args = Vec::new(alloc);
    let Some(behind) = behind_sign(b"(", tokens) else {
        return Ok(Some((args, tokens)));
    };
    let Some((first, behind)) = parse_elem(behind) else {
        return Ok(None);
    };
    args.push(first)?;
    match parse_further(&mut args, behind)? {
        Some(rest) => Ok(Some((args, rest))),
        None => Ok(None),
    }
}

/// A name and its arguments, as an atom that is true.
fn parse_head<'a, 'b>(
    alloc: Global,
    tokens: &'b [Token<'a>],
) -> Result<Option<(Head<'a>, &'b [Token<'a>])>, Memory>
    ensures { IfOk result (λ found. MatchOption found (HasNoHead (toks tokens.now))
        (λ p. ParsesHead (toks tokens.now) p.0.name.now (elem_views p.0.args.items) (toks p.1.now))) }
{
    let Some((name, behind)) = parse_name(tokens) else {
        return Ok(None);
    };
    match parse_args(alloc, behind)? {
        Some((args, rest)) => Ok(Some((Head { name, args }, rest))),
        None => Ok(None),
    }
}

fn is_dot(tokens: &[Token<'_>]) -> bool
    ensures { MatchBool result (toks tokens.now ≡ dot) (toks tokens.now ≢ dot) }
{
    match behind_sign(b".", tokens) {
        Some(rest) => rest.is_empty(),
        None => false,
    }
}

fn parse_equality<'a, 'b>(tokens: &'b [Token<'a>]) -> Option<(bool, &'b [Token<'a>])>
    ensures { ParsesEquality (toks tokens.now) result }
{
    match behind_sign(b"=", tokens) {
        Some(rest) => Some((true, rest)),
        None => {
            let rest = behind_sign(b"~=", tokens)?;
            Some((false, rest))
        }
    }
}

fn make_literal<'a>(positive: bool, head: Head<'a>, value: Option<ElemText<'a>>) -> LiteralText<'a>
    ensures { literal_view result ≡ head_literal positive head.entry value.entry }
{
    LiteralText {
        positive,
        name: head.name,
        args: head.args,
        value,
    }
}

/// An atom after its `~`.
fn parse_negated<'a>(alloc: Global, tokens: &[Token<'a>]) -> Result<Option<LiteralText<'a>>, Memory>
    ensures { IfOk result (λ found. ParsesNegated (toks tokens.now) found) }
{
    let Some((head, rest)) = parse_head(alloc, tokens)? else {
        return Ok(None);
    };
    if is_dot(rest) {
        Ok(Some(make_literal(false, head, None)))
    } else {
        Ok(None)
    }
}

/// A literal without `~` before it.
fn parse_positive<'a>(
    alloc: Global,
    tokens: &[Token<'a>],
) -> Result<Option<LiteralText<'a>>, Memory>
    ensures { IfOk result (λ found. ParsesPositive (toks tokens.now) found) }
{
    let Some((head, rest)) = parse_head(alloc, tokens)? else {
        return Ok(None);
    };
    if is_dot(rest) {
        return Ok(Some(make_literal(true, head, None)));
    }
    let Some((positive, behind)) = parse_equality(rest) else {
        return Ok(None);
    };
    let Some((value, rest)) = parse_elem(behind) else {
        return Ok(None);
    };
    if is_dot(rest) {
        Ok(Some(make_literal(positive, head, Some(value))))
    } else {
        Ok(None)
    }
}

fn parse_literal<'a>(alloc: Global, tokens: &[Token<'a>]) -> Result<Option<LiteralText<'a>>, Memory>
    ensures { IfOk result (λ found. ParsesLiteral (toks tokens.now) found) }
{
    match behind_sign(b"~", tokens) {
        Some(behind) => parse_negated(alloc, behind),
        None => parse_positive(alloc, tokens),
    }
}

fn is_command_of(text: &[u8], tokens: &[Token<'_>]) -> bool
    ensures { MatchBool result (toks tokens.now ≡ word text.now ∷ dot) (toks tokens.now ≢ word text.now ∷ dot) }
{
    match behind_word(text, tokens) {
        Some(rest) => is_dot(rest),
        None => false,
    }
}

/// The command that the tokens are.
pub fn parse_command<'a>(
    alloc: Global,
    tokens: &[Token<'a>],
) -> Result<Option<CommandText<'a>>, Memory>
    ensures { IfOk result (λ found. ParsesCommand (toks tokens.now) found) }
{
    if let Some(command) = parse_about(alloc, tokens)? {
        return Ok(Some(command));
    }
    if let Some(command) = parse_numbered(tokens) {
        return Ok(Some(command));
    }
    match parse_minimize(tokens) {
        Some(command) => Ok(Some(command)),
        None => Ok(parse_short(tokens)),
    }
}

/// A command about a literal.
fn parse_about<'a>(alloc: Global, tokens: &[Token<'a>]) -> Result<Option<CommandText<'a>>, Memory>
    ensures { IfOk result (λ found. ParsesAbout (toks tokens.now) found) }
{
    if let Some(behind) = behind_word(b"assert", tokens) {
        return match parse_literal(alloc, behind)? {
            Some(literal) => Ok(Some(CommandText::Assert(literal))),
            None => Ok(None),
        };
    }
    if let Some(behind) = behind_word(b"retract", tokens) {
        return match parse_literal(alloc, behind)? {
            Some(literal) => Ok(Some(CommandText::Retract(literal))),
            None => Ok(None),
        };
    }
    if let Some(behind) = behind_word(b"explain", tokens) {
        return match parse_literal(alloc, behind)? {
            Some(literal) => Ok(Some(CommandText::Explain(literal))),
            None => Ok(None),
        };
    }
    Ok(None)
}

/// The digits of a number from 1 to the limit, before the dot.
fn parse_number<'a>(tokens: &[Token<'a>], limit: u64) -> Option<&'a [u8]>
    requires { limit < 2 ^ 60 }
    ensures { ParsesNumber limit (toks tokens.now) result }
{
    let (digits, rest) = parse_digits(tokens)?;
    if is_dot(rest) && number_up_to(digits, limit).is_some() {
        Some(digits)
    } else {
        None
    }
}

/// A command with a number after its word.
fn parse_numbered<'a>(tokens: &[Token<'a>]) -> Option<CommandText<'a>>
    ensures { ParsesNumbered (toks tokens.now) result }
{
    if let Some(behind) = behind_word(b"budget", tokens) {
        return parse_budget(behind);
    }
    let behind = behind_word(b"models", tokens)?;
    let digits = parse_number(behind, MOST_MODELS)?;
    Some(CommandText::Models(digits))
}

/// The budget after its word.
fn parse_budget<'a>(tokens: &[Token<'a>]) -> Option<CommandText<'a>>
    ensures { ParsesBudget (toks tokens.now) result }
{
    if is_command_of(b"unlimited", tokens) {
        return Some(CommandText::Unlimited);
    }
    let digits = parse_number(tokens, MOST_BUDGET)?;
    Some(CommandText::Budget(digits))
}

/// A command about a term block.
fn parse_minimize<'a>(tokens: &[Token<'a>]) -> Option<CommandText<'a>>
    ensures { ParsesMinimize (toks tokens.now) result }
{
    let behind = behind_word(b"minimize", tokens)?;
    let (name, rest) = parse_name(behind)?;
    if is_dot(rest) {
        Some(CommandText::Minimize(name))
    } else {
        None
    }
}

/// A command of one word.
fn parse_short<'a>(tokens: &[Token<'_>]) -> Option<CommandText<'a>>
    ensures { ParsesShort (toks tokens.now) result }
{
    if is_command_of(b"reset", tokens) {
        Some(CommandText::Reset)
    } else if is_command_of(b"choices", tokens) {
        Some(CommandText::Choices)
    } else if is_command_of(b"model", tokens) {
        Some(CommandText::Model)
    } else if is_command_of(b"propagate", tokens) {
        Some(CommandText::Propagate)
    } else if is_command_of(b"why", tokens) {
        Some(CommandText::Why)
    } else if is_command_of(b"forget", tokens) {
        Some(CommandText::Forget)
    } else {
        None
    }
}
