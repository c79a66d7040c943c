//! What each cause of a refusal says of the word or sign at its place.
use crate::excerpt::{push_bytes, push_shown};
use crate::note::Memory;
use crate::places::{Block, Place};
use kb_text::K;
use std::alloc::Global;

/// What stands before and behind the quoted word or sign.
#[derive(Clone, Copy)]
struct Parts {
    before: &'static [u8],
    behind: &'static [u8],
}

/// The words with these parts.
fn around(before: &'static [u8], behind: &'static [u8]) -> Parts {
    Parts { before, behind }
}

/// What is said of a count that is above its limit.
fn sentence_on_size(place: &Place<'_>) -> Parts {
    match place.block {
        Block::Vocabulary if place.follows(b"type") => around(
            b"with the type ",
            b" there are more than 256 types, or it gets more than 65,536 elements",
        ),
        Block::Vocabulary => around(
            b"with ",
            b" there are more than 2,000,000 ground atoms, 1,024 symbols, or 8 arguments",
        ),
        Block::Structure => around(b"", b" gets more than 65,536 elements"),
        _ => around(b"", b" brings a count above its limit"),
    }
}

/// What is said where the text cannot go on.
fn sentence_on_text(place: &Place<'_>) -> Parts {
    if place.sign.is_empty() {
        return around(b"the text cannot stop at ", b"");
    }
    around(b"the text cannot go on with ", b" here")
}

/// What a cause says of the word or sign at a place.
fn sentence_of(cause: K, place: &Place<'_>) -> Parts {
    match cause {
        K::Syntax => sentence_on_text(place),
        K::UnknownName => around(b"nothing is declared as ", b" that may stand here"),
        K::Redeclared => around(b"", b" is declared or given here a second time"),
        K::WrongArity => around(
            b"",
            b" stands here otherwise than it is declared, or with another number of arguments",
        ),
        K::TypeClash => around(b"the types do not fit at ", b""),
        K::Untyped => around(b"nothing gives the variable ", b" a type"),
        K::TypeNotGiven => around(
            b"the structure gives no elements to the type ",
            b", which is a part of another one",
        ),
        K::NotAnElement => around(b"", b" is no element of the type that belongs here"),
        K::DataClash => around(
            b"what is given at ",
            b" contradicts other data, or leaves a value open",
        ),
        K::Unsupported => around(b"", b" stands in a form that is not read"),
        K::BadHead => around(
            b"",
            b" may not stand in the head of a rule: variables, integers and constructed names may",
        ),
        K::OutOfRange => around(b"the number or term at ", b" is out of range, or may be"),
        K::TooDeep => around(
            b"",
            b" stands within more than 200 brackets, quantifiers, arrows and signs",
        ),
        K::TooLarge | K::TooLong | K::BlockChoice => sentence_on_size(place),
    }
}

/// What a cause says that quotes no word; nothing of another cause.
fn whole_sentence(cause: K, place: &Place<'_>) -> Option<&'static [u8]> {
    let sign = place.sign;
    match cause {
        K::TooLarge if sign == b"theory".as_slice() => Some(
            b"the theory weighs too much: its sentences have too many instances",
        ),
        K::TooLong => Some(b"the file has more than 4,194,304 bytes"),
        K::BlockChoice if sign == b"vocabulary".as_slice() => {
            Some(b"this is a second vocabulary: a file has one")
        }
        K::BlockChoice if sign == b"theory".as_slice() => {
            Some(b"there are several theories: --theory NAME says which one is worked on")
        }
        K::BlockChoice if sign == b"structure".as_slice() => {
            Some(b"there are several structures: --structure NAME says which one is worked on")
        }
        K::BlockChoice => Some(
            b"a vocabulary, a theory or a structure is missing, or none has the name that is asked for",
        ),
        _ => None,
    }
}

/// What a cause says of a place.
pub fn sentence(alloc: Global, cause: K, place: &Place<'_>) -> Result<Vec<u8>, Memory> {
    let mut out = Vec::new(alloc);
    match whole_sentence(cause, place) {
        Some(words) => push_bytes(&mut out, words)?,
        None => push_sentence(&mut out, &sentence_of(cause, place), place.sign)?,
    }
    Ok(out)
}

fn push_sentence(out: &mut Vec<u8>, parts: &Parts, sign: &[u8]) -> Result<(), Memory> {
    push_bytes(out, parts.before)?;
    push_quoted(out, sign)?;
    push_bytes(out, parts.behind)
}

/// Appends a word or sign between quotes, or that the text ends.
fn push_quoted(out: &mut Vec<u8>, sign: &[u8]) -> Result<(), Memory> {
    if sign.is_empty() {
        return push_bytes(out, b"the end of the file");
    }
    push_bytes(out, b"'")?;
    push_shown(out, sign, false)?;
    push_bytes(out, b"'")
}
