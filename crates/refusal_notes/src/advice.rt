//! How a refusal is mended, where that can be said.
use crate::habits::advice_on_syntax;
use crate::places::{Block, Place};
use crate::signs::{behind_spaces, has_sign, word_at};
use kb_text::K;
use memchr::memmem;

const LISTED: &[u8] =
    b"names that a structure lists mean nothing in a theory: declare their type constructed from {..}";

const VARIABLE: &[u8] = b"if it is to be a variable: ! or ? introduces it, as in !x: P(x)";

const DECLARED: &[u8] =
    b"see its declaration: a predicate stands by itself, as P(a,b), a function in a comparison, as f(a) = b";

const ITEMS: &[u8] = b"items of a list are set apart by ; and the elements of a row by ,";

const TYPES: &[u8] =
    b"both sides of = and ~= are of one type; < + and their like are of integers; an argument is of its own type";

const NATURAL: &[u8] = b"a type isa nat has no integers below 0; one isa int has";

const ELEMENT: &[u8] = b"list it with the elements of the type, or take it out";

const PART: &[u8] =
    b"an entry without a mark gives all of a symbol: a part of it is given as f<ct> = {..} or f<cf> = {..}";

const MARKS: &[u8] =
    b"what stands in <ct> is certainly true and in <cf> certainly false: no row is both";

const VALUES: &[u8] = b"a row is given once, and a function has one value in it";

const RANGE: &[u8] =
    b"a range is of integers, in a list of one column, as {1..10}: list the names or the rows, as {c1; c2; c3}";

const RECURSION: &[u8] =
    b"the rules of a definition do not ask for what it defines: recursive definitions are not read";

const SUMMED: &[u8] =
    b"a count or a sum is a side of a comparison, or an operand of its sum, with integers as factors; no weight has one";

const EXTREMUM: &[u8] =
    b"min and max are a whole side of a comparison, and the other side has no aggregate: name it by a function";

const PRODUCT: &[u8] = b"there is no product over assignments";

const INTEGERS: &[u8] =
    b"an argument or a value has a type of its own: type Number isa int, listed in the structure";

const DIVISION: &[u8] = b"there is no division: multiply the other side";

const TOTAL: &[u8] =
    b"each function has a value everywhere: leave the word out, or add an element for 'none'";

const TYPE_TEST: &[u8] = b"a type is no predicate: give the variable its type, as in !x[T]: P(x)";

const NARROWER: &[u8] =
    b"integers of types go from -1,000,000 to 1,000,000, terms from -10^15 to 10^15";

const SIZES: &[u8] = b"what counts, and how to write it lighter: docs/LANGUAGE.md, 'Sizes'";

const DEEP: &[u8] = b"take brackets out, or cut the sentence into several";

/// Whether a structure behind this text lists the name.
fn is_listed(text: &[u8], name: &[u8]) -> bool {
    match memmem::find(text, b"structure ") {
        Some(start) => has_sign(&text[start.min(text.len())..], name),
        None => false,
    }
}

/// What stands behind the word at a place.
fn behind_word<'a>(place: &Place<'a>) -> &'a [u8] {
    let behind = place.behind;
    &behind[word_at(behind).len().min(behind.len())..]
}

/// How a name that is not declared is mended.
fn advice_on_name(place: &Place<'_>) -> Option<&'static [u8]> {
    if place.block != Block::Theory {
        return None;
    }
    if is_listed(place.behind, word_at(place.behind)) {
        return Some(LISTED);
    }
    let is_applied = behind_spaces(behind_word(place)).starts_with(b"(");
    let is_type = place.trimmed.ends_with(b"[") || place.trimmed.ends_with(b":");
    if is_applied || is_type {
        return None;
    }
    Some(VARIABLE)
}

/// Whether the entry that a place is in has a mark: only one = stands behind the last mark.
fn is_marked(place: &Place<'_>) -> bool {
    let Some(start) = memmem::rfind(place.front, b"<c") else {
        return false;
    };
    let entry = &place.front[start.min(place.front.len())..];
    entry.iter().filter(|b| **b == b'=').count() == 1
}

/// How data that contradict one another are mended.
fn advice_on_clash(place: &Place<'_>) -> &'static [u8] {
    if behind_spaces(behind_word(place)).starts_with(b"=") {
        return PART;
    }
    if is_marked(place) {
        return MARKS;
    }
    VALUES
}

/// Whether a text declares a type of this name.
fn is_declared_type(text: &[u8], name: &[u8]) -> bool {
    for start in 0..text.len() {
        let rest = &text[start..];
        if rest.starts_with(b"type ")
            && word_at(behind_spaces(&rest[rest.len().min(5)..])) == name
        {
            return true;
        }
    }
    false
}

/// How a word of a theory that may not stand there is mended.
fn advice_on_word(place: &Place<'_>) -> &'static [u8] {
    if is_declared_type(place.front, place.sign) {
        return TYPE_TEST;
    }
    RECURSION
}

/// How an aggregate is mended that may not stand there.
fn advice_on_aggregate(sign: &[u8]) -> Option<&'static [u8]> {
    if sign == b"#".as_slice() || sign == b"sum".as_slice() {
        return Some(SUMMED);
    }
    if sign == b"min".as_slice() || sign == b"max".as_slice() {
        return Some(EXTREMUM);
    }
    if sign == b"prod".as_slice() {
        return Some(PRODUCT);
    }
    None
}

/// How a form that is not read is mended.
fn advice_on_form(place: &Place<'_>) -> Option<&'static [u8]> {
    let sign = place.sign;
    if place.front.ends_with(b"..") || behind_word(place).starts_with(b"..") {
        return Some(RANGE);
    }
    if let Some(advice) = advice_on_aggregate(sign) {
        return Some(advice);
    }
    if sign == b"int".as_slice() || sign == b"nat".as_slice() {
        return Some(INTEGERS);
    }
    if sign == b"/".as_slice() {
        return Some(DIVISION);
    }
    if sign == b"partial".as_slice() {
        return Some(TOTAL);
    }
    match advice_on_syntax(place) {
        None if place.block == Block::Theory => Some(advice_on_word(place)),
        advice => advice,
    }
}

/// How a refusal at a place is mended, where that can be said.
pub fn advice(cause: K, place: &Place<'_>) -> Option<&'static [u8]> {
    match cause {
        K::Syntax => advice_on_syntax(place),
        K::UnknownName => advice_on_name(place),
        K::WrongArity if place.block == Block::Theory => Some(DECLARED),
        K::WrongArity => Some(ITEMS),
        K::TypeClash => Some(TYPES),
        K::Untyped => Some(b"write its type, as in !x[T]: P(x)"),
        K::TypeNotGiven => Some(b"give a list, as in T = {a; b}"),
        K::NotAnElement if place.sign.starts_with(b"-") => Some(NATURAL),
        K::NotAnElement => Some(ELEMENT),
        K::DataClash => Some(advice_on_clash(place)),
        K::Unsupported => advice_on_form(place),
        K::OutOfRange => Some(NARROWER),
        K::TooLarge => Some(SIZES),
        K::TooDeep => Some(DEEP),
        _ => None,
    }
}
