//! What to write in place of what one types by habit from other languages, where the grammar is left.
use crate::places::{Block, Place};
use crate::signs::{without_spaces, word_at, word_before};

/// What stands at a place or before it, and what to write for it.
struct Habit {
    sign: &'static [u8],
    advice: &'static [u8],
}

const UNEQUAL: &[u8] = b"'not equal' is written ~=, as in a ~= b";

const AND: &[u8] = b"'and' is written &";

const OR: &[u8] = b"'or' is written |";

const IMPLIES: &[u8] = b"'if p then q' is written p => q";

const IFF: &[u8] = b"'exactly if' is written <=>";

const COMMENT: &[u8] = b"a comment begins with //";

const QUOTES: &[u8] = b"names are words without quotes: a letter or _, then letters, digits and _";

const DECLARATIONS: &[u8] = b"declarations stand one after another, with nothing between them";

const ENTRIES: &[u8] =
    b"entries stand one after another, with nothing between them; the items of a list are set apart by ;";

const RULE: &[u8] =
    b"a rule stands in braces, as in { q <- p. }, which says all of q; 'if p then q' is written p => q";

/// Signs and words of other languages that no text goes on with, in any block.
const HABITS: [Habit; 25] = [
    Habit {
        sign: b"!=",
        advice: UNEQUAL,
    },
    Habit {
        sign: b"<>",
        advice: UNEQUAL,
    },
    Habit {
        sign: b"==",
        advice: b"'equal' is written =, as in a = b; of two formulas <=>",
    },
    Habit {
        sign: b"&&",
        advice: AND,
    },
    Habit {
        sign: b"/\\",
        advice: AND,
    },
    Habit {
        sign: b"and",
        advice: AND,
    },
    Habit {
        sign: b"||",
        advice: OR,
    },
    Habit {
        sign: b"\\/",
        advice: OR,
    },
    Habit {
        sign: b"or",
        advice: OR,
    },
    Habit {
        sign: b"not",
        advice: b"'not' is written ~, as in ~p",
    },
    Habit {
        sign: b"implies",
        advice: IMPLIES,
    },
    Habit {
        sign: b"if",
        advice: IMPLIES,
    },
    Habit {
        sign: b"then",
        advice: IMPLIES,
    },
    Habit {
        sign: b"<->",
        advice: IFF,
    },
    Habit {
        sign: b"iff",
        advice: IFF,
    },
    Habit {
        sign: b":-",
        advice: RULE,
    },
    Habit {
        sign: b"forall",
        advice: b"'for all' is written !, as in !x[T]: P(x)",
    },
    Habit {
        sign: b"exists",
        advice: b"'there is' is written ?, as in ?x[T]: P(x)",
    },
    Habit {
        sign: b"exactly",
        advice: b"'exactly two' is written ?=2, as in ?=2 x: P(x); 'at most two' ?=<2, 'at least two' ?>=2",
    },
    Habit {
        sign: b"%",
        advice: COMMENT,
    },
    Habit {
        sign: b"#",
        advice: COMMENT,
    },
    Habit {
        sign: b"\"",
        advice: QUOTES,
    },
    Habit {
        sign: b"'",
        advice: QUOTES,
    },
    Habit {
        sign: b"/*",
        advice: b"the comment is not closed by */",
    },
    Habit {
        sign: b"procedure",
        advice: b"the procedure is not closed by }, or one of its strings or comments is open",
    },
];

/// Signs that a vocabulary does not go on with.
const IN_VOCABULARY: [Habit; 6] = [
    Habit {
        sign: b"->",
        advice: b"a function is declared with its arguments in parentheses, as f(T) : U",
    },
    Habit {
        sign: b"=",
        advice: b"the elements of a type: type T constructed from {a, b}, or in the structure T = {a; b}",
    },
    Habit {
        sign: b":=",
        advice: b"the elements of a type: type T constructed from {a, b}, or in the structure T = {a; b}",
    },
    Habit {
        sign: b",",
        advice: DECLARATIONS,
    },
    Habit {
        sign: b";",
        advice: DECLARATIONS,
    },
    Habit {
        sign: b".",
        advice: DECLARATIONS,
    },
];

/// Signs that a theory does not go on with.
const IN_THEORY: [Habit; 4] = [
    Habit {
        sign: b"<-",
        advice: RULE,
    },
    Habit {
        sign: b"->",
        advice: IMPLIES,
    },
    Habit {
        sign: b";",
        advice: b"'or' is written |",
    },
    Habit {
        sign: b",",
        advice: b"'and' is written &",
    },
];

/// Signs that a structure does not go on with.
const IN_STRUCTURE: [Habit; 4] = [
    Habit {
        sign: b":=",
        advice: b"an entry is written with =, as in T = {a; b}",
    },
    Habit {
        sign: b";",
        advice: ENTRIES,
    },
    Habit {
        sign: b",",
        advice: ENTRIES,
    },
    Habit {
        sign: b".",
        advice: ENTRIES,
    },
];

const LESS: &[u8] =
    b"'at most' is written =<, as in x =< 3; <= is an implication from right to left";

const CHAIN: &[u8] = b"comparisons do not chain: for 1 =< x =< 3 write 1 =< x & x =< 3";

const ARROWS: &[u8] = b"two different arrows in a row need parentheses, as in (p => q) <=> r";

const TRUTH: &[u8] = b"a proposition stands by itself: p for p = true, ~p for p = false";

const STOP: &[u8] = b"a sentence ends with a full stop";

const BRACKET: &[u8] = b"a ( before this place is not closed";

const COLON: &[u8] =
    b"a colon stands behind the variables of ! and ?, as in !x: P(x); 'not' is written ~";

const HEADER: &[u8] = b"theories and structures name their vocabulary, as in theory T : V { .. }";

const WORDS: &[u8] =
    b"a word is a letter from a to z or A to Z, or _, then such letters, digits and _";

const SMALL: &[u8] = b"vocabulary, theory, structure and the like are written in small letters";

const CLOSED: &[u8] = b"a block is closed by }";

/// The signs of comparison.
const COMPARISONS: [&[u8]; 6] = [b"=", b"<", b">", b"=<", b">=", b"~="];

/// The arrows between formulas.
const ARROW_SIGNS: [&[u8]; 3] = [b"=>", b"<=", b"<=>"];

/// The words that begin blocks.
const BLOCKS: [&[u8]; 5] = [
    b"vocabulary",
    b"theory",
    b"structure",
    b"term",
    b"procedure",
];

/// Whether a sign is one of these.
fn is_among(sign: &[u8], signs: &[&[u8]]) -> bool {
    for other in signs {
        if sign == *other {
            return true;
        }
    }
    false
}

/// Whether the sentence before a place has one of these signs.
fn has_one(place: &Place<'_>, signs: &[&[u8]]) -> bool {
    for sign in signs {
        if place.has(sign) {
            return true;
        }
    }
    false
}

/// Whether the place is between the two bytes of a sign.
fn is_split(place: &Place<'_>, sign: &[u8]) -> bool {
    sign.len() == 2 && place.front.ends_with(&sign[..1]) && place.behind.starts_with(&sign[1..])
}

/// The advice on the habit whose sign stands at the place, or whose word stands before it.
fn habit_of(place: &Place<'_>) -> Option<&'static [u8]> {
    for habit in &HABITS {
        let is_before = place.follows(habit.sign)
            || habit.sign == b"#".as_slice() && place.trimmed.ends_with(b"#");
        if place.sign == habit.sign || is_before || is_split(place, habit.sign) {
            return Some(habit.advice);
        }
    }
    None
}

/// The advice on a sign, among these habits.
fn advice_among(habits: &[Habit], sign: &[u8]) -> Option<&'static [u8]> {
    for habit in habits {
        if sign == habit.sign {
            return Some(habit.advice);
        }
    }
    None
}

/// The advice on the sign at the place, among the habits of its block.
fn habit_in_block(place: &Place<'_>) -> Option<&'static [u8]> {
    match place.block {
        Block::Vocabulary => advice_among(&IN_VOCABULARY, place.sign),
        Block::Theory => advice_among(&IN_THEORY, place.sign),
        Block::Structure => advice_among(&IN_STRUCTURE, place.sign),
        Block::Other => None,
    }
}

/// Whether the place stands behind the name of a theory or a structure whose vocabulary is not named.
fn is_header(place: &Place<'_>) -> bool {
    let name = word_before(place.trimmed);
    let before = without_spaces(
        &place.trimmed[..place.trimmed.len() - name.len().min(place.trimmed.len())],
    );
    place.sign == b"{".as_slice() && is_among(word_before(before), &BLOCKS)
}

/// Whether a word that begins a block stands at the place in other letters.
fn is_in_capitals(place: &Place<'_>) -> bool {
    for block in &BLOCKS {
        if word_at(place.behind).eq_ignore_ascii_case(block) {
            return true;
        }
    }
    false
}

/// Whether the place follows a number, or an aggregate, which no arrow may.
fn follows_number(place: &Place<'_>) -> bool {
    let word = word_before(place.trimmed);
    place.trimmed.ends_with(b"}") || !word.is_empty() && word.iter().all(|b| b.is_ascii_digit())
}

/// Whether <= stands at the place where an arrow cannot be meant.
fn is_at_most(place: &Place<'_>) -> bool {
    place.sign == b"<=".as_slice() && (follows_number(place) || !has_one(place, &ARROW_SIGNS))
}

/// The advice on a sentence of a theory that does not go on with what stands at the place.
fn advice_on_sentence(place: &Place<'_>) -> Option<&'static [u8]> {
    let sign = place.sign;
    let is_end = sign == b"}".as_slice() || sign == b".".as_slice();
    if place.has(b"<=") && !is_among(sign, &ARROW_SIGNS) || is_at_most(place) {
        return Some(LESS);
    }
    if is_among(sign, &COMPARISONS) && has_one(place, &COMPARISONS) {
        return Some(CHAIN);
    }
    if is_among(sign, &ARROW_SIGNS) && has_one(place, &ARROW_SIGNS) {
        return Some(ARROWS);
    }
    if place.trimmed.ends_with(b"=")
        && (sign == b"true".as_slice() || sign == b"false".as_slice())
    {
        return Some(TRUTH);
    }
    if place.has_open_quantifier() {
        return Some(COLON);
    }
    if is_end && place.has_open_bracket() {
        return Some(BRACKET);
    }
    if !place.sentence.is_empty() && (sign == b"}".as_slice() || place.begins_line()) {
        return Some(STOP);
    }
    None
}

/// What to write in place of what stands at a place where the grammar is left.
pub fn advice_on_syntax(place: &Place<'_>) -> Option<&'static [u8]> {
    if let Some(advice) = habit_of(place) {
        return Some(advice);
    }
    if let Some(advice) = habit_in_block(place) {
        return Some(advice);
    }
    match place.behind.first() {
        None => return Some(CLOSED),
        Some(byte) if *byte >= 128 => return Some(WORDS),
        _ => {}
    }
    if is_in_capitals(place) {
        return Some(SMALL);
    }
    if is_header(place) {
        return Some(HEADER);
    }
    if place.block == Block::Theory {
        return advice_on_sentence(place);
    }
    None
}
