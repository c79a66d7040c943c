//! The printed names of refusals, and what counts as a space.
use kb_text::{K, KbFault, LexError, only_spaces};
use std::alloc::{AllocError, Global};
use std::test::Fail;

/// Each refusal with its number and name.
const NAMES: [(K, &str); 16] = [
    (K::Syntax, "K1 Syntax"),
    (K::UnknownName, "K2 UnknownName"),
    (K::Redeclared, "K3 Redeclared"),
    (K::WrongArity, "K4 WrongArity"),
    (K::TypeClash, "K5 TypeClash"),
    (K::Untyped, "K6 Untyped"),
    (K::TypeNotGiven, "K7 TypeNotGiven"),
    (K::NotAnElement, "K8 NotAnElement"),
    (K::DataClash, "K9 DataClash"),
    (K::Unsupported, "K10 Unsupported"),
    (K::BadHead, "K12 BadHead"),
    (K::OutOfRange, "K13 OutOfRange"),
    (K::TooLarge, "K14 TooLarge"),
    (K::TooLong, "K15 TooLong"),
    (K::TooDeep, "K16 TooDeep"),
    (K::BlockChoice, "K17 BlockChoice"),
];

/// Texts, and whether they are spaces alone: comments are none.
const SPACES: [(&[u8], bool); 4] = [
    (b" \t\r\n", true),
    (b"", true),
    (b" /**/ ", false),
    (b"//", false),
];

fn is_printed(alloc: Global, cause: K, wanted: &str) -> Result<bool, AllocError> {
    let text = format!(in alloc; "{cause}")?;
    Ok(text.as_str() == wanted)
}

#[test]
fn refusals_are_printed_with_number_and_name(rt: HostRuntime) -> Result<(), Fail> {
    for row in &NAMES {
        let (cause, wanted) = *row;
        let printed = is_printed(rt.alloc(), cause, wanted)?;
        assert!(rt; printed);
    }
    Ok(())
}

#[test]
fn a_refusal_is_printed_with_its_place(rt: HostRuntime) -> Result<(), Fail> {
    let fault = KbFault {
        cause: K::TooDeep,
        place: 7,
    };
    let text = format!(in rt.alloc(); "{}", LexError::Refused(fault))?;
    assert!(rt; text.as_str() == "K16 TooDeep at place 7");
    Ok(())
}

#[test]
fn comments_are_no_spaces(rt: HostRuntime) {
    for row in &SPACES {
        let (text, wanted) = *row;
        assert!(rt; only_spaces(text) == wanted);
    }
}
