//! Files too long for a case.

use base_reader::read_base;
use std::alloc::{AllocError, Global};
use std::test::Fail;

#[test]
fn long_chains_are_no_depth(rt: HostRuntime) -> Result<(), Fail> {
    let alloc = rt.alloc();
    let mut text = Vec::from_slice(alloc, b"vocabulary V{p}theory T:V{p")?;
    for _ in 0..100_000 {
        text.extend_from_slice(b"&p|p")?;
    }
    text.extend_from_slice(b".}structure S:V{}")?;
    assert!(rt; read_base(alloc, &text, None, None).is_ok());
    Ok(())
}

// A structure that gives a type and a predicate over it this many elements.
fn many_elements(alloc: Global, count: usize) -> Result<Vec<u8>, AllocError> {
    let mut words = Vec::new(alloc);
    for number in 0..count {
        let mut word = String::new(alloc);
        write!(word, "e{number};")?;
        words.extend_from_slice(word.as_bytes())?;
    }
    let mut text = Vec::from_slice(
        alloc,
        b"vocabulary V{type N P(N)}theory T:V{}structure S:V{N={",
    )?;
    text.extend_from_slice(&words)?;
    text.extend_from_slice(b"}P={")?;
    text.extend_from_slice(&words)?;
    text.extend_from_slice(b"}}")?;
    Ok(text)
}

#[test]
fn many_elements_are_read(rt: HostRuntime) -> Result<(), Fail> {
    let alloc = rt.alloc();
    assert!(rt; read_base(alloc, &many_elements(alloc, 65_536)?, None, None).is_ok());
    Ok(())
}
