//! Inputs by lines.
use crate::sources::source;
use kb_io::{LineError, LineState, MemSource, Next, next_line};
use std::alloc::{AllocError, Global};
use std::test::Fail;

const LINES: [(&[u8], &[u8]); 5] = [
    (b"", b""),
    (b"\n", b"|"),
    (b"a", b"a|"),
    (b"a\n\nbc\n", b"a||bc|"),
    (b"a\n\nbc", b"a||bc|"),
];

const PIECES: [&[usize]; 4] = [&[], &[1, 1, 1, 1, 1, 1, 1], &[2, 2, 2], &[5, 1]];

/// Adds the next line with a bar behind it. Whether there was one.
fn adds_line(src: &mut MemSource, state: &mut LineState, text: &mut Vec<u8>) -> bool {
    match next_line(src, state) {
        Ok(Next::Line) => {
            text.extend_from_slice(state.line()).is_ok() && text.push(b'|').is_ok()
        }
        _ => false,
    }
}

/// Whether these are all lines that the source gives.
fn gives(alloc: Global, src: &mut MemSource, state: &mut LineState, lines: &[u8]) -> bool {
    let mut text = Vec::new(alloc);
    for _ in 0..8 {
        if !adds_line(src, state, &mut text) {
            return text.as_slice() == lines;
        }
    }
    false
}

fn is_cut(alloc: Global, src: &mut MemSource, lines: &[u8]) -> bool {
    match LineState::new(alloc) {
        Ok(mut state) => gives(alloc, src, &mut state, lines),
        Err(_) => false,
    }
}

#[test]
fn lines_are_cut_at_newlines_in_any_pieces(rt: HostRuntime) -> Result<(), Fail> {
    for (bytes, lines) in &LINES {
        for pieces in &PIECES {
            let mut src = source(rt.alloc(), bytes, &[], pieces)?;
            assert!(rt; is_cut(rt.alloc(), &mut src, lines));
        }
    }
    Ok(())
}

/// So many letters, and a line behind them.
fn long_line(alloc: Global, length: usize) -> Result<MemSource, AllocError> {
    let mut bytes = Vec::from_elem(alloc, b'a', length)?;
    bytes.extend_from_slice(b"\nb\n")?;
    Ok(MemSource::new(bytes, Vec::new(alloc), Vec::new(alloc)))
}

fn is_end(src: &mut MemSource, state: &mut LineState) -> bool {
    matches!(next_line(src, state), Ok(Next::End))
}

/// Whether the next line is this one.
fn is_line(src: &mut MemSource, state: &mut LineState, line: &[u8]) -> bool {
    matches!(next_line(src, state), Ok(Next::Line)) && state.line() == line
}

/// Whether the first line is long, or has so many bytes, and the other one and the end follow, which is told twice.
fn begins_so(src: &mut MemSource, state: &mut LineState, length: usize, is_long: bool) -> bool {
    let first = match next_line(src, state) {
        Ok(Next::Line) => !is_long && state.line().len() == length,
        Ok(Next::LongLine) => is_long && state.line().is_empty(),
        _ => false,
    };
    first && is_line(src, state, b"b") && is_end(src, state) && is_end(src, state)
}

/// The length of the first line, and whether it is too long.
const LENGTHS: [(usize, bool); 3] = [(65_536, false), (65_537, true), (200_000, true)];

fn is_limited(alloc: Global, src: &mut MemSource, length: usize, is_long: bool) -> bool {
    match LineState::new(alloc) {
        Ok(mut state) => begins_so(src, &mut state, length, is_long),
        Err(_) => false,
    }
}

#[test]
fn a_line_of_more_than_65536_bytes_is_long(rt: HostRuntime) -> Result<(), Fail> {
    for (length, is_long) in &LENGTHS {
        let mut src = long_line(rt.alloc(), *length)?;
        assert!(rt; is_limited(rt.alloc(), &mut src, *length, *is_long));
    }
    Ok(())
}

/// Whether a line comes whole when it is asked for again after a fault.
fn goes_on(src: &mut MemSource, state: &mut LineState) -> bool {
    is_line(src, state, b"a")
        && matches!(next_line(src, state), Err(LineError::Fault))
        && is_line(src, state, b"bc")
}

fn goes_on_after_a_fault(alloc: Global, src: &mut MemSource) -> bool {
    match LineState::new(alloc) {
        Ok(mut state) => goes_on(src, &mut state),
        Err(_) => false,
    }
}

#[test]
fn a_line_can_be_asked_for_again_after_a_fault(rt: HostRuntime) -> Result<(), Fail> {
    let mut src = source(rt.alloc(), b"a\nbc\n", &[1], &[3, 1])?;
    assert!(rt; goes_on_after_a_fault(rt.alloc(), &mut src));
    Ok(())
}

/// An empty line, and a long one up to the length; and so many bytes more.
fn two_lines(alloc: Global, length: usize, more: usize) -> Result<MemSource, AllocError> {
    let mut bytes = b"\n".to_vec(alloc)?;
    bytes.resize(length, b'a')?;
    bytes.push(b'\n')?;
    for _ in 0..more {
        bytes.push(b'a')?;
    }
    Ok(MemSource::new(bytes, Vec::new(alloc), Vec::new(alloc)))
}

/// Whether the answer is the end, or that there are more bytes.
fn ends_so(src: &mut MemSource, state: &mut LineState, more: bool) -> bool {
    match next_line(src, state) {
        Ok(Next::End) => !more,
        Err(LineError::TooLong) => more,
        _ => false,
    }
}

fn ends_at_the_limit(src: &mut MemSource, state: &mut LineState, more: bool) -> bool {
    is_line(src, state, b"")
        && matches!(next_line(src, state), Ok(Next::LongLine))
        && ends_so(src, state, more)
        && ends_so(src, state, more)
}

fn takes_no_more(alloc: Global, src: &mut MemSource, more: bool) -> bool {
    match LineState::new(alloc) {
        Ok(mut state) => ends_at_the_limit(src, &mut state, more),
        Err(_) => false,
    }
}

#[test]
fn more_than_67108864_bytes_are_too_long(rt: HostRuntime) -> Result<(), Fail> {
    for more in 0..2usize {
        let mut src = two_lines(rt.alloc(), 67_108_863, more)?;
        assert!(rt; takes_no_more(rt.alloc(), &mut src, more == 1));
    }
    Ok(())
}

fn million_lines(alloc: Global) -> Result<MemSource, AllocError> {
    let mut bytes = Vec::new(alloc);
    for _ in 0..1_000_000 {
        bytes.extend_from_slice(b"choices.\n")?;
    }
    Ok(MemSource::new(bytes, Vec::new(alloc), Vec::new(alloc)))
}

/// Whether a million lines of eight bytes come, and then the end.
fn are_million(src: &mut MemSource, state: &mut LineState) -> bool {
    for _ in 0..1_000_000 {
        if !matches!(next_line(src, state), Ok(Next::Line)) || state.line().len() != 8 {
            return false;
        }
    }
    is_end(src, state)
}

fn gives_a_million(alloc: Global, src: &mut MemSource) -> bool {
    match LineState::new(alloc) {
        Ok(mut state) => are_million(src, &mut state),
        Err(_) => false,
    }
}

#[test]
fn a_million_lines_take_no_more_time_than_their_bytes(rt: HostRuntime) -> Result<(), Fail> {
    let mut src = million_lines(rt.alloc())?;
    assert!(rt; gives_a_million(rt.alloc(), &mut src));
    Ok(())
}
