//! Devices in memory, and whole inputs and outputs over them.
use crate::sources::source;
use kb_io::{
    MemFile, MemShelf, MemSink, MemSource, NullSink, ReadError, Shelf, Sink, Source, read_up_to,
    write_all,
};
use std::alloc::{AllocError, Global};
use std::test::Fail;

const INPUT: &[u8] = b"a\nb\nc\n";

const PIECES: [&[usize]; 4] = [&[], &[0, 1, 2], &[6], &[5, 1, 1]];

/// Whether the input comes whole, with a limit of just its length.
fn comes_whole(alloc: Global, src: &mut MemSource) -> bool {
    match read_up_to(alloc, src, 6) {
        Ok(bytes) => bytes.as_slice() == INPUT,
        Err(_) => false,
    }
}

#[test]
fn whole_inputs_come_in_any_pieces(rt: HostRuntime) -> Result<(), Fail> {
    for pieces in &PIECES {
        let mut src = source(rt.alloc(), INPUT, &[], pieces)?;
        assert!(rt; comes_whole(rt.alloc(), &mut src));
    }
    Ok(())
}

/// Which calls fail, and whether that is a fault; else the input is too long, with two newlines within the limit.
const FAILING: [(&[u64], bool); 2] = [(&[], false), (&[1], true)];

/// Whether the input, which is one byte past the limit, is answered so.
fn is_refused(alloc: Global, src: &mut MemSource, by_fault: bool) -> bool {
    match read_up_to(alloc, src, 5) {
        Err(ReadError::TooLong(newlines)) => !by_fault && newlines == 2,
        Err(ReadError::Fault) => by_fault,
        _ => false,
    }
}

#[test]
fn longer_inputs_and_failing_reads_are_told_apart(rt: HostRuntime) -> Result<(), Fail> {
    for (failing, by_fault) in &FAILING {
        let mut src = source(rt.alloc(), INPUT, failing, &[2])?;
        assert!(rt; is_refused(rt.alloc(), &mut src, *by_fault));
    }
    Ok(())
}

/// A sink that holds `held `, takes pieces of one byte at first, and whose fifth write and second flush fail.
fn sink(alloc: Global) -> Result<MemSink, AllocError> {
    Ok(MemSink::new(
        b"held ".to_vec(alloc)?,
        [4].to_vec(alloc)?,
        [1].to_vec(alloc)?,
        [1, 0].to_vec(alloc)?,
    ))
}

/// Whether a text goes whole, and the second flush fails.
fn takes_a_text(out: &mut MemSink) -> bool {
    let written = write_all(out, b"text").is_ok();
    let flushed = out.flush().is_ok();
    let failed = out.flush().is_err();
    written & flushed & failed & (out.held() == b"held text".as_slice())
}

#[test]
fn whole_outputs_go_in_any_pieces(rt: HostRuntime) -> Result<(), Fail> {
    let mut out = sink(rt.alloc())?;
    assert!(rt; takes_a_text(&mut out));
    Ok(())
}

/// Whether a failing write leaves what was written before.
fn keeps_what_was_written(out: &mut MemSink) -> bool {
    let first = write_all(out, b"text").is_ok();
    let second = write_all(out, b" and").is_ok();
    let failed = write_all(out, b" no more").is_err();
    first & second & failed & (out.held() == b"held text and".as_slice())
}

#[test]
fn a_failing_write_leaves_what_was_written(rt: HostRuntime) -> Result<(), Fail> {
    let mut out = sink(rt.alloc())?;
    assert!(rt; keeps_what_was_written(&mut out));
    Ok(())
}

#[test]
fn the_null_sink_takes_all(rt: HostRuntime) {
    assert!(rt; write_all(&mut NullSink, b"text").is_ok());
    assert!(rt; NullSink.flush().is_ok());
}

/// A shelf with one file, whose first read fails.
fn shelf(alloc: Global) -> Result<MemShelf, AllocError> {
    let file = MemFile {
        name: String::from_str(alloc, "kb")?,
        source: source(alloc, b"text", &[0], &[])?,
    };
    Ok(MemShelf::new(vec![in alloc; file]?, Vec::new(alloc)))
}

/// Whether the source fails once, and then gives its four bytes.
fn fails_once(src: &mut MemSource) -> bool {
    let mut buf = [0u8; 8];
    let failed = src.read(&mut buf).is_err();
    failed & matches!(src.read(&mut buf), Ok(4))
}

/// Whether the file is handed out once, and no other is.
fn is_handed_out_once(shelf: &mut MemShelf) -> bool {
    let other = shelf.open("other").is_ok();
    let Ok(mut src) = shelf.open("kb") else {
        return false;
    };
    let again = shelf.open("kb").is_ok();
    let failed = fails_once(&mut src);
    shelf.close(src);
    !other & !again & failed
}

#[test]
fn a_file_is_handed_out_once(rt: HostRuntime) -> Result<(), Fail> {
    let mut shelf = shelf(rt.alloc())?;
    assert!(rt; is_handed_out_once(&mut shelf));
    Ok(())
}
