//! What is read of files, and what is kept of those that can be read once alone.

use super::{FileBytes, FileSystem, KeptFile, unread};
use kb_io::{Shelf, Source};
use std::fs::Files;
use std::io::{Cursor, Read};
use std::test::Fail;

#[test]
fn a_file_that_is_not_there_is_a_fault(rt: HostRuntime) -> Result<(), Fail> {
    let mut files = FileSystem::new(&rt);
    assert!(rt; files.open("no such file").is_err());
    assert_eq!(rt; files.faults, 1);
    Ok(())
}

#[test]
fn faults_of_a_file_reach_the_files_when_it_is_closed(rt: HostRuntime) -> Result<(), Fail> {
    let mut files = FileSystem::new(&rt);
    // A folder is opened, and cannot be read.
    let mut folder = files.open("/")?;
    assert!(rt; folder.read(&mut [0u8; 4]).is_err());
    assert_eq!(rt; files.faults, 0);
    files.close(folder);
    assert_eq!(rt; files.faults, 1);
    Ok(())
}

/// What is kept of a file.
fn kept_of<F>(file: &FileBytes<F>) -> &[u8] {
    match file {
        FileBytes::Copied(_, Some(kept)) => &kept.bytes,
        _ => b"nothing",
    }
}

#[test]
fn what_is_read_of_a_file_is_kept(rt: HostRuntime) -> Result<(), Fail> {
    let mut file = FileBytes::Copied(b"text".as_slice(), unread(rt.alloc(), "pipe"));
    let mut buf = [0u8; 3];
    assert_eq!(rt; file.read(&mut buf)?, 3);
    assert_eq!(rt; file.read(&mut buf)?, 1);
    assert_eq!(rt; file.read(&mut buf)?, 0);
    assert_eq!(rt; kept_of(&file), b"text".as_slice());
    Ok(())
}

/// Whether a file is opened, and nothing stands in it; it is closed again.
fn is_empty<R: Files + AllocGlobal>(files: &mut FileSystem<'_, R>, name: &str) -> bool {
    let Ok(mut file) = files.open(name) else {
        return false;
    };
    let is_empty = matches!(file.read(&mut [0u8; 4]), Ok(0));
    files.close(file);
    is_empty
}

#[test]
fn what_was_kept_is_handed_out_after_the_run(rt: HostRuntime) -> Result<(), Fail> {
    let mut files = FileSystem::new(&rt);
    assert!(rt; is_empty(&mut files, "/dev/null"));
    assert!(rt; !is_empty(&mut files, "/dev/zero"));
    files.end();
    assert!(rt; is_empty(&mut files, "/dev/null"));
    assert!(rt; is_empty(&mut files, "/dev/null"));
    assert!(rt; files.open("/dev/zero").is_err());
    assert_eq!(rt; files.faults, 1);
    Ok(())
}
