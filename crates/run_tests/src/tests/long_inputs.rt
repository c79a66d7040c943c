//! Files and scripts as long as may be, and one byte longer.

use super::bases::EITHER_P_OR_Q;
use super::runs::{CONSULT, PLAN, Plan, VERIFY, gives, gives_on};
use kb_io::MemSource;
use std::alloc::AllocError;
use std::test::Fail;

/// The file, and blanks up to this many bytes.
fn padded(rt: &HostRuntime, length: usize) -> Result<Vec<u8>, AllocError> {
    let mut bytes = EITHER_P_OR_Q.to_vec(rt.alloc())?;
    bytes.resize(length, b' ')?;
    Ok(bytes)
}

#[test]
fn longer_files_are_refused(rt: HostRuntime) -> Result<(), Fail> {
    let bytes = padded(&rt, 4_194_305)?;
    let plan = Plan {
        file: &bytes,
        ..PLAN
    };
    assert!(rt; gives(&rt, CONSULT, &plan, 1, b"error K15 TooLong line 4\n")?);
    Ok(())
}

#[test]
fn the_longest_file_is_read(rt: HostRuntime) -> Result<(), Fail> {
    let bytes = padded(&rt, 4_194_304)?;
    let plan = Plan {
        file: &bytes,
        script: b"",
        ..PLAN
    };
    assert!(rt; gives(&rt, CONSULT, &plan, 0, b"")?);
    Ok(())
}

/// Commands of this many bytes: `choices.`, and then one line of letters without an end.
fn long_script(rt: &HostRuntime, length: usize) -> Result<MemSource, AllocError> {
    let mut script = b"choices.\n".to_vec(rt.alloc())?;
    script.resize(length, b'a')?;
    Ok(MemSource::new(script, Vec::new(rt.alloc()), Vec::new(rt.alloc())))
}

const LONG_SCRIPTS: [(usize, u8, &[u8]); 2] = [
    (67_108_864, 0, b"done\nrefused F8 LineTooLong\n"),
    (67_108_865, 6, b"done\n"),
];

#[test]
fn longer_scripts_are_answered_up_to_the_limit(rt: HostRuntime) -> Result<(), Fail> {
    for (length, code, wanted) in &LONG_SCRIPTS {
        let commands = long_script(&rt, *length)?;
        assert!(rt; gives_on(&rt, CONSULT, &PLAN, commands, *code, wanted)?);
    }
    Ok(())
}

/// Logs of empty lines, which are no entries.
const LONG_LOGS: [(usize, u8, &[u8]); 2] = [
    (67_108_864, 7, b"error log entry 1\n"),
    (67_108_865, 6, b""),
];

#[test]
fn longer_logs_are_not_checked(rt: HostRuntime) -> Result<(), Fail> {
    for (length, code, wanted) in &LONG_LOGS {
        let log = vec![in rt.alloc(); b'\n'; *length]?;
        let plan = Plan { log: &log, ..PLAN };
        assert!(rt; gives(&rt, VERIFY, &plan, *code, wanted)?);
    }
    Ok(())
}
