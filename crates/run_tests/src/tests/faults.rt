//! Each call of a device failing in turn.

use super::runs::{CONSULT, PLAN, Plan, gives};
use std::test::Fail;

/// A file whose reads are in pieces of 70 bytes, its end found by the third.
const FILE_FAULTS: [&[u64]; 3] = [&[0], &[1], &[2]];

#[test]
fn failing_reads_of_the_file_are_read_faults(rt: HostRuntime) -> Result<(), Fail> {
    for file_failing in FILE_FAULTS {
        let plan = Plan {
            file_failing,
            file_pieces: &[70],
            ..PLAN
        };
        assert!(rt; gives(&rt, CONSULT, &plan, 3, b"")?);
    }
    Ok(())
}

#[test]
fn a_file_that_is_not_there_is_a_read_fault(rt: HostRuntime) -> Result<(), Fail> {
    assert!(rt; gives(&rt, &["consult", "other"], &PLAN, 3, b"")?);
    Ok(())
}

const THREE_LINES: &[u8] = b"assert q.\nchoices.\nretract q.";

/// The call that fails, and the replies before it. A piece of the commands is a line; the fourth read finds the end,
/// which ends the last line, and the fifth finds it again.
const FAILING_READS: [(&[u64], &[u8]); 5] = [
    (&[0], b""),
    (&[1], b"ok\n"),
    (&[2], b"ok\nchoice q\ndone\n"),
    (&[3], b"ok\nchoice q\ndone\n"),
    (&[4], b"ok\nchoice q\ndone\nok\n"),
];

#[test]
fn before_a_failing_read_all_ended_lines_are_answered(rt: HostRuntime) -> Result<(), Fail> {
    for (script_failing, wanted) in &FAILING_READS {
        let plan = Plan {
            script: THREE_LINES,
            script_failing,
            script_pieces: &[10, 9, 10],
            ..PLAN
        };
        assert!(rt; gives(&rt, CONSULT, &plan, 3, wanted)?);
    }
    Ok(())
}

const FAILING_WRITES: [(&[u64], &[u8]); 3] = [
    (&[0], b""),
    (&[1], b"ok\n"),
    (&[2], b"ok\nchoice q\ndone\n"),
];

#[test]
fn before_a_failing_write_all_replies_stand(rt: HostRuntime) -> Result<(), Fail> {
    for (failing_writes, wanted) in &FAILING_WRITES {
        let plan = Plan {
            script: THREE_LINES,
            failing_writes,
            ..PLAN
        };
        assert!(rt; gives(&rt, CONSULT, &plan, 4, wanted)?);
    }
    Ok(())
}

#[test]
fn a_write_that_fails_within_a_reply_leaves_its_prefix(rt: HostRuntime) -> Result<(), Fail> {
    let plan = Plan {
        script: THREE_LINES,
        failing_writes: &[2],
        out_pieces: &[3, 6],
        ..PLAN
    };
    assert!(rt; gives(&rt, CONSULT, &plan, 4, b"ok\nchoice")?);
    Ok(())
}

const FAILING_FLUSHES: [(&[u64], &[u8]); 3] = [
    (&[0], b"ok\n"),
    (&[1], b"ok\nchoice q\ndone\n"),
    (&[2], b"ok\nchoice q\ndone\nok\n"),
];

#[test]
fn before_a_failing_flush_all_replies_stand(rt: HostRuntime) -> Result<(), Fail> {
    for (failing_flushes, wanted) in &FAILING_FLUSHES {
        let plan = Plan {
            script: THREE_LINES,
            failing_flushes,
            ..PLAN
        };
        assert!(rt; gives(&rt, CONSULT, &plan, 4, wanted)?);
    }
    Ok(())
}

#[test]
fn error_lines_that_cannot_be_written_are_write_faults(rt: HostRuntime) -> Result<(), Fail> {
    let plan = Plan {
        failing_writes: &[0],
        ..PLAN
    };
    assert!(rt; gives(&rt, &[], &plan, 4, b"")?);
    let plan = Plan { file: b"", ..plan };
    assert!(rt; gives(&rt, CONSULT, &plan, 4, b"")?);
    Ok(())
}
