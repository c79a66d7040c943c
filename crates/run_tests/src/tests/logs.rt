//! What a consultation leaves in a log, whose calls fail in turn.

use super::bases::{A_SUM, BOTH_GIVEN, COVER, EITHER_P_OR_Q, FIVE_PIGEONS, MAP, NOTHING_TO_WEIGH};
use super::runs::{CHECK, CONSULT, LOGGED, PLAN, Plan, VERIFY, gives, leaves, outcome_on, source};
use std::test::Fail;

const THREE_LINES: &[u8] = b"assert q.\nchoices.\nretract q.";

const THREE_REPLIES: &[u8] = b"ok\nchoice q\ndone\nok\n";

const THREE_MARKS: &[u8] = b"q 1\nq 2\nq 3\n";

#[test]
fn each_line_is_stated(rt: HostRuntime) -> Result<(), Fail> {
    let plan = Plan {
        script: THREE_LINES,
        ..PLAN
    };
    assert!(rt; leaves(&rt, LOGGED, &plan, 0, (THREE_REPLIES, THREE_MARKS))?);
    Ok(())
}

/// The write that fails, and what the output and the log hold then.
const FAILING_WRITES: [(&[u64], &[u8], &[u8]); 3] = [
    (&[0], b"", b""),
    (&[1], b"ok\n", b"q 1\n"),
    (&[2], b"ok\nchoice q\ndone\n", b"q 1\nq 2\n"),
];

#[test]
fn a_line_is_not_answered_where_it_cannot_be_stated(rt: HostRuntime) -> Result<(), Fail> {
    for (log_failing_writes, text, log) in &FAILING_WRITES {
        let plan = Plan {
            script: THREE_LINES,
            log_failing_writes,
            ..PLAN
        };
        assert!(rt; leaves(&rt, LOGGED, &plan, 4, (text, log))?);
    }
    Ok(())
}

#[test]
fn a_write_that_fails_within_a_statement_leaves_its_prefix(rt: HostRuntime) -> Result<(), Fail> {
    let plan = Plan {
        script: THREE_LINES,
        log_failing_writes: &[2],
        log_pieces: &[4, 2],
        ..PLAN
    };
    assert!(rt; leaves(&rt, LOGGED, &plan, 4, (b"ok\n", b"q 1\nq "))?);
    Ok(())
}

/// The flush that fails, and what the output and the log hold then.
const FAILING_FLUSHES: [(&[u64], &[u8], &[u8]); 3] = [
    (&[0], b"", b"q 1\n"),
    (&[1], b"ok\n", b"q 1\nq 2\n"),
    (&[2], b"ok\nchoice q\ndone\n", THREE_MARKS),
];

#[test]
fn a_statement_is_flushed_before_the_reply(rt: HostRuntime) -> Result<(), Fail> {
    for (log_failing_flushes, text, log) in &FAILING_FLUSHES {
        let plan = Plan {
            script: THREE_LINES,
            log_failing_flushes,
            ..PLAN
        };
        assert!(rt; leaves(&rt, LOGGED, &plan, 4, (text, log))?);
    }
    Ok(())
}

#[test]
fn a_reply_that_is_not_written_is_stated(rt: HostRuntime) -> Result<(), Fail> {
    let plan = Plan {
        script: THREE_LINES,
        failing_writes: &[1],
        ..PLAN
    };
    assert!(rt; leaves(&rt, LOGGED, &plan, 4, (b"ok\n", b"q 1\nq 2\n"))?);
    Ok(())
}

/// Words by which nothing is written to the log, with their replies.
const UNLOGGED: [(&[&str], &[u8]); 3] = [
    (CONSULT, b"model\np = false\nq = true\ndone\n"),
    (CHECK, b"structure S : V {\n}\n"),
    (VERIFY, b"accepted\n"),
];

#[test]
fn a_log_that_is_not_asked_for_is_not_written(rt: HostRuntime) -> Result<(), Fail> {
    for (words, text) in &UNLOGGED {
        let plan = Plan {
            log_failing_writes: &[0],
            log_failing_flushes: &[0],
            ..PLAN
        };
        assert!(rt; leaves(&rt, words, &plan, 0, (text, b""))?);
    }
    Ok(())
}

/// Calls of the log to be checked, each of which fails.
const LOG_FAULTS: [&[u64]; 2] = [&[0], &[1]];

#[test]
fn failing_reads_of_the_log_are_read_faults(rt: HostRuntime) -> Result<(), Fail> {
    for log_failing in LOG_FAULTS {
        let plan = Plan {
            log: b"q 1\n",
            log_failing,
            ..PLAN
        };
        assert!(rt; leaves(&rt, VERIFY, &plan, 3, (b"", b""))?);
    }
    assert!(rt; leaves(&rt, &["verify", "kb", "other"], &PLAN, 3, (b"", b""))?);
    Ok(())
}

#[test]
fn verdicts_that_cannot_be_written_are_write_faults(rt: HostRuntime) -> Result<(), Fail> {
    let plan = Plan {
        failing_writes: &[0],
        ..PLAN
    };
    assert!(rt; leaves(&rt, VERIFY, &plan, 4, (b"", b""))?);
    let plan = Plan {
        log: b"l 0 0\n",
        failing_writes: &[1],
        out_pieces: &[5],
        ..PLAN
    };
    assert!(rt; leaves(&rt, VERIFY, &plan, 4, (b"error", b""))?);
    Ok(())
}

/// A file, commands about it, and what is said of their log.
const VERDICTS: [(&[u8], &[u8], &[u8]); 10] = [
    (MAP, b"", b"accepted\n"),
    // What follows from a choice.
    (
        MAP,
        b"assert color(b)=Red.\npropagate.\n",
        b"claim 2 forced color(f) = Green from color(b) = Red\naccepted\n",
    ),
    // What follows from the theory alone; blank and refused lines are counted.
    (
        EITHER_P_OR_Q,
        b"// p or q\n\nmodle.\npropagate.\nmodel.\n",
        b"claim 4 forced ~p\nclaim 4 forced q\naccepted\n",
    ),
    // That there is no model, found by a search.
    (
        FIVE_PIGEONS,
        b"budget unlimited.\nmodel.\n",
        b"claim 2 inconsistent\naccepted\n",
    ),
    // Each query that finds no model says so; reasons claim nothing.
    (
        BOTH_GIVEN,
        b"model.\nmodels 3.\npropagate.\nexplain Q(a).\nwhy.\n",
        b"claim 1 inconsistent\nclaim 2 inconsistent\nclaim 3 inconsistent\nclaim 4 inconsistent\naccepted\n",
    ),
    // Choices at odds with each other, and with the data.
    (
        COVER,
        b"assert Q(b).\nassert ~Q(b).\nmodel.\nreset.\nassert Q(a).\nmodel.\nwhy.\n",
        b"claim 3 inconsistent from Q(b), ~Q(b)\nclaim 6 inconsistent from Q(a)\naccepted\n",
    ),
    // After what was learnt is given up, and after models were sought.
    (
        MAP,
        b"models 5.\nassert color(b)=Red.\npropagate.\nforget.\npropagate.\nmodels 5.\n",
        b"claim 3 forced color(f) = Green from color(b) = Red
claim 5 forced color(f) = Green from color(b) = Red
accepted
",
    ),
    // A least value, without choices and with one.
    (
        A_SUM,
        b"minimize cost.\nassert P(b).\nminimize cost.\nassert ~P(a).\nassert ~P(b).\nminimize cost.\n",
        b"claim 1 least cost 2
claim 3 least cost 3 from P(b)
claim 6 inconsistent from P(b), ~P(a), ~P(b)
accepted
",
    ),
    // Infinite ones: that nothing is below -inf is no claim.
    (
        NOTHING_TO_WEIGH,
        b"minimize least.\nminimize most.\n",
        b"claim 1 least least +inf\naccepted\n",
    ),
    // Reasons and supports leave entries, and no claims.
    (
        FIVE_PIGEONS,
        b"budget unlimited.\nexplain in(p1) = h1.\nwhy.\n",
        b"claim 2 inconsistent\naccepted\n",
    ),
];

#[test]
fn logs_of_consultations_are_accepted(rt: HostRuntime) -> Result<(), Fail> {
    for (file, script, verdict) in &VERDICTS {
        let plan = Plan {
            file,
            script,
            ..PLAN
        };
        let commands = source(&rt, script, &[], &[])?;
        let consulted = outcome_on(&rt, LOGGED, &plan, commands)?;
        assert_eq!(rt; consulted.status.code(), 0);
        let check = Plan {
            log: &consulted.log,
            ..plan
        };
        assert!(rt; gives(&rt, VERIFY, &check, 0, verdict)?);
    }
    Ok(())
}
