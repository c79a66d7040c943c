//! Where logs go.

use super::log_of;
use std::io::Write;
use std::test::Fail;

/// Words, and how many bytes of four their log takes; none where it fails.
const LOGS: [(&[&str], Option<usize>); 5] = [
    (&["consult", "kb"], Some(4)),
    (&["verify", "kb", "log"], Some(4)),
    (&["consult", "kb", "--log", "no such folder/log"], None),
    (&["consult", "/", "--log", "/."], None),
    (&["consult", "kb", "--log", "/dev/null"], Some(4)),
];

#[test]
fn a_log_is_written_where_it_can_be_made(rt: HostRuntime) -> Result<(), Fail> {
    for (texts, taken) in &LOGS {
        let mut words = Vec::new(rt.alloc());
        for text in *texts {
            words.push(String::from_str(rt.alloc(), text)?)?;
        }
        let mut log = log_of(&rt, &words)?;
        assert_eq!(rt; log.write(b"q 1\n").ok(), *taken);
        assert_eq!(rt; log.flush().is_ok(), taken.is_some());
    }
    Ok(())
}
