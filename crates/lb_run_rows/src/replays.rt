//! Scripts that can't be read on, and complaints that can't be written.

use crate::broken::Broken;
use lb_cli::JobError;
use lb_replay::replay;
use lb_types_counted::Counted;
use std::io::{BufReader, ErrorKind, Read};
use std::test::Fail;

/// Two checked servers, and a table of ten pins.
const WEB: &str = "backend web\n  stick-table type string size 10\n  stick on hdr(x-id)\n  \
    server a 127.0.0.1:8001 check maxpins 5\n  server b 127.0.0.1:8002 check maxpins 5\n";

/// What goes out before a script breaks, and how that is reported.
const BREAKS: [(&str, &str, ErrorKind, JobError); 4] = [
    ("", "", ErrorKind::IsADirectory, JobError::CannotRead),
    (
        "serve 0 k1\n",
        "served a made\n",
        ErrorKind::BrokenPipe,
        JobError::CannotRead,
    ),
    // What was read of a line, or of a plan's text, is dropped.
    (
        "serve 0 k1\nstickyplan 1\nversion 0\nend",
        "served a made\n",
        ErrorKind::BrokenPipe,
        JobError::CannotRead,
    ),
    (
        "serve 0 k1\nserve 1 k1",
        "served a made\n",
        ErrorKind::OutOfMemory,
        JobError::OutOfMemory,
    ),
];

#[test]
fn a_script_that_breaks_is_answered_as_far_as_it_was_read(rt: HostRuntime) -> Result<(), Fail> {
    for (read, answers, kind, error) in &BREAKS {
        let broken = BufReader::new(rt.alloc(), Broken { kind: *kind })?;
        let script = read.as_bytes().chain(broken);
        let mut out = Counted::new(Vec::new(rt.alloc()));
        let mut err = Vec::new(rt.alloc());
        let told = replay(rt.alloc(), WEB.as_bytes(), script, &mut out, &mut err).err();
        assert_eq!(rt; told, Some(*error), "{read}");
        assert_eq!(rt; out.into_inner().as_slice(), answers.as_bytes(), "{read}");
        assert!(rt; err.is_empty(), "{read}");
    }
    Ok(())
}

/// A bad line, and a configuration without servers: each a complaint on a standard error that fails. The program's status
/// would be the same where the complaint went out.
#[test]
fn a_complaint_that_can_not_be_written_is_told(rt: HostRuntime) {
    let kind = ErrorKind::StorageFull;
    for (farm, script) in [(WEB, "x\n"), ("", "")] {
        let mut out = Counted::new(Vec::new(rt.alloc()));
        let told = replay(
            rt.alloc(),
            farm.as_bytes(),
            script.as_bytes(),
            &mut out,
            &mut Broken { kind },
        )
        .err();
        assert_eq!(rt; told, Some(JobError::CannotWrite), "{script}");
    }
}
