//! Jobs whose file breaks while it is read.

use crate::broken::Broken;
use lb_cli::{
    Asides, JobError, check, check_all, plan, plan_tables, sheet_for, verify, verify_for,
};
use lb_types_counted::Counted;
use std::io::ErrorKind;
use std::test::Fail;

/// How a read fails, and how that is reported.
const BREAKS: [(ErrorKind, JobError); 2] = [
    (ErrorKind::IsADirectory, JobError::CannotRead),
    (ErrorKind::OutOfMemory, JobError::OutOfMemory),
];

#[test]
fn a_file_that_breaks_can_not_be_read(rt: HostRuntime) -> Result<(), Fail> {
    let mut text = b"stickysheet 1\nversion 0\nend\n".as_slice();
    let mut none = Counted::new(Vec::new(rt.alloc()));
    let sheet = sheet_for(rt.alloc(), &mut text, &mut none)?.ok_or("a sheet")?;
    for (kind, error) in BREAKS {
        let mut out = Counted::new(Vec::new(rt.alloc()));
        let told = [
            verify(rt.alloc(), &mut Broken { kind }, &mut out).err(),
            plan(rt.alloc(), &mut Broken { kind }, &mut out).err(),
            check(rt.alloc(), &mut Broken { kind }, &mut out).err(),
            check_all(rt.alloc(), &mut Broken { kind }, Asides::Warnings, &mut out).err(),
            plan_tables(rt.alloc(), &mut Broken { kind }, &mut out).err(),
            sheet_for(rt.alloc(), &mut Broken { kind }, &mut out).err(),
            verify_for(rt.alloc(), &sheet, &mut Broken { kind }, &mut out).err(),
        ];
        assert_eq!(rt; told, [Some(error); 7]);
        assert!(rt; out.into_inner().is_empty());
    }
    Ok(())
}
