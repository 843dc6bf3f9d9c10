//! A plan for a sheet.

use crate::marks::{begin, end, tell};
use cert_check::check;
use dual_cert::{Sheet, read_sheet};
use flow_planner::plan;
use pin_set::Score;
use std::alloc::Global;
use std::process::Abort;
use std::test::Fail;

/// One pin has to make way for another, which may go to its server alone.
const SHEET: &[u8] = b"stickysheet 1
version 1
server a off
server b cap 1
server c cap 1
group 1 a b
group 1 b b,c
end
";

const BOTH_MOVED: Score = Score {
    pins: 2,
    unplaced: 0,
    moved: 2,
    cost: 2,
};

#[test]
fn a_plan_for_a_sheet(rt: HostRuntime) -> Result<(), Fail> {
    let alloc = rt.alloc();
    let sheet = read_sheet(alloc, SHEET)?;
    plans(&rt, alloc, &sheet)
}

fn plans(rt: &impl Abort, alloc: Global, sheet: &Sheet) -> Result<(), Fail> {
    begin(alloc)?;
    let told = plan(alloc, sheet);
    end(alloc)?;
    let planned = match told {
        Ok(planned) => planned,
        Err(_) => {
            tell(alloc)?;
            plan(alloc, sheet)?
        }
    };
    assert_eq!(rt; check(sheet, planned.plan()), Ok(BOTH_MOVED));
    Ok(())
}
