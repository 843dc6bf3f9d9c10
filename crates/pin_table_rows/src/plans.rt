use crate::checked::checked_moves;
use dual_cert_plan::Plan;
use lb_types::ServerSet;
use pin_table::Table;
use std::alloc::{AllocError, Global};
use std::hash::BuildHasher;

/// Sends each pin where the plan says, where these servers are usable: whether the plan is one for the table's pins. Where it isn't,
/// no pin is sent anywhere.
pub fn placed<S: BuildHasher>(
    alloc: Global,
    table: &mut Table<S>,
    usable: ServerSet,
    plan: &Plan,
) -> Result<bool, AllocError> {
    let counts = table.pin_counts(alloc)?;
    let Some(moves) = checked_moves(alloc, &counts, usable, plan)? else {
        return Ok(false);
    };
    table.set_places(alloc, moves)?;
    Ok(true)
}
