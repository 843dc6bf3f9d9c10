//! Pins that come back to their desks.
ghost use Rattle.std.specs.Prelude.{◌≡◌, Some, IfOk, slice_get};
ghost use Rattle.lb_desk_backend.specs.Configured.{OpensAt};
ghost use Rattle.lb_run_pins.specs.Lines.{kept_line};
ghost use Rattle.lb_run_pins.specs.Returning.{AreReturned};

use crate::moments::now_on;
use crate::{Kept, PinsPlace};
use lb_config::BackendConfig;
use lb_desk_ports::{Port, Refused};
use lb_run_floor::{Desks, Floor, Host, Seating, backend_at, seat_at};
use lb_types::Moment;
use pin_file::{BackendPins, PinFile};
use pin_file_return::{Returned, greatest_age, return_pins, returned};
use std::alloc::{AllocError, Global};
use std::hash::RandomState;

/// How long before the file was made its oldest pin was used, in milliseconds; 0 without pins.
pub fn greatest_age_of(kept: &Option<Kept<'_>>) -> u64 {
    match kept {
        Some(kept) => greatest_age(&kept.file),
        None => 0,
    }
}

/// Sets the pins that were kept, if any were to be, as `return_all` does, and returns where they are kept on.
pub fn return_kept<'a, R: Host, D: Seating<R>, G: Drop>(
    rt: &R,
    floor: &Floor<'_, D, G>,
    hasher: RandomState,
    kept: Option<Kept<'a>>,
) -> Result<Option<PinsPlace<'a>>, Refused> {
    let Some(Kept { place, file }) = kept else {
        return Ok(None);
    };
    return_all(rt, floor, hasher, &file)?;
    Ok(Some(place))
}

/// What comes back to all desks: a file, found by this hasher, at this moment.
#[derive(Drop)]
struct Return<'a> {
    alloc: Global,
    hasher: RandomState,
    file: &'a PinFile,
    moment: Moment,
}

/// Sets the pins that come back of the file, at the desk of each backend in order of last use. A line on standard error says of each
/// backend with a table, and of each that the file has alone, how many were kept and left out.
///
/// Refused as a desk refuses a pin, or a seat, and when out of memory. Then some pins are set and others not.
fn return_all<R: Host, D: Seating<R>, G: Drop>(
    rt: &R,
    floor: &Floor<'_, D, G>,
    hasher: RandomState,
    file: &PinFile,
) -> Result<(), Refused> {
    let back = Return {
        alloc: floor.alloc,
        hasher,
        file,
        moment: now_on(rt, floor),
    };
    return_each(rt, floor, &back)?;
    say_gone(rt, floor, file)?;
    Ok(())
}

/// Sets the pins of each backend, and says so.
fn return_each<R: Host, D: Seating<R>, G: Drop>(
    rt: &R,
    floor: &Floor<'_, D, G>,
    back: &Return<'_>,
) -> Result<(), Refused> {
    for place in 0..floor.config.backends().len() {
        let line = return_at(rt, floor, back, place)?;
        floor.reports.say(rt, &line);
    }
    Ok(())
}

/// Sets the pins of the backend at this place, and makes the line that says so.
fn return_at<R: Host, D: Seating<R>, G: Drop>(
    rt: &R,
    floor: &Floor<'_, D, G>,
    back: &Return<'_>,
    place: usize,
) -> Result<Vec<u8>, Refused> {
    let Some(backend) = backend_at(floor, place) else {
        return Err(Refused::Memory);
    };
    let mut seat = seat_at(rt, floor, place)?;
    let done = return_seated(rt, floor, back, place, backend, &mut seat);
    floor.desks.leave(rt, seat);
    done
}

/// Sets the pins of this backend, whose desk the seat is at.
fn return_seated<R: Host, D: Seating<R>, G: Drop>(
    rt: &R,
    floor: &Floor<'_, D, G>,
    back: &Return<'_>,
    place: usize,
    backend: &BackendConfig,
    seat: &mut D::Seat,
) -> Result<Vec<u8>, Refused>
    requires backend { slice_get floor.now.config.now.backends place ≡ Some backend.now }
    requires seat { OpensAt floor.now.config.now.backends place (D.Seat.Mover.backend seat.old) }
    ensures { IfOk result (λ line. AreReturned backend.now back.now.file.now back.now.moment
        (D.Seat.Port.entries seat.old) (D.Seat.Port.entries seat.new)) }
{
    return_to(rt, back, backend, seat)
}

/// Sets the pins of this backend through a port, and makes the line that says so. It is empty where there is no table and nothing to say.
fn return_to<R, P: Port<R>>(
    rt: &R,
    back: &Return<'_>,
    backend: &BackendConfig,
    port: &mut P,
) -> Result<Vec<u8>, Refused>
    ensures { IfOk result (λ line. AreReturned backend.now back.now.file.now back.now.moment (P.entries port.old) (P.entries port.new)) }
{
    let Returned { pins, left_out } = returned(
        back.alloc,
        back.hasher,
        backend,
        back.file,
        back.moment,
    )?;
    let due = pins.len();
    let kept = return_pins(rt, port, pins)?;
    if backend.rules().table().is_none() && left_out == 0 {
        return Ok(Vec::new(back.alloc));
    }
    let left_out = left_out.saturating_add(due.saturating_sub(kept));
    Ok(kept_line(back.alloc, backend.name().as_bytes(), kept, left_out)?)
}

/// Says of each backend that the file has alone that its pins are left out.
fn say_gone<R: Host, D: Desks, G: Drop>(
    rt: &R,
    floor: &Floor<'_, D, G>,
    file: &PinFile,
) -> Result<(), AllocError> {
    for backend in file.backends() {
        if !is_configured(floor.config.backends(), backend) {
            let left_out = backend.pins.as_slice().len();
            let line = kept_line(floor.alloc, backend.name.as_bytes(), 0, left_out)?;
            floor.reports.say(rt, &line);
        }
    }
    Ok(())
}

/// Whether the configuration has a backend of this name.
fn is_configured(backends: &[BackendConfig], pins: &BackendPins) -> bool {
    backends.iter().any(|backend| backend.has_name(&pins.name))
}

/// The line that says how many pins of the backend were kept, and how many were left out.
fn kept_line(
    alloc: Global,
    backend: &[u8],
    kept: usize,
    left_out: usize,
) -> Result<Vec<u8>, AllocError>
    ensures { IfOk result (λ line. line.items ≡ kept_line backend.now kept left_out) }
{
    let mut line = Vec::new(alloc);
    line.extend_from_slice(b"pins ")?;
    line.extend_from_slice(backend)?;
    line.extend_from_slice(b" kept ")?;
    line.extend_from_slice(kept.to_string(alloc)?.as_bytes())?;
    line.extend_from_slice(b" left out ")?;
    line.extend_from_slice(left_out.to_string(alloc)?.as_bytes())?;
    line.extend_from_slice(b"\n")?;
    Ok(line)
}
