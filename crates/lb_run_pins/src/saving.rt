//! Writing the pins to their file, while the balancer runs and at its end.
ghost use Rattle.std.specs.Prelude.{◌≡◌, map, IfOk};
ghost use Rattle.lb_desk_backend.specs.Configured.{OpenInOrder};
ghost use Rattle.lb_run_pins.specs.Copies.{AreCopies, seat_seen};

use crate::moments::now_on;
use crate::tables::{Table, mark_of, pins_text};
use crate::{Pace, PinsPlace, TextFiles, Unwritten};
use crossbeam_channel::{Receiver, RecvTimeoutError, Sender, bounded};
use lb_desk_steer::Steer;
use lb_run_floor::{Desks, Floor, Host, Seating, SharedGate, leave_all, seats};
use std::alloc::{AllocError, Global};
use std::thread::Scope;
use std::time::Duration;

/// Starts the thread that writes the pins every so often, unless that is never. It ends once what is returned is let go. A text that it has
/// begun by then is made and written first, without further rests.
pub fn start_saving<'s, E, R: Host + TextFiles, D: Seating<R> + Send + Sync, G: SharedGate<R>>(
    rt: &'s R,
    scope: &'s Scope<'s, E>,
    floor: &'s Floor<'s, D, G>,
    place: PinsPlace<'s>,
) -> Result<Sender<()>, AllocError> {
    let (end, ends) = bounded(floor.alloc, 1)?;
    if place.every > 0 {
        scope.spawn(move || save_often(rt, floor, place, ends))?;
    }
    Ok(end)
}

/// Writes the pins to their file, without a rest. A line on standard error says that they can't be written.
pub fn save<R: Host + TextFiles, D: Seating<R>, G: Drop>(
    rt: &R,
    floor: &Floor<'_, D, G>,
    place: PinsPlace<'_>,
) {
    let Ok(mut seats) = seats(rt, floor) else {
        say_unwritten(rt, floor, place);
        return;
    };
    save_changed(rt, floor, place, &mut seats, None, Pace::AtOnce);
    leave_all(rt, floor, seats);
}

/// Writes the pins every so often, where they changed, until the balancer ends. It rests on its way until the balancer is to end, since
/// requests are served meanwhile.
fn save_often<R: Host + TextFiles, D: Seating<R>, G: Drop>(
    rt: &R,
    floor: &Floor<'_, D, G>,
    place: PinsPlace<'_>,
    ends: Receiver<()>,
) {
    let Ok(mut seats) = seats(rt, floor) else {
        floor.starve();
        return;
    };
    let every = Duration::from_millis(u64::from(place.every));
    let mut written = None;
    for _ in rt.forever() {
        match ends.recv_timeout(rt, every) {
            Err(RecvTimeoutError::Timeout) => {}
            Ok(()) | Err(RecvTimeoutError::Disconnected) => break,
        }
        written = save_changed(
            rt,
            floor,
            place,
            &mut seats,
            written,
            Pace::InPieces(&floor.stop),
        );
    }
    leave_all(rt, floor, seats);
}

/// Writes the pins, unless they are those that were written last. Returns the mark of those that the file has by now.
fn save_changed<R: Host + TextFiles, D: Seating<R>, G: Drop>(
    rt: &R,
    floor: &Floor<'_, D, G>,
    place: PinsPlace<'_>,
    seats: &mut [D::Seat],
    written: Option<u64>,
    pace: Pace<'_>,
) -> Option<u64>
    requires { OpenInOrder floor.now.config.now.backends (map D.Seat.Mover.backend seats.old) }
    ensures { map D.Seat.Mover.backend seats.new ≡ map D.Seat.Mover.backend seats.old }
{
    match try_save(rt, floor, place, seats, written, pace) {
        Ok(mark) => Some(mark),
        Err(_) => {
            say_unwritten(rt, floor, place);
            written
        }
    }
}

/// The same. The error is that there is no memory, or that the file can't be written.
fn try_save<R: Host + TextFiles, D: Seating<R>, G: Drop>(
    rt: &R,
    floor: &Floor<'_, D, G>,
    place: PinsPlace<'_>,
    seats: &mut [D::Seat],
    written: Option<u64>,
    pace: Pace<'_>,
) -> Result<u64, Unwritten>
    requires { OpenInOrder floor.now.config.now.backends (map D.Seat.Mover.backend seats.old) }
    ensures { map D.Seat.Mover.backend seats.new ≡ map D.Seat.Mover.backend seats.old }
{
    let tables = copies(rt, floor, seats)?;
    let mark = mark_of(&tables);
    if written == Some(mark) {
        return Ok(mark);
    }
    let text = pins_text(rt, floor.alloc, &tables, now_on(rt, floor), pace)?;
    drop(tables);
    rt.write_text(floor.alloc, place.path, &text)?;
    Ok(mark)
}

/// Copies of the tables of all backends, in their order. Each desk is held for as long as an operator's `show table` holds it.
fn copies<'a, R: Host, D: Seating<R>, G: Drop>(
    rt: &R,
    floor: &Floor<'a, D, G>,
    seats: &mut [D::Seat],
) -> Result<Vec<Table<'a>>, AllocError>
    requires { OpenInOrder floor.now.config.now.backends (map D.Seat.Mover.backend seats.old) }
    ensures copies { IfOk result (λ tables. AreCopies floor.now.config.now.backends
        (map (seat_seen D.Seat.Mover.backend D.Seat.Mover.entries D.Seat.Steer.sights) seats.old)
        (map (seat_seen D.Seat.Mover.backend D.Seat.Mover.entries D.Seat.Steer.sights) seats.new) tables.items) }
    ensures seats { map D.Seat.Mover.backend seats.new ≡ map D.Seat.Mover.backend seats.old }
{
    let backends = floor.config.backends();
    let mut tables = Vec::with_capacity(floor.alloc, backends.len())?;
    let mut place = 0;
    while place < backends.len() {
        let pins = seats[place].rows(rt, floor.alloc)?;
        tables.push(Table::new(&backends[place], pins))?;
        place += 1;
    }
    Ok(tables)
}

/// Says on standard error that the file can't be written.
fn say_unwritten<R: Host, D: Desks, G: Drop>(
    rt: &R,
    floor: &Floor<'_, D, G>,
    place: PinsPlace<'_>,
) {
    if let Ok(line) = unwritten_line(floor.alloc, place.path.as_bytes()) {
        floor.reports.say(rt, &line);
    }
}

fn unwritten_line(alloc: Global, path: &[u8]) -> Result<Vec<u8>, AllocError> {
    let mut line = Vec::new(alloc);
    line.extend_from_slice(b"cannot write ")?;
    line.extend_from_slice(path)?;
    line.extend_from_slice(b"\n")?;
    Ok(line)
}
