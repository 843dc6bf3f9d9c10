//! Rounds, one after another, until one ends otherwise than it is owed.

use crate::draw_round::draw_round;
use crate::kinds::Kinds;
use crate::model::owed;
use crate::owed::{Owed, Way};
use crate::planting::Plant;
use crate::round::Round;
use crate::serving::{Difference, Served, script_of, serve};
use http_relay_head::HEAD_ROOM;
use std::alloc::{AllocError, Global};
use std::fmt;

/// What was tried.
#[derive(Drop)]
pub(crate) struct Tried {
    pub(crate) rounds: u64,
    pub(crate) kinds: Kinds,
    /// The first round that ended otherwise, and how.
    pub(crate) found: Option<String>,
}

/// Tries the rounds of these numbers. It ends at the first that ends otherwise than it is owed.
pub(crate) fn try_rounds<R>(
    rt: &R,
    alloc: Global,
    first: u64,
    count: u64,
) -> Result<Tried, AllocError> {
    let mut kinds = Kinds::none();
    let mut rounds: u64 = 0;
    let mut room = [0; HEAD_ROOM];
    for number in first..first.saturating_add(count) {
        let found = try_round(rt, alloc, number, &mut kinds, &mut room)?;
        rounds = rounds.saturating_add(1);
        if found.is_some() {
            return Ok(Tried {
                rounds,
                kinds,
                found,
            });
        }
    }
    Ok(Tried {
        rounds,
        kinds,
        found: None,
    })
}

/// Tries the round of this number. Gives all that is known of it, if it ends otherwise than it is owed.
fn try_round<R>(
    rt: &R,
    alloc: Global,
    number: u64,
    kinds: &mut Kinds,
    room: &mut [u8; HEAD_ROOM],
) -> Result<Option<String>, AllocError> {
    let round = draw_round(alloc, number)?;
    let owed = owed(alloc, &round)?;
    let script = script_of(&round);
    let served = serve(rt, alloc, &round, &script, room)?;
    kinds.add(&round, &owed, &served);
    let Some(difference) = served.difference(&owed) else {
        return Ok(None);
    };
    let mut text = String::new(alloc);
    tell(alloc, &mut text, number, difference, &round, &owed, &served)?;
    Ok(Some(text))
}

/// In how many of the first rounds, so many, it is seen that they are served otherwise than the model assumes.
pub(crate) fn seen<R>(rt: &R, alloc: Global, plant: Plant, count: u64) -> Result<u64, AllocError> {
    let mut seen: u64 = 0;
    let mut room = [0; HEAD_ROOM];
    for number in 0..count {
        if is_seen(rt, alloc, plant, number, &mut room)? {
            seen = seen.saturating_add(1);
        }
    }
    Ok(seen)
}

/// Whether it is seen in the round of this number.
fn is_seen<R>(
    rt: &R,
    alloc: Global,
    plant: Plant,
    number: u64,
    room: &mut [u8; HEAD_ROOM],
) -> Result<bool, AllocError> {
    let mut round = draw_round(alloc, number)?;
    let owed = owed(alloc, &round)?;
    plant.change(&mut round);
    let script = script_of(&round);
    let served = serve(rt, alloc, &round, &script, room)?;
    Ok(served.difference(&owed).is_some())
}

/// Writes a round that ended otherwise, with all that is known of it.
fn tell(
    alloc: Global,
    text: &mut String,
    number: u64,
    difference: Difference,
    round: &Round,
    owed: &Owed,
    served: &Served<'_>,
) -> Result<(), AllocError> {
    add(alloc, text, "round ", &number)?;
    add(alloc, text, ": ", &difference)?;
    tell_round(alloc, text, round)?;
    add(alloc, text, "\nit ended ", &served.outcome)?;
    add_bytes(alloc, text, "\nthe client got: ", served.client.written())?;
    add_bytes(alloc, text, "\nthe server got: ", served.server_got())?;
    for way in &owed.ways {
        tell_way(alloc, text, way)?;
    }
    add_bytes(alloc, text, "\nof these: ", &owed.request)?;
    add(alloc, text, "\nevents: ", &owed.entries)?;
    add(alloc, text, "\nmoments: ", &owed.told)?;
    add(alloc, text, ", ", &owed.pauses)?;
    text.push_str(" pauses\n")
}

/// Writes what a round meets.
fn tell_round(alloc: Global, text: &mut String, round: &Round) -> Result<(), AllocError> {
    add(alloc, text, "\nthe client: ", &round.client)?;
    add_bytes(alloc, text, "\nits bytes: ", &round.input)?;
    add(alloc, text, "\nthe server: ", &round.dial)?;
    add(alloc, text, "\nthe desk: ", &round.desk)
}

/// Writes a way in which a round may end.
fn tell_way(alloc: Global, text: &mut String, way: &Way) -> Result<(), AllocError> {
    let (least, most) = way.sent;
    add(alloc, text, "\nowed is ", &way.outcome)?;
    add_bytes(alloc, text, "\nfor the client: ", &way.got)?;
    add(alloc, text, "\nfor the server ", &least)?;
    add(alloc, text, " to ", &most)?;
    text.push_str(" bytes")
}

/// Adds what a value is, and the value.
fn add<T: fmt::Debug>(
    alloc: Global,
    text: &mut String,
    name: &str,
    value: &T,
) -> Result<(), AllocError> {
    text.push_str(name)?;
    text.push_str(&format!(in alloc; "{value:?}")?)
}

/// Adds what these bytes are, and the bytes as a reader can see them.
fn add_bytes(alloc: Global, text: &mut String, name: &str, bytes: &[u8]) -> Result<(), AllocError> {
    match std::str::from_utf8(bytes) {
        Ok(told) => add(alloc, text, name, &told),
        Err(_) => add(alloc, text, name, &bytes),
    }
}
