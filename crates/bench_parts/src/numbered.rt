//! Names of pins, by number. Each has a key of 16 bytes that look random.

use lb_types::{ServerId, ServerSet};
use pin_set::{KeyText, PinId, PinKey};
use std::alloc::{AllocError, Global};
use std::hash::{BuildHasher, BuildHasherDefault, FoldHasher};

/// By this number the hasher of fixed seed multiplies.
const MULTIPLIER: u64 = 0x9E37_79B9_7F4A_7C15;

/// The name of the pin of this number, which wants no server.
pub fn name(alloc: Global, number: u32) -> Result<PinId, AllocError> {
    let lower = mixed(u64::from(number));
    let bytes = (u128::from(mixed(lower)) << 64 | u128::from(lower)).to_le_bytes();
    Ok(PinId {
        key: PinKey::Text(KeyText::copied_from(alloc, &bytes)?),
        want: ServerSet::empty(),
    })
}

/// The names of so many numbers, from the first one on, which all want these servers.
pub fn names(
    alloc: Global,
    first: u32,
    count: u32,
    want: ServerSet,
) -> Result<Vec<PinId>, AllocError> {
    let mut names = Vec::with_capacity(alloc, count as usize)?;
    for number in first..first.saturating_add(count) {
        let key = name(alloc, number)?.key;
        names.push(PinId { key, want })?;
    }
    Ok(names)
}

/// A set of servers with which all names have one hash under the hasher of fixed seed. The set is hashed last, as one number. That
/// hasher multiplies by the difference of the number's upper half from its multiplier, and here there is no difference.
pub fn set_of_one_hash() -> ServerSet {
    let mut set = ServerSet::empty();
    for bit in 0..64u8 {
        if (MULTIPLIER >> bit) & 1 == 1 {
            set = set.with(ServerId::new(64 + bit));
        }
    }
    set
}

/// How many hashes the names of so many numbers have under the hasher of fixed seed, where all want these servers.
pub fn hashes(alloc: Global, count: u32, want: ServerSet) -> Result<usize, AllocError> {
    let hasher = BuildHasherDefault::<FoldHasher>::new();
    let mut hashes = Vec::with_capacity(alloc, count as usize)?;
    for name in names(alloc, 0, count, want)? {
        hashes.push(hasher.hash_one(name))?;
    }
    hashes.sort_unstable();
    hashes.dedup();
    Ok(hashes.len())
}

/// The names of so many pins that want no server, drawn from all that there are. The draws have numbers, from the first one on.
pub fn drawn_names(
    alloc: Global,
    first: u32,
    count: u32,
    pins: u32,
) -> Result<Vec<PinId>, AllocError> {
    let mut names = Vec::with_capacity(alloc, count as usize)?;
    for draw in first..first.saturating_add(count) {
        names.push(name(alloc, drawn(draw, pins))?)?;
    }
    Ok(names)
}

/// A number below that of the pins that looks random, the same for the same draw. It is 0 where there are no pins.
pub fn drawn(draw: u32, pins: u32) -> u32 {
    let random = (mixed(u64::from(draw)) >> 32) as u32;
    random.checked_rem(pins).unwrap_or(0)
}

/// A number that looks random, another one for each number. The steps are those of SplitMix64.
fn mixed(number: u64) -> u64 {
    let sum = number.wrapping_add(0x9E37_79B9_7F4A_7C15);
    let once = (sum ^ (sum >> 30)).wrapping_mul(0xBF58_476D_1CE4_E5B9);
    let twice = (once ^ (once >> 27)).wrapping_mul(0x94D0_49BB_1331_11EB);
    twice ^ (twice >> 31)
}
