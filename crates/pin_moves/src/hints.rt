//! Where the moves of a kind of pins were last found.
ghost use Rattle.std.specs.Prelude.{◌<◌};

use lb_types_pins::PinKind;
use std::hash::{BuildHasher, BuildHasherDefault, FoldHasher, Hash, Hasher};

/// How many kinds have a hint of their own, if their hashes differ.
const SLOTS: usize = 8192;

/// The place of a move for each hash of a kind of pins. Kinds may share one, so a caller has to look whether it is right.
#[derive(Debug, Drop)]
pub(crate) struct Hints {
    at: [u16; SLOTS],
}

impl Hints {
    pub(crate) fn none() -> Self {
        Hints { at: [0; SLOTS] }
    }

    /// Where the moves may be of the pins that have this slot.
    pub(crate) fn get(&self, slot: usize) -> usize
        requires { slot < SLOTS }
    {
        usize::from(self.at[slot])
    }

    /// The moves of pins that have this slot are there now. Of a place past 65535 the last 16 bits are kept.
    pub(crate) fn set(&mut self, slot: usize, at: usize)
        requires { slot < SLOTS }
    {
        self.at[slot] = (at % 65_536) as u16;
    }
}

/// The slot of these pins.
pub(crate) fn slot_of(pins: &PinKind) -> usize
    ensures { result < SLOTS }
{
    let mut state = BuildHasherDefault::<FoldHasher>::new().build_hasher();
    pins.hash(&mut state);
    (state.finish() % SLOTS as u64) as usize
}
