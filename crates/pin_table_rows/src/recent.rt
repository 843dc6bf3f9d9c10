use pin_recent::{CopyRoom, NoRest, Recent};
use std::alloc::{AllocError, Global};
use std::hash::{BuildHasher, BuildHasherDefault, FoldHasher, RandomState};
use std::test::Fail;

/// The same calls on a map and on a plain list of its pairs in order of last use.
#[derive(Drop)]
struct Both<S: BuildHasher + Drop> {
    table: Recent<u32, u64, S>,
    plain: Vec<(u32, u64)>,
}

impl<S: BuildHasher + Drop> Both<S> {
    /// The value that the list had for the key, taken out of it.
    fn taken(&mut self, key: u32) -> Option<u64> {
        let place = self.plain.iter().position(|pair| pair.0 == key)?;
        if place >= self.plain.len() {
            return None;
        }
        Some(self.plain.remove(place).1)
    }

    /// Touches the key where it is there, and pushes it else: whether the answers agree.
    fn used(&mut self, key: u32, value: u64) -> Result<bool, AllocError> {
        let was = self.taken(key);
        self.plain.push((key, value))?;
        if self.table.uses() >= 1_000_000 {
            return Ok(false);
        }
        if self.table.find(&key).is_none() {
            self.table.push(key, value)?;
            return Ok(was.is_none());
        }
        Ok(self.table.touch(&key, value) == was)
    }

    /// Pops the oldest pair of both: whether the answers agree.
    fn popped(&mut self) -> bool {
        if self.table.uses() >= 1_000_000 {
            return false;
        }
        let was = if self.plain.len() == 0 {
            None
        } else {
            Some(self.plain.remove(0))
        };
        self.table.pop_oldest() == was
    }

    /// Whether both have as many pairs, in the same order, the same oldest one, and the same value for the key.
    fn agree(&self, key: u32) -> bool {
        let value = self
            .plain
            .iter()
            .find(|pair| pair.0 == key)
            .map(|pair| pair.1);
        let oldest = self.table.oldest().map(|pair| (*pair.0, *pair.1));
        self.table.len() == self.plain.len()
            && self.table.find(&key).copied() == value
            && oldest == self.plain.first().copied()
    }

    /// Whether a copy of the map is the list, in its order.
    fn copy_agrees(&self, alloc: Global) -> Result<bool, AllocError> {
        let copy = self.table.copy(
            alloc,
            CopyRoom::touched(alloc, &0, 0, self.plain.len(), &NoRest)?,
        )?;
        let mut left = self.plain.len();
        for ((key, value), pair) in copy.iter().zip(self.plain.iter()) {
            if (*key, *value) != *pair {
                return Ok(false);
            }
            left = left.saturating_sub(1);
        }
        Ok(left == 0 && copy.len() == self.plain.len())
    }
}

/// So many calls, drawn from a seed, of which one in eight is a pop: the first at which map and list disagree.
fn first_difference<S: BuildHasher + Drop>(
    alloc: Global,
    table: Recent<u32, u64, S>,
    calls: u32,
) -> Result<Option<u32>, AllocError> {
    let mut both = Both {
        table,
        plain: Vec::new(alloc),
    };
    let mut state: u64 = 20;
    for call in 0..calls {
        state = state
            .wrapping_mul(6364136223846793005)
            .wrapping_add(1442695040888963407);
        let draw = (state >> 33) as u32;
        let key = draw / 8 % 23;
        let same = if draw % 8 == 0 {
            both.popped()
        } else {
            both.used(key, state)?
        };
        if !same || !both.agree(key) || !both.copy_agrees(alloc)? {
            return Ok(Some(call));
        }
    }
    Ok(None)
}

#[test]
fn random_calls_agree_with_a_plain_list(rt: HostRuntime) -> Result<(), Fail> {
    let fixed = Recent::new(rt.alloc(), BuildHasherDefault::<FoldHasher>::new());
    assert_eq!(rt; first_difference(rt.alloc(), fixed, 3000)?, None);
    let seeded = Recent::new(rt.alloc(), RandomState::new(&rt)?);
    assert_eq!(rt; first_difference(rt.alloc(), seeded, 3000)?, None);
    Ok(())
}
