//! Copies of entries, with an event and a reply of each kind.

use crate::entries::{COUNT, entries};
use lb_desk_model::Entry;
use std::process::Abort;
use std::test::Fail;

// A copy is equal to its own entry and to no other. Its event is equal to that alone too, but for the last two entries' events.
#[test]
fn a_copy_is_equal_to_its_entry(rt: HostRuntime) -> Result<(), Fail> {
    let entries = entries(rt.alloc())?;
    for (number, entry) in entries.iter().enumerate() {
        compare(&rt, &entries, number, &entry.clone()?);
    }
    Ok(())
}

/// Compares the copy of the entry of this number to all.
fn compare(rt: &impl Abort, entries: &[Entry], number: usize, copy: &Entry) {
    for (other, entry) in entries.iter().enumerate() {
        let same_event = number.min(COUNT - 2) == other.min(COUNT - 2);
        let told = (*copy == *entry, copy.event == entry.event);
        assert_eq!(rt;
            told,
            (number == other, same_event),
            "{number} beside {other}"
        );
    }
}
