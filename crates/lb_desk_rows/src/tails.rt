use lb_desk_tail::Tail;
use std::process::Abort;
use std::test::Fail;

/// The log that the rows are of.
const LOG: &str = "abcde";

/// The capacity, what each push hands out (`-` where it is nothing), what is kept in the end, and the number of its first entry.
type Row = (usize, &'static str, &'static str, u64);

const ROWS: &[Row] = &[
    (1, "-abcd", "e", 4),
    (2, "--abc", "de", 3),
    (3, "---ab", "cde", 2),
    (4, "----a", "bcde", 1),
    (5, "-----", "abcde", 0),
    (1000000, "-----", "abcde", 0),
];

#[test]
fn the_newest_entries_are_kept_and_the_oldest_handed_out(rt: HostRuntime) -> Result<(), Fail> {
    for row in ROWS {
        let mut tail = Tail::new(rt.alloc(), row.0)?;
        compare(&rt, &mut tail, *row);
    }
    Ok(())
}

fn compare(rt: &impl Abort, tail: &mut Tail<char>, row: Row) {
    let (capacity, out, kept, first) = row;
    assert!(rt; tail.is_empty() && tail.last().is_none(), "at {capacity}");
    assert!(rt; hands_out(tail, out), "at {capacity}");
    assert!(rt;
        keeps(tail, kept) && has_slices(tail, kept),
        "at {capacity}"
    );
    let numbers = (tail.first(), tail.next_number(), tail.capacity());
    assert_eq!(rt; numbers, (first, 5, capacity));
    let ends = (tail.last().copied(), tail.len(), tail.is_empty());
    assert_eq!(rt; ends, (Some('e'), kept.len(), false), "at {capacity}");
}

/// Adds the log, and returns whether these entries are handed out.
fn hands_out(tail: &mut Tail<char>, wanted: &str) -> bool {
    for (entry, wanted) in LOG.chars().zip(wanted.chars()) {
        if tail.next_number() > 1000 || tail.push(entry).unwrap_or('-') != wanted {
            return false;
        }
    }
    true
}

/// Whether these entries are kept, one by one.
fn keeps(tail: &Tail<char>, wanted: &str) -> bool {
    if tail.iter().count() != wanted.len() {
        return false;
    }
    for (entry, wanted) in tail.iter().zip(wanted.chars()) {
        if *entry != wanted {
            return false;
        }
    }
    true
}

/// Whether these entries are kept, as slices.
fn has_slices(tail: &Tail<char>, wanted: &str) -> bool {
    let (front, back) = tail.as_slices();
    if front.len().saturating_add(back.len()) != wanted.len() {
        return false;
    }
    for (entry, wanted) in front.iter().chain(back).zip(wanted.chars()) {
        if *entry != wanted {
            return false;
        }
    }
    true
}
