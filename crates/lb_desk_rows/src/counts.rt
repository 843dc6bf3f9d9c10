use pin_counts::Counts;
use std::alloc::AllocError;
use std::test::Fail;

/// A kind of pins, in the order of its fields: no place comes before every place.
#[derive(Clone, Copy, PartialEq, Eq, PartialOrd, Ord)]
struct Kind {
    place: Option<u8>,
    want: u128,
    cost: u16,
}

const NOWHERE: Kind = Kind {
    place: None,
    want: 9,
    cost: 9,
};

const CHEAP: Kind = Kind {
    place: Some(0),
    want: 4,
    cost: 1,
};

const DEAR: Kind = Kind {
    place: Some(0),
    want: 4,
    cost: 1000,
};

const WIDE: Kind = Kind {
    place: Some(0),
    want: 6,
    cost: 1,
};

#[derive(Clone, Copy)]
enum Call {
    Add(Kind),
    Remove(Kind),
    Change(Kind, Kind),
    Clear,
}

/// Makes the call, where it may be made.
fn make(counts: &mut Counts<Kind>, call: Call) -> Result<(), AllocError> {
    match call {
        Call::Add(kind) if counts.count(kind) < 100 => counts.add(kind),
        Call::Remove(kind) if counts.count(kind) > 0 => {
            counts.remove(kind);
            Ok(())
        }
        Call::Change(from, to) if counts.count(from) > 0 && counts.count(to) < 100 => {
            counts.change(from, to)
        }
        Call::Clear => {
            counts.clear();
            Ok(())
        }
        _ => Err(AllocError),
    }
}

// Each call, and what is listed after it.
const CALLS: &[(Call, &[(Kind, u64)])] = &[
    (Call::Add(DEAR), &[(DEAR, 1)]),
    (Call::Add(NOWHERE), &[(NOWHERE, 1), (DEAR, 1)]),
    (Call::Add(DEAR), &[(NOWHERE, 1), (DEAR, 2)]),
    (
        Call::Change(DEAR, WIDE),
        &[(NOWHERE, 1), (DEAR, 1), (WIDE, 1)],
    ),
    (
        Call::Change(NOWHERE, CHEAP),
        &[(CHEAP, 1), (DEAR, 1), (WIDE, 1)],
    ),
    (Call::Change(DEAR, WIDE), &[(CHEAP, 1), (WIDE, 2)]),
    (Call::Change(CHEAP, CHEAP), &[(CHEAP, 1), (WIDE, 2)]),
    (Call::Remove(WIDE), &[(CHEAP, 1), (WIDE, 1)]),
    (Call::Remove(WIDE), &[(CHEAP, 1)]),
    (Call::Clear, &[]),
    (Call::Add(CHEAP), &[(CHEAP, 1)]),
];

#[test]
fn kinds_rise_and_a_kind_of_which_nothing_is_left_goes(rt: HostRuntime) -> Result<(), Fail> {
    let mut counts = Counts::new(rt.alloc());
    assert!(rt; counts.is_empty());
    for (number, (call, wanted)) in CALLS.iter().enumerate() {
        make(&mut counts, *call)?;
        assert!(rt; lists(&counts, *wanted), "after call {number}");
    }
    Ok(())
}

/// Whether these kinds are listed, in this order, and counted.
fn lists(counts: &Counts<Kind>, wanted: &[(Kind, u64)]) -> bool {
    if counts.len() != wanted.len() || counts.is_empty() != wanted.is_empty() {
        return false;
    }
    for (listed, wanted) in counts.iter().zip(wanted) {
        let (kind, count) = *wanted;
        if *listed.0 != kind || *listed.1 != count || counts.count(kind) != count {
            return false;
        }
    }
    true
}
