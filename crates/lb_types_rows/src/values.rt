use lb_types::{Moment, Name, NameFault, Place, ServerId, ServerSet};
use lb_types_pins::{Group, PinKind, Row};

/// The set of these servers.
pub(crate) fn set(servers: &[u8]) -> ServerSet {
    let mut set = ServerSet::empty();
    for server in servers {
        set = set.with(ServerId::new(*server % 128));
    }
    set
}

/// The place at this server.
pub(crate) fn at(server: u8) -> Place {
    Some(ServerId::new(server % 128))
}

const LONG: &[u8] = &[b'a'; 65];

/// Bytes, and why they are no name, with its number.
const NAMES: &[(&[u8], Option<(NameFault, u16)>)] = &[
    (b"a", None),
    (b"s128", None),
    (b"web-1_x.y:Z9", None),
    (&[b'a'; 64], None),
    (b"--", None),
    (b"", Some((NameFault::Empty, 1))),
    (LONG, Some((NameFault::TooLong, 2))),
    (&[0; 65], Some((NameFault::TooLong, 2))),
    (b"-", Some((NameFault::BadByte, 3))),
    (b"a b", Some((NameFault::BadByte, 3))),
    (b"caf\xc3\xa9", Some((NameFault::BadByte, 3))),
];

#[test]
fn a_name_is_1_to_64_lawful_bytes_and_gives_them_back(rt: HostRuntime) {
    for (bytes, fault) in NAMES {
        let is_right = match Name::read(*bytes) {
            Ok(name) => fault.is_none() && name.as_bytes() == *bytes,
            Err(told) => *fault == Some((told, told.number())),
        };
        assert!(rt; is_right, "at {bytes:?}");
    }
    let (one, again, longer) = (Name::read(b"a"), Name::read(b"a"), Name::read(b"ab"));
    assert!(rt; one.is_ok() && longer.is_ok() && one == again && one != longer);
}

// Each set with the servers that it has to hold, in order.
#[test]
fn a_set_holds_what_was_put_in(rt: HostRuntime) {
    let low = set(&[63, 3]);
    let high = set(&[64, 3]);
    let cases: &[(ServerSet, &[u8])] = &[
        (ServerSet::empty(), &[]),
        (low, &[3, 63]),
        (high, &[3, 64]),
        (low.meet(high), &[3]),
        (low.union(high), &[3, 63, 64]),
    ];
    for (found, servers) in cases {
        let told = (*found, found.len(), found.is_empty(), found.first());
        let first = servers.first().map(|server| ServerId::new(*server % 128));
        let wanted = (set(*servers), servers.len(), servers.is_empty(), first);
        assert_eq!(rt; told, wanted, "{servers:?}");
    }
    assert!(rt; high.has(ServerId::new(64)) && !high.has(ServerId::new(63)));
}

fn row(place: Place, permitted: ServerSet, cost: u16, new_place: Place) -> Row {
    Row {
        kind: PinKind {
            place,
            permitted,
            cost,
        },
        new_place,
        count: 1,
    }
}

// Nowhere comes before every server. Sets are ordered as numbers: the 64th server's set stands before the 65th's.
#[test]
fn places_sets_and_moments_are_in_order(rt: HostRuntime) {
    let places = None < at(0) && at(9) < at(127) && ServerId::new(127).index() == 127;
    let sets = set(&[63]) < set(&[64]) && set(&[63, 3]) < set(&[64, 3]);
    let late = Moment::from_millis(u64::MAX);
    let moments = Moment::from_millis(9) < Moment::from_millis(10) && late.as_millis() == u64::MAX;
    assert_eq!(rt; (places, sets, moments), (true, true, true));
}

// Rows rise by place, then by set, then by cost, then by new place.
#[test]
fn rows_are_in_order(rt: HostRuntime) {
    let rising = [
        row(None, set(&[1]), 1, None),
        row(at(0), set(&[]), 9, None),
        row(at(0), set(&[0]), 9, None),
        row(at(0), set(&[1]), 2, at(1)),
        row(at(0), set(&[1]), 3, None),
        row(at(0), set(&[1]), 3, at(0)),
        row(at(0), set(&[63]), 1, None),
        row(at(0), set(&[64]), 1, None),
        row(at(1), set(&[]), 1, None),
    ];
    for (i, a) in rising.iter().enumerate() {
        for (j, b) in rising.iter().enumerate() {
            assert_eq!(rt; a.is_before(b), i < j, "rows {i} and {j}");
        }
    }
}

// Groups are ordered by their kind alone.
#[test]
fn groups_are_in_order(rt: HostRuntime) {
    let low = Group {
        kind: row(None, set(&[1]), 1, None).kind,
        count: 9,
    };
    let high = Group {
        kind: row(at(0), set(&[0]), 1, None).kind,
        count: 1,
    };
    assert!(rt; low.is_before(&high) && !high.is_before(&low) && !low.is_before(&low));
}
