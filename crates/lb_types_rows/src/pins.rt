ghost use Rattle.std.specs.Prelude.{◌≡◌};

use crate::values::{at, set};
use lb_types::{Name, Place, ServerId, ServerSet};
use pin_set::{KeyText, Pin, PinId, PinKey, Score, View, ViewServer, honoured, permitted, score};
use std::net::Ipv4Addr;
use std::test::Fail;

const A: u8 = 0;

const B: u8 = 1;

const C: u8 = 127;

/// What a pin wants, the usable servers, and those that it may have.
const PERMITTED: &[(&[u8], &[u8], &[u8])] = &[
    (&[A], &[A, B], &[A]),
    (&[A, C], &[A, B], &[A]),
    (&[C], &[A, B], &[A, B]),
    (&[], &[A, B], &[A, B]),
    (&[A], &[], &[]),
    (&[B, C], &[A, C], &[C]),
];

/// Where a pin is, what it wants, the usable servers, whether its place serves, and whether it may stay.
const HONOURED: &[(Option<u8>, &[u8], &[u8], bool, bool)] = &[
    (Some(A), &[], &[B], true, true),
    (Some(A), &[], &[B], false, false),
    (Some(A), &[A], &[B], true, true),
    (Some(A), &[B], &[B], true, false),
    (Some(A), &[B, C], &[A, C], true, false),
    (Some(A), &[B], &[A, C], true, true),
    (Some(A), &[B], &[A, C], false, false),
    (None, &[], &[A], true, false),
];

// A pin may go to the usable servers that it wants, or to all usable ones. A place is honoured where it serves and is wanted, or
// nothing wanted is usable.
#[test]
fn servers_that_a_pin_wants_and_those_that_it_may_have(rt: HostRuntime) {
    for (want, usable, wanted) in PERMITTED {
        let found = permitted(set(*want), set(*usable));
        assert_eq!(rt; found, set(*wanted), "at {want:?} {usable:?}");
    }
    for (place, want, usable, serving, kept) in HONOURED {
        let found = honoured(place.and_then(at), set(*want), set(*usable), *serving);
        assert_eq!(rt; found, *kept, "at {place:?} {want:?} {usable:?}");
    }
}

// One pin leaves its server, one stays at it, and one had none and gets none. The first alone is moved.
#[test]
fn a_pin_that_loses_its_server_is_moved_and_one_that_had_none_is_not(
    rt: HostRuntime,
) -> Result<(), Fail> {
    let name = Name::read(b"a")?;
    assert_eq!(rt; name.as_bytes(), b"a".as_slice());
    let server = ViewServer { name, capacity: 1 };
    let a = ServerId::new(0);
    let none = ServerSet::empty();
    let wants_a = none.with(a);
    let wants_b = none.with(ServerId::new(1));
    let pins = vec![in rt.alloc();
        pin(Some(a), none, 1000),
        pin(Some(a), wants_a, 1),
        pin(None, wants_b, 7),
    ]?;
    let servers = vec![in rt.alloc(); server]?;
    let view = View::new(none, servers, pins);
    let places = [None, Some(a), None];
    let wanted = Score {
        pins: 3,
        unplaced: 2,
        moved: 1,
        cost: 1000,
    };
    assert_eq!(rt; score(&view, &places), wanted);
    let told = (view.usable(), view.servers().len(), view.pins().len());
    assert_eq!(rt; told, (ServerSet::empty(), 1, 3));
    Ok(())
}

fn pin(place: Place, want: ServerSet, cost: u16) -> Pin
    ensures want { result.id.want ≡ want }
    ensures place { result.place ≡ place }
    ensures cost { result.cost ≡ cost }
{
    Pin {
        id: PinId {
            key: PinKey::Ipv4(Ipv4Addr::new(10, 0, 0, 1)),
            want,
        },
        place,
        cost,
    }
}

#[test]
fn keys_are_the_same_where_their_bytes_are(rt: HostRuntime) {
    let one = PinKey::Text(KeyText::copied_from(rt.alloc(), b"k1").expect(&rt, "memory"));
    let two = PinKey::Text(KeyText::new(vec![in rt.alloc(); b'k', b'2'].expect(&rt, "memory")));
    let copy = one.clone().expect(&rt, "memory");
    let is_one = match &copy {
        PinKey::Text(text) => text.as_bytes() == b"k1".as_slice(),
        PinKey::Ipv4(_) => false,
    };
    let address = PinKey::Ipv4(Ipv4Addr::new(107, 49, 0, 0));
    assert!(rt; is_one && copy == one && one != two && one != address);
}
