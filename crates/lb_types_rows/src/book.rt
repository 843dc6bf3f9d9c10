use capacity_book::{Book, CloseFault, OpenFault};
use lb_types::ServerId;
use server_state::{AdminState, Farm, ServerSettings};
use std::process::Abort;

/// A server that holds two pins, and has one connection at most.
fn settings() -> ServerSettings {
    ServerSettings {
        admin: AdminState::Ready,
        weight: 1,
        max_connections: 1,
        max_pins: 2,
        backup: false,
        check: None,
    }
}

/// What happens in a farm of two servers, of which the book has the first alone. The server is given by its number.
#[derive(Clone, Copy, Debug)]
enum Step {
    /// A connection is asked for, with this answer.
    Open(u8, Result<(), OpenFault>),
    /// A connection ends, with this answer.
    Close(u8, Result<(), CloseFault>),
    /// The first server is set so.
    Admin(AdminState),
    /// The first server has no limit of connections any more.
    Unlimited,
}

use Step::{Admin, Close, Open, Unlimited};

// Each step with the connections that are open at the first server after it. A server that is not in the book does not serve.
const SCRIPTS: &[&[(Step, u64)]] = &[
    &[
        (Open(0, Ok(())), 1),
        (Open(0, Err(OpenFault::Full)), 1),
        (Close(0, Ok(())), 0),
        (Close(0, Err(CloseFault::NotOpen)), 0),
        (Admin(AdminState::Maint), 0),
        (Open(0, Err(OpenFault::NotServing)), 0),
    ],
    &[
        (Admin(AdminState::Drain), 0),
        (Unlimited, 0),
        (Open(0, Ok(())), 1),
        (Open(0, Ok(())), 2),
        (Open(0, Ok(())), 3),
    ],
    &[
        (Open(1, Err(OpenFault::NotServing)), 0),
        (Close(1, Err(CloseFault::NotOpen)), 0),
        (Open(2, Err(OpenFault::NotServing)), 0),
        (Close(2, Err(CloseFault::NotOpen)), 0),
    ],
];

/// Whether the step is answered as it should be.
fn is_answered(farm: &mut Farm, book: &mut Book, step: &Step) -> bool {
    let first = ServerId::new(0);
    match step {
        Open(server, wanted) => book.open(ServerId::new(*server % 128), farm) == *wanted,
        Close(server, wanted) => book.close(ServerId::new(*server % 128)) == *wanted,
        Admin(state) => farm.set_admin(first, *state).is_ok(),
        Unlimited => farm.set_maxconn(first, 0).is_ok(),
    }
}

/// Takes the steps, and compares after each.
fn go_through(rt: &impl Abort, farm: &mut Farm, book: &mut Book, steps: &[(Step, u64)]) {
    let [a, missing] = [ServerId::new(0), ServerId::new(2)];
    for (step, open) in steps {
        let is_right = is_answered(farm, book, step);
        let told = (is_right, book.connections(a), book.connections(missing));
        assert_eq!(rt; told, (true, *open, 0), "{step:?} in {steps:?}");
    }
    let b = ServerId::new(1);
    assert!(rt; farm.serving(b) && !book.room(b, farm));
}

#[test]
fn connections_are_refused_where_the_server_is_full_or_does_not_serve(rt: HostRuntime) {
    for steps in SCRIPTS {
        let mut farm = Farm::new(rt.alloc(), &[settings(), settings()], false).expect(
            &rt, "memory",
        );
        let mut book = Book::new(rt.alloc(), 1).expect(&rt, "memory");
        go_through(&rt, &mut farm, &mut book, *steps);
    }
    let numbers = [
        OpenFault::Full.number(),
        OpenFault::NotServing.number(),
        CloseFault::NotOpen.number(),
    ];
    assert_eq!(rt; numbers, [30, 31, 32]);
}

/// Counts one pin fewer, if there is one.
fn take_away(book: &mut Book, server: ServerId) {
    if book.pins(server) > 0 {
        book.unplace(server);
    }
}

#[test]
fn pins_go_where_there_is_room(rt: HostRuntime) {
    let (a, b, missing) = (ServerId::new(0), ServerId::new(1), ServerId::new(2));
    let mut farm = Farm::new(rt.alloc(), &[settings(), settings()], false).expect(&rt, "memory");
    let mut book = Book::new(rt.alloc(), 2).expect(&rt, "memory");
    for count in [1, 2, 2] {
        if book.room(a, &farm) {
            book.place(a, &farm);
        }
        assert_eq!(rt; (book.pins(a), book.pins(b)), (count, 0));
    }
    assert!(rt; !book.room(a, &farm) && book.room(b, &farm) && !book.room(missing, &farm));
    // Pins above a lowered capacity stay, and one that leaves makes no room yet.
    farm.set_maxpins(a, 1).expect(&rt, "a change");
    for (count, has_room) in [(1, false), (0, true)] {
        take_away(&mut book, a);
        assert_eq!(rt; (book.pins(a), book.room(a, &farm)), (count, has_room));
    }
}

#[test]
fn a_reload_sets_the_pins_and_leaves_the_connections(rt: HostRuntime) {
    let (a, b) = (ServerId::new(0), ServerId::new(1));
    let farm = Farm::new(rt.alloc(), &[settings(), settings()], false).expect(&rt, "memory");
    let mut book = Book::new(rt.alloc(), 2).expect(&rt, "memory");
    assert_eq!(rt; book.open(b, &farm), Ok(()));
    book.reload(&[3, 16777216]);
    let told = [book.pins(a), book.pins(b)];
    let open = [book.connections(a), book.connections(b)];
    assert_eq!(rt; (told, open), ([3, 16777216], [0, 1]));
}
