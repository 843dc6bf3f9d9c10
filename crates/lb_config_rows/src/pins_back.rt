//! Pins of a file that come back to a backend of a configuration, which may have been changed since the file was written.

use lb_config::{BackendConfig, read_config};
use lb_desk_model::SetPin;
use lb_types::{Moment, ServerId, ServerSet};
use pin_file::{push_backend, push_pin, read_pin_file};
use pin_file_return::{Returned, greatest_age, returned, saved_pin};
use pin_set::{Pin, PinId, PinKey, TablePin};
use std::alloc::{AllocError, Global};
use std::hash::RandomState;
use std::test::Fail;

/// A pin's key, its wanted servers, its server, its cost and its moment.
type PinRow = (&'static str, &'static [u8], u8, u16, u64);

/// A configuration's text, a file's, the pins that come back to the backend `web` at 10,000 ms, and how many don't.
type Row = (&'static str, &'static str, &'static [PinRow], usize);

const SERVERS: &str =
    "backend web\n server a 127.0.0.1:1\n server b 127.0.0.1:2\n stick-table type string len 5 size 3\n stick on hdr(x-id)\n";

const FILE: &str = "stickypins 1\nbackend web\npin ann - a 1 9000\npin bob a,b b 7 500\nend\n";

const ROWS: &[Row] = &[
    // nothing was changed
    (
        SERVERS,
        FILE,
        &[("ann", &[], 0, 1, 1000), ("bob", &[0, 1], 1, 7, 9500)],
        0,
    ),
    // a server was added in front of the others, which were put in another order
    (
        "backend web\n server c 127.0.0.1:3\n server b 127.0.0.1:2\n server a 127.0.0.1:1\n stick-table type string size 3\n",
        FILE,
        &[("ann", &[], 2, 1, 1000), ("bob", &[1, 2], 1, 7, 9500)],
        0,
    ),
    // `a` was removed: its pin is left out, and the one that wants it as well
    (
        "backend web\n server b 127.0.0.1:2\n stick-table type string size 3\n",
        FILE,
        &[],
        2,
    ),
    // `b` was renamed
    (
        "backend web\n server a 127.0.0.1:1\n server bb 127.0.0.1:2\n stick-table type string size 3\n",
        FILE,
        &[("ann", &[], 0, 1, 1000)],
        1,
    ),
    // keys of at most five bytes
    (
        SERVERS,
        "stickypins 1\nbackend web\npin sixsix - a 1 7\npin fives - a 1 6\nend\n",
        &[("fives", &[], 0, 1, 9994)],
        1,
    ),
    // the oldest go where there is no room for all, and each name stands once, as it was used last
    (
        SERVERS,
        "stickypins 1\nbackend web\npin ann - a 1 9\npin bob - a 1 8\npin ann - b 5 7\npin cid - a 1 6\npin dan - a 1 5\npin eve - gone 1 4\nend\n",
        &[
            ("ann", &[], 1, 5, 9993),
            ("cid", &[], 0, 1, 9994),
            ("dan", &[], 0, 1, 9995),
        ],
        3,
    ),
    // a key with other wanted servers is another pin; a server that is named twice is wanted once
    (
        SERVERS,
        "stickypins 1\nbackend web\npin ann a a 1 3\npin ann - a 1 2\npin ann a,a b 1 1\nend\n",
        &[("ann", &[], 0, 1, 9998), ("ann", &[0], 1, 1, 9999)],
        1,
    ),
    // a pin at no server holds nobody
    (
        SERVERS,
        "stickypins 1\nbackend web\npin ann - - 1 3\nend\n",
        &[],
        1,
    ),
    // used before the clock's start
    (
        SERVERS,
        "stickypins 1\nbackend web\npin ann - a 1 10001\npin bob - a 1 10000\nend\n",
        &[("ann", &[], 0, 1, 0), ("bob", &[], 0, 1, 0)],
        0,
    ),
    // addresses in their one spelling, in a table of type `ip`
    (
        "backend web\n server a 127.0.0.1:1\n stick-table type ip size 3\n",
        "stickypins 1\nbackend web\npin 10.0.0.01 - a 1 3\npin ann - a 1 2\npin 10.0.0.1 - a 1 1\nend\n",
        &[("10.0.0.1", &[], 0, 1, 9999)],
        2,
    ),
    // no table any more
    ("backend web\n server a 127.0.0.1:1\n", FILE, &[], 2),
    // the file has another backend, and not this one
    (
        SERVERS,
        "stickypins 1\nbackend api\npin ann - a 1 9\nend\n",
        &[],
        0,
    ),
];

fn set_of(servers: &[u8]) -> ServerSet {
    let mut set = ServerSet::empty();
    for server in servers {
        set = set.with(ServerId::new(*server % 128));
    }
    set
}

fn is_so(alloc: Global, pin: &SetPin, row: &PinRow) -> Result<bool, AllocError> {
    let (key, wanted, server, cost, moment) = row;
    let text = match &pin.name.key {
        PinKey::Ipv4(address) => address.to_string(alloc)?.into_bytes(),
        PinKey::Text(text) => text.as_bytes().to_vec(alloc)?,
    };
    Ok(
        text.as_slice() == key.as_bytes()
            && pin.name.want == set_of(wanted)
            && pin.server.index() == usize::from(*server)
            && pin.cost == *cost
            && pin.moment.as_millis() == *moment,
    )
}

fn are_so(alloc: Global, back: &Returned, rows: &[PinRow]) -> Result<bool, AllocError> {
    if back.pins.len() != rows.len() {
        return Ok(false);
    }
    for (pin, row) in back.pins.iter().zip(rows) {
        if !is_so(alloc, pin, row)? {
            return Ok(false);
        }
    }
    Ok(true)
}

#[test]
fn pins_come_back_to_a_configuration_that_was_changed(rt: HostRuntime) -> Result<(), Fail> {
    for (config, file, pins, left_out) in ROWS {
        let config = read_config(rt.alloc(), config.as_bytes())?;
        let file = read_pin_file(rt.alloc(), file.as_bytes())?;
        let Some(backend) = config.backends().first() else {
            return Err(Fail::new("the text has a backend"));
        };
        let hasher = RandomState::new(&rt)?;
        let now = Moment::from_millis(10_000);
        let back = returned(rt.alloc(), hasher, backend, &file, now)?;
        assert!(rt; are_so(rt.alloc(), &back, pins)? && back.left_out == *left_out);
    }
    Ok(())
}

/// The pins that come back, as rows of the table.
fn rows_of(alloc: Global, pins: Vec<SetPin>) -> Result<Vec<TablePin>, AllocError> {
    let mut rows = Vec::new(alloc);
    for pin in pins {
        rows.push(TablePin {
            pin: Pin {
                id: pin.name,
                place: Some(pin.server),
                cost: pin.cost,
            },
            last_use: pin.moment,
        })?;
    }
    Ok(rows)
}

/// The lines that a file has of the backend with these pins at 12,000 ms.
fn lines_of(
    alloc: Global,
    backend: &BackendConfig,
    rows: &[TablePin],
) -> Result<Vec<u8>, AllocError> {
    let now = Moment::from_millis(12_000);
    let mut text = Vec::new(alloc);
    push_backend(&mut text, &backend.name())?;
    for row in rows {
        let pin = saved_pin(alloc, backend.servers(), row, now)?;
        push_pin(&mut text, &pin)?;
    }
    Ok(text)
}

#[test]
fn a_table_is_saved_with_the_ages_of_its_pins(rt: HostRuntime) -> Result<(), Fail> {
    let config = read_config(rt.alloc(), SERVERS.as_bytes())?;
    let file = read_pin_file(rt.alloc(), FILE.as_bytes())?;
    assert!(rt; greatest_age(&file) == 9000);
    let Some(backend) = config.backends().first() else {
        return Err(Fail::new("the text has a backend"));
    };
    let hasher = RandomState::new(&rt)?;
    let back = returned(
        rt.alloc(),
        hasher,
        backend,
        &file,
        Moment::from_millis(10_000),
    )?;
    let mut rows = rows_of(rt.alloc(), back.pins)?;
    for row in &mut rows {
        if row.pin.cost == 7 {
            row.pin.place = None;
        }
    }
    let text = lines_of(rt.alloc(), backend, &rows)?;
    let want = b"backend web\npin ann - a 1 11000\npin bob a,b - 7 2500\n";
    assert!(rt; text.as_slice() == want.as_slice());
    Ok(())
}
