//! The backend of the tests: servers a, b and c, each checked and for two pins.

use lb_config::read_config;
use lb_desk_backend::backend_of;
use lb_desk_model::{Backend, Request, RuleList};
use lb_types::{Moment, ServerId};
use pin_set::{KeyText, PinKey, Score};
use std::alloc::{AllocError, Global};
use std::hash::{BuildHasherDefault, FoldHasher};
use std::test::Fail;

pub(crate) type Hasher = BuildHasherDefault<FoldHasher>;

const TEXT: &[u8] = b"backend web
    stick-table type string size 10 expire 10s
    stick on hdr(x-id)
    server a 127.0.0.1:8001 check maxpins 2
    server b 127.0.0.1:8002 check maxpins 2
    server c 127.0.0.1:8003 check maxpins 2
";

pub(crate) const A: u8 = 0;

pub(crate) const B: u8 = 1;

pub(crate) const C: u8 = 2;

/// The keys of the requests that come first, a millisecond after one another. Pins go to a, b, c and a.
pub(crate) const FIRST: [&str; 4] = ["k1", "k2", "k3", "k4"];

/// What a plan comes to where a, which has two of four pins, must be left: two pins move, at 1 each.
pub(crate) const TWO_MOVED: Score = Score {
    pins: 4,
    unplaced: 0,
    moved: 2,
    cost: 2,
};

pub(crate) fn server(at: u8) -> ServerId {
    ServerId::new(at % 128)
}

pub(crate) fn farm(alloc: Global) -> Result<Backend, Fail> {
    let config = read_config(alloc, TEXT)?;
    let Some(backend) = config.backends().first() else {
        return Err(Fail::new("no backend"));
    };
    Ok(backend_of(alloc, backend)?)
}

/// A request with this key that no rule matches, whose pin costs 1 to move.
pub(crate) fn request(alloc: Global, moment: u64, key: &str) -> Result<Request, AllocError> {
    let key = KeyText::copied_from(alloc, key.as_bytes())?;
    Ok(Request {
        key: Some(PinKey::Text(key)),
        rules: RuleList::new(Vec::new(alloc)),
        cost: 1,
        moment: Moment::from_millis(moment),
    })
}
