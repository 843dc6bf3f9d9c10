use crate::requests::{fields, head, text};
use lb_acl::{KeyLen, KeySample, StickOn, TableType, pin_key};
use pin_set::PinKey;
use std::alloc::{AllocError, Global};
use std::process::Abort;

/// The key as text, `-` where there is none.
pub(crate) fn key<R: AllocGlobal + Abort>(
    rt: &R,
    sample: KeySample,
    table: TableType,
    lines: &[(&str, &str)],
) -> String {
    let alloc = rt.alloc();
    let fields = fields(alloc, lines).expect(rt, "memory");
    let stick = StickOn { sample, table };
    let key = pin_key(alloc, &stick, &head("GET", "/", &fields)).expect(rt, "memory");
    spelled(alloc, key.as_ref()).expect(rt, "memory")
}

pub(crate) fn spelled(alloc: Global, key: Option<&PinKey>) -> Result<String, AllocError> {
    match key {
        None => String::from_str(alloc, "-"),
        Some(PinKey::Ipv4(address)) => address.to_string(alloc),
        Some(PinKey::Text(text)) => String::from_utf8_lossy(alloc, text.as_bytes()),
    }
}

/// A table of addresses, or of texts of at most so many bytes.
pub(crate) fn table_of(len: Option<u16>) -> TableType {
    match len {
        None => TableType::Ip,
        Some(len) => TableType::Text(KeyLen::new(len.clamp(1, 1024))),
    }
}

/// The lines of a head, the longest text of the table where it has texts, and the key by the field `x`.
const OF_X: &[(&[(&str, &str)], Option<u16>, &str)] = &[
    (&[("X", "a, b"), ("X", "c , d")], Some(32), "d"),
    (&[("X", "a,")], Some(32), "-"),
    (&[("Y", "a")], Some(32), "-"),
    (&[("X", "a"), ("X", "")], Some(32), "-"),
    (&[("X", "abc")], Some(2), "ab"),
    (&[("X", "01.2.3.4")], None, "-"),
    (&[("X", "1.2.3.256")], None, "-"),
    (&[("X", "1.2.3.4")], None, "1.2.3.4"),
];

/// The lines of a head, and the key by the cookie `s` in a table of texts of at most 32 bytes.
const OF_S: &[(&[(&str, &str)], &str)] = &[
    (&[("Cookie", "s=1; t=2"), ("Cookie", "s=3")], "3"),
    (&[("cookie", "s=1; t=2")], "1"),
    (&[("Cookie", "s=1;s=2; s")], "2"),
    (&[("Cookie", "S=1")], "-"),
    (&[("Cookie", "s=1; s=")], "-"),
    (&[("Cookie", "s= a=b ;t=2")], " a=b"),
    (&[("Cookie", "xs=1")], "-"),
    (&[("Set-Cookie", "s=1")], "-"),
];

/// The longest text of the table where it has texts, and the key by the client's address.
const OF_SOURCE: &[(Option<u16>, &str)] = &[
    (None, "127.0.0.1"),
    (Some(1024), "127.0.0.1"),
    (Some(5), "127.0"),
];

// Of a field the last value of the last one of the name, of cookies the last one of the name, and of a source the client's address.
#[test]
fn keys_of_fields_cookies_and_sources(rt: HostRuntime) {
    for (lines, len, wanted) in OF_X {
        let sample = KeySample::Field(text(rt.alloc(), "x").expect(&rt, "memory"));
        expect_key(&rt, sample, table_of(*len), *lines, *wanted);
    }
    for (lines, wanted) in OF_S {
        let sample = KeySample::Cookie(text(rt.alloc(), "s").expect(&rt, "memory"));
        expect_key(&rt, sample, table_of(Some(32)), *lines, *wanted);
    }
    for (len, wanted) in OF_SOURCE {
        expect_key(&rt, KeySample::Source, table_of(*len), &[], *wanted);
    }
}

fn expect_key<R: AllocGlobal + Abort>(
    rt: &R,
    sample: KeySample,
    table: TableType,
    lines: &[(&str, &str)],
    wanted: &str,
) {
    let found = key(rt, sample, table, lines);
    assert_eq!(rt; found.as_str(), wanted);
}
