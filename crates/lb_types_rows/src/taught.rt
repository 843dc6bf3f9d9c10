use crate::keys::{key, spelled, table_of};
use crate::requests::text;
use lb_acl::{KeySample, StickOn, TableType};
use set_cookie::{TaughtKey, is_unfinished, taught, taught_key};
use std::alloc::{AllocError, Global};
use std::process::Abort;

// The fields of an answer, and what they teach of the cookie SID.
const FIELDS: &[(&[u8], Option<&[u8]>)] = &[
    // As PHP, Tomcat, Rack and ASP.NET write them.
    (
        b"Set-Cookie: SID=5jq7e1v0s4u9k2m8; path=/; HttpOnly\r\n",
        Some(b"5jq7e1v0s4u9k2m8"),
    ),
    (
        b"Set-Cookie: SID=1A530637289A03B07199A44E8D531427.node1; Path=/app; HttpOnly\r\n",
        Some(b"1A530637289A03B07199A44E8D531427.node1"),
    ),
    (
        b"set-cookie: SID=BAh7B0kiD3Nlc3Npb25faWQ%3D--6d1f; path=/; expires=Sat, 29 Nov 2036 10:00:00 GMT; HttpOnly; SameSite=Lax\r\n",
        Some(b"BAh7B0kiD3Nlc3Npb25faWQ%3D--6d1f"),
    ),
    (
        b"SET-COOKIE:SID=kz2hq4jy3fqp0x45yxlr1x45; path=/; HttpOnly; SameSite=Lax\r\n",
        Some(b"kz2hq4jy3fqp0x45yxlr1x45"),
    ),
    // As they delete them: PHP, Tomcat, Rack and ASP.NET.
    (
        b"Set-Cookie: SID=deleted; expires=Thu, 01-Jan-1970 00:00:01 GMT; Max-Age=0; path=/\r\n",
        None,
    ),
    (
        b"Set-Cookie: SID=; Max-Age=0; Expires=Thu, 01 Jan 1970 00:00:10 GMT; Path=/\r\n",
        None,
    ),
    (
        b"Set-Cookie: SID=; path=/; max-age=0; expires=Thu, 01 Jan 1970 00:00:00 GMT\r\n",
        None,
    ),
    (
        b"Set-Cookie: SID=gone; expires=Tue, 12-Oct-1999 03:00:00 GMT; path=/\r\n",
        None,
    ),
    (
        b"Set-Cookie: SID=gone; expires=Mon, 01-Jan-0001 00:00:00 GMT\r\nDate: Sun, 29 Nov 2026 10:00:00 GMT\r\n",
        None,
    ),
    // Expires is compared with Date.
    (
        b"Date: Sun, 29 Nov 2026 10:00:00 GMT\r\nSet-Cookie: SID=a; Expires=Sun, 29 Nov 2026 10:00:01 GMT\r\n",
        Some(b"a"),
    ),
    (
        b"Date: Sun, 29 Nov 2026 10:00:00 GMT\r\nSet-Cookie: SID=a; Expires=Sun, 29 Nov 2026 10:00:00 GMT\r\n",
        None,
    ),
    (
        b"Set-Cookie: SID=a; Expires=Sat, 28 Nov 2026 23:59:59 GMT\r\nDate: Sun, 29 Nov 2026 00:00:00 GMT\r\n",
        None,
    ),
    (
        b"Set-Cookie: SID=a; Expires=Sunday, 06-Nov-94 08:49:37 GMT\r\n",
        None,
    ),
    (
        b"Set-Cookie: SID=a; Expires=Sunday, 06-Nov-44 08:49:37 GMT\r\n",
        Some(b"a"),
    ),
    (b"Set-Cookie: SID=a; Expires=0\r\n", Some(b"a")),
    (
        b"Set-Cookie: SID=a; Expires=Thu, 01 Jan 1970 00:00:60 GMT\r\n",
        Some(b"a"),
    ),
    (
        b"Set-Cookie: SID=a; Expires=Thu, 00 Jan 1970 00:00:00 GMT\r\n",
        Some(b"a"),
    ),
    (
        b"Set-Cookie: SID=a; Expires=Thu, 01 Jan 1970 00:00:00\r\n",
        Some(b"a"),
    ),
    // Max-Age goes before Expires, and the last one that can be read counts.
    (
        b"Set-Cookie: SID=a; Max-Age=60; Expires=Thu, 01 Jan 1970 00:00:00 GMT\r\n",
        Some(b"a"),
    ),
    (b"Set-Cookie: SID=a; Max-Age=-1\r\n", None),
    (b"Set-Cookie: SID=a; Max-Age=00\r\n", None),
    (
        b"Set-Cookie: SID=a; Max-Age=99999999999999999999999\r\n",
        Some(b"a"),
    ),
    (b"Set-Cookie: SID=a; Max-Age=0; max-age=1\r\n", Some(b"a")),
    (b"Set-Cookie: SID=a; Max-Age=1; MAX-AGE = 0 \r\n", None),
    (
        b"Set-Cookie: SID=a; Max-Age=0; Max-Age=soon; Max-Age=-\r\n",
        None,
    ),
    // Names and values.
    (b"Set-Cookie: sid=a\r\n", None),
    (
        b"Set-Cookie: SID2=a\r\nSet-Cookie: ASID=b\r\nSet-Cookie2: SID=c\r\n",
        None,
    ),
    (b"Set-Cookie: \t SID = a b \t; Path=/\r\n", Some(b"a b")),
    (b"Set-Cookie: SID=a=b==\r\n", Some(b"a=b==")),
    (b"Set-Cookie: SID=\"a,b\"; Path=/\r\n", Some(b"\"a,b\"")),
    (b"Set-Cookie: SID=\"a;b\"\r\n", Some(b"\"a")),
    (b"Set-Cookie: SID\r\n", None),
    (b"Set-Cookie: SID; =a\r\n", None),
    (b"Set-Cookie:\r\n", None),
    // Several fields.
    (
        b"Set-Cookie: SID=a\r\nX: y\r\nSet-Cookie: SID=b\r\nSet-Cookie: other=c\r\n",
        Some(b"b"),
    ),
    (
        b"Set-Cookie: SID=a\r\nSet-Cookie: SID=b; Max-Age=0\r\n",
        None,
    ),
    (
        b"Set-Cookie: SID=a; Max-Age=0\r\nSet-Cookie: SID=b\r\n",
        Some(b"b"),
    ),
    (
        b"Set-Cookie: SID=a\r\nSet-Cookie: SID=b\x00c\r\n",
        Some(b"a"),
    ),
    (
        b"Set-Cookie: SID=a\tb\nSet-Cookie: SID=\x7f\n",
        Some(b"a\tb"),
    ),
    (b"Set-Cookie: SID=a\r\nSet-Cookie: SID=b\rc\r\n", Some(b"a")),
    // Bad heads.
    (b"Set-Cookie: SID=a;\r\n Max-Age=0\r\n", None),
    (b"Set-Cookie : SID=a\r\n", None),
    (b"Set-Cookie: SID=a\r\nno colon\r\n", None),
    (b"Set-Cookie: SID=a\r\n: no name\r\n", None),
    (b"X\x00: y\r\nSet-Cookie: SID=a\r\n", None),
];

// What is before the fields of a head that teaches.
const LEADING: &[&[u8]] = &[
    b"HTTP/1.1 200 OK\r\n",
    b"HTTP/1.0 302 Found\n",
    b"HTTP/1.1 404\r\n",
    b"HTTP/1.1 101 Switching Protocols\r\n",
    b"HTTP/1.1 100 Continue\r\n\r\nHTTP/1.1 200 OK\r\n",
    b"HTTP/1.1 103 Early Hints\r\nSet-Cookie: SID=hint\r\n\r\nHTTP/1.1 100 \r\n\r\nHTTP/1.1 200 OK\r\n",
];

// The head of these parts, and one byte more.
fn head_of(alloc: Global, front: &[u8], fields: &[u8]) -> Result<Vec<u8>, AllocError> {
    let mut head = Vec::new(alloc);
    head.extend_from_slice(front)?;
    head.extend_from_slice(fields)?;
    head.extend_from_slice(b"\r\n\n")?;
    Ok(head)
}

// Whether this answer of a whole head and one byte more teaches the value, as its head alone does, and no piece of that; and whether it is
// unfinished exactly up to the end of its head.
fn teaches(answer: &[u8], value: Option<&[u8]>) -> bool {
    let Some((_, head)) = answer.split_last() else {
        return false;
    };
    if taught(answer, b"SID") != value || taught(head, b"SID") != value || is_unfinished(head) {
        return false;
    }
    for len in 0..head.len() {
        let (piece, _) = head.split_at(len);
        if taught(piece, b"SID").is_some() || !is_unfinished(piece) {
            return false;
        }
    }
    true
}

// RFC 9112, sections 2.2, 4 and 5, and RFC 6265, section 5.2.
#[test]
fn the_last_cookie_that_is_kept_is_taught(rt: HostRuntime) -> Result<(), AllocError> {
    for front in LEADING {
        for (fields, value) in FIELDS {
            let answer = head_of(rt.alloc(), *front, *fields)?;
            assert!(rt;
                teaches(&answer, *value),
                "{} {}",
                front.escape_ascii(),
                fields.escape_ascii()
            );
        }
    }
    Ok(())
}

// What is before the fields of a head that teaches nothing.
const MISLEADING: &[&[u8]] = &[
    b"",
    b"HTTP/2.0 200 OK\r\n",
    b"HTTP/1.1  200 OK\r\n",
    b"HTTP/1.1 2000 OK\r\n",
    b"HTTP/1.1 20 OK\r\n",
    b"HTTP/1. 200 OK\r\n",
    b"http/1.1 200 OK\r\n",
    b" HTTP/1.1 200 OK\r\n",
    b"\r\nHTTP/1.1 200 OK\r\n",
    b"HTTP/1.1 204 No Content\r\n\r\n",
    b"HTTP/1.1 100 Continue\r\n\r\n",
];

// Many lines after a status line, and what they teach of the cookie `x`. The third and the fourth make heads of 16384 and of 16385 bytes.
const MANY: &[(&[u8], &[u8], usize, Option<&[u8]>)] = &[
    (
        b"HTTP/1.1 200 OK\r\n",
        b"Set-Cookie: x=a\r\n",
        500,
        Some(b"a"),
    ),
    (b"HTTP/1.1 200 OK\r\n", b"Set-Cookie: x=a\r\n", 1000, None),
    (
        b"HTTP/1.1 200 OK\r\n",
        b"Set-Cookie:x=a\n",
        1091,
        Some(b"a"),
    ),
    (b"HTTP/1.1 200 OK \r\n", b"Set-Cookie:x=a\n", 1091, None),
    (b"HTTP/1.1 200 OK\r\nSet-Cookie: x=a\r\n", b"n", 16384, None),
    (b"HTTP/1.1 200 OK\r\nSet-Cookie: x=a; ", b"n", 16384, None),
];

#[test]
fn bad_heads_and_long_ones_teach_nothing(rt: HostRuntime) -> Result<(), AllocError> {
    for front in MISLEADING {
        let answer = head_of(rt.alloc(), *front, b"Set-Cookie: SID=a\r\n")?;
        assert!(rt;
            taught(&answer, b"SID").is_none(),
            "{}",
            front.escape_ascii()
        );
    }
    for (front, line, count, value) in MANY {
        let mut lines = Vec::new(rt.alloc());
        for _ in 0..*count {
            lines.extend_from_slice(*line)?;
        }
        let answer = head_of(rt.alloc(), *front, &lines)?;
        let is_as_wanted = taught(&answer, b"x") == *value && !is_unfinished(&answer);
        assert!(rt; is_as_wanted, "{} {count}", front.escape_ascii());
    }
    Ok(())
}

// What the field says, what a browser then sends, the longest text of the table where it has texts, and the key of both.
const KEYS: &[(&str, &str, Option<u16>, &str)] = &[
    ("SID=abcdef; Path=/", "SID=abcdef", Some(4), "abcd"),
    ("SID = \"a b\" ; Secure", "SID=\"a b\"", Some(32), "\"a b\""),
    ("SID=10.0.0.7", "SID=10.0.0.7", None, "10.0.0.7"),
    ("SID=10.0.0.07", "SID=10.0.0.07", None, "-"),
    ("SID=", "SID=", Some(32), "-"),
    ("SID=x; Max-Age=0", "other=x", Some(32), "-"),
];

// The key that an answer with this field teaches, or nothing for another sample than a cookie.
fn taught_text<R: AllocGlobal + Abort>(
    rt: &R,
    sample: KeySample,
    table: TableType,
    field: &str,
) -> String {
    let alloc = rt.alloc();
    let mut line = Vec::from_slice(alloc, b"Set-Cookie: ").expect(rt, "memory");
    line.extend_from_slice(field.as_bytes())
        .expect(rt, "memory");
    let answer = head_of(alloc, b"HTTP/1.1 200 OK\r\n", &line).expect(rt, "memory");
    let found = taught_key(alloc, &StickOn { sample, table }, &answer).expect(rt, "memory");
    let text = match &found {
        TaughtKey::Key(key) => spelled(alloc, Some(key)),
        TaughtKey::Nothing => spelled(alloc, None),
        TaughtKey::Unfinished => String::from_str(alloc, "unfinished"),
    };
    text.expect(rt, "memory")
}

#[test]
fn what_is_taught_is_the_key_of_the_next_request(rt: HostRuntime) {
    for (field, cookie, len, wanted) in KEYS {
        let sample = KeySample::Cookie(text(rt.alloc(), "SID").expect(&rt, "memory"));
        let learned = taught_text(&rt, sample, table_of(*len), *field);
        let sample = KeySample::Cookie(text(rt.alloc(), "SID").expect(&rt, "memory"));
        let sent = key(&rt, sample, table_of(*len), &[("Cookie", *cookie)]);
        assert!(rt;
            learned.as_str() == *wanted && sent.as_str() == *wanted,
            "{field}"
        );
    }
}
