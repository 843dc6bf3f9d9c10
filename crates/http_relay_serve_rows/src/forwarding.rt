use http_relay_forward::{BodyKind, body_kind, expects_continue, rewrite};
use lb_acl::{Field, Head, Version};
use std::net::Ipv4Addr;

// A version, the fields, whether the client's address is added, the forwarded form, the body, and whether the client asks for leave
// to send a body that has bytes.
type Row<'a> = (
    Version,
    &'a [Field<'a>],
    bool,
    &'static [u8],
    BodyKind,
    bool,
);

// The values have blanks round them, which the reading of a head takes away. Fields of one connection are not passed on, and the
// address of the client is added where it is asked for. Equal lengths go out as they came, and only the whole value of `Expect` asks
// for leave.
#[test]
fn heads_and_their_forwarded_form(rt: HostRuntime) {
    let rows: &[Row<'_>] = &[
        (
            Version::Http11,
            &[
                Field::new(b"Host", b" x\t"),
                Field::new(b"Connection", b"keep-alive, X-Foo"),
                Field::new(b"x-foo", b"1"),
                Field::new(b"X-Foo-Bar", b""),
                Field::new(b"EXPECT", b"100-continue"),
                Field::new(b"connection", b"\tclose ,,X-Forwarded-For"),
                Field::new(b"Keep-Alive", b"5"),
                Field::new(b"X-Forwarded-For", b"1.2.3.4"),
                Field::new(b"Close", b"1"),
                Field::new(b"Host", b"y"),
            ],
            true,
            b"post * HTTP/1.1\r\nHost: x\r\nX-Foo-Bar: \r\nHost: y\r\nConnection: close\r\nX-Forwarded-For: 10.0.0.7\r\n\r\n",
            BodyKind::Empty,
            true,
        ),
        (
            Version::Http11,
            &[
                Field::new(b"Content-Length", b"003"),
                Field::new(b"content-length", b" 3"),
            ],
            false,
            b"post * HTTP/1.1\r\nContent-Length: 003\r\ncontent-length: 3\r\nConnection: close\r\n\r\n",
            BodyKind::Length(3),
            false,
        ),
        (
            Version::Http10,
            &[
                Field::new(b"content-length", b" 010 "),
                Field::new(b"Expect", b"100-continue"),
            ],
            false,
            b"post * HTTP/1.0\r\ncontent-length: 010\r\nConnection: close\r\n\r\n",
            BodyKind::Length(10),
            false,
        ),
        (
            Version::Http11,
            &[Field::new(b"Expect", b" 100-Continue ")],
            false,
            b"post * HTTP/1.1\r\nConnection: close\r\n\r\n",
            BodyKind::Empty,
            true,
        ),
        (
            Version::Http11,
            &[
                Field::new(b"Expect", b"100-continue, x"),
                Field::new(b"Expected", b"100-continue"),
            ],
            false,
            b"post * HTTP/1.1\r\nExpected: 100-continue\r\nConnection: close\r\n\r\n",
            BodyKind::Empty,
            false,
        ),
    ];
    for (version, fields, is_tagged, sent, kind, asks) in rows {
        let head = Head::new(b"post", b"*", *version, fields, Ipv4Addr::new(10, 0, 0, 7));
        let text = rewrite(rt.alloc(), &head, *is_tagged).expect(&rt, "memory");
        assert!(rt;
            text.as_slice() == *sent
                && body_kind(&head) == Ok(*kind)
                && expects_continue(&head, BodyKind::Chunked) == *asks
                && expects_continue(&head, BodyKind::Length(1)) == *asks
                && !expects_continue(&head, BodyKind::Length(0))
                && !expects_continue(&head, BodyKind::Empty),
            "{sent:?}"
        );
    }
}
