use crate::site::{ANSWERS, BAD_REQUEST, Call, Owed, RESPONSE, is_owed, open_port};
use http_relay_head::HEAD_ROOM;
use http_relay_serve::{Cause, Outcome};
use http_relay_wire::Script;

const LONG: &[u8] = &[b'a'; HEAD_ROOM];

// What the client sends, the outcome, and what the server gets and the client. Nobody is asked where the server gets nothing.
type Row = (&'static [u8], Outcome, &'static [u8], &'static [u8]);

const ROWS: &[Row] = &[
    (
        b"GET /i HTTP/1.0\r\nX-A: 1\r\n\r\n",
        Outcome::Relayed,
        b"GET /i HTTP/1.0\r\nX-A: 1\r\nConnection: close\r\nX-Forwarded-For: 10.0.0.7\r\n\r\n",
        RESPONSE,
    ),
    (
        b"POST /e HTTP/1.1\r\nHost: x\r\nExpect: 100-continue\r\nContent-Length: 2\r\n\r\nhi",
        Outcome::Relayed,
        b"POST /e HTTP/1.1\r\nHost: x\r\nContent-Length: 2\r\nConnection: close\r\nX-Forwarded-For: 10.0.0.7\r\n\r\nhi",
        b"HTTP/1.1 100 Continue\r\n\r\nHTTP/1.1 200 OK\r\n\r\nok",
    ),
    // The relay's own answer goes out after its `100 Continue`.
    (
        b"POST /e HTTP/1.1\r\nExpect: 100-continue\r\nContent-Length: 3\r\n\r\nhi",
        Outcome::Answered(Cause::BodyCutShort),
        b"POST /e HTTP/1.1\r\nContent-Length: 3\r\nConnection: close\r\nX-Forwarded-For: 10.0.0.7\r\n\r\nhi",
        b"HTTP/1.1 100 Continue\r\n\r\nHTTP/1.1 400 Bad Request\r\nContent-Length: 0\r\nConnection: close\r\n\r\n",
    ),
    (
        LONG,
        Outcome::Answered(Cause::HeadTooLarge),
        b"",
        BAD_REQUEST,
    ),
    (
        b"GET / HTTP/1.1\r\nConnection: host\r\nHost: x\r\n\r\n",
        Outcome::Answered(Cause::BadHead),
        b"",
        BAD_REQUEST,
    ),
    (
        b"POST / HTTP/1.1\r\nContent-Length: 3\r\nTransfer-Encoding: chunked\r\n\r\n",
        Outcome::Answered(Cause::BothLengths),
        b"",
        BAD_REQUEST,
    ),
    (
        b"GET / HTT",
        Outcome::Answered(Cause::HeadCutShort),
        b"",
        BAD_REQUEST,
    ),
    (
        b"",
        Outcome::Answered(Cause::HeadCutShort),
        b"",
        BAD_REQUEST,
    ),
    (
        b"POST / HTTP/1.1\r\nContent-Length: 3\r\n\r\nhi",
        Outcome::Answered(Cause::BodyCutShort),
        b"POST / HTTP/1.1\r\nContent-Length: 3\r\nConnection: close\r\nX-Forwarded-For: 10.0.0.7\r\n\r\nhi",
        BAD_REQUEST,
    ),
    (
        b"POST / HTTP/1.1\r\nTransfer-Encoding: chunked\r\n\r\nzz\r\n",
        Outcome::Answered(Cause::BadChunk),
        b"POST / HTTP/1.1\r\nTransfer-Encoding: chunked\r\nConnection: close\r\nX-Forwarded-For: 10.0.0.7\r\n\r\n",
        BAD_REQUEST,
    ),
];

// What the server gets, and the client: the answer of the server, or the relay's own.
#[test]
fn requests_end_as_their_bytes_say(rt: HostRuntime) {
    for (input, outcome, sent, got) in ROWS {
        let call = Call {
            is_taken: true,
            is_tagged: true,
            input,
            client: Script::SMOOTH,
            port: open_port(),
            server: ANSWERS,
        };
        let owed = Owed {
            outcome: *outcome,
            got,
            sent: Some(sent),
            faults: None,
        };
        assert!(rt; is_owed(&rt, rt.alloc(), &call, &owed), "{outcome:?}");
    }
}
