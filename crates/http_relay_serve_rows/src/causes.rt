use crate::site::{
    ANSWERS, BAD_GATEWAY, BROKEN, Call, GATEWAY_TIMEOUT, INTERNAL_SERVER_ERROR, LATE, Owed,
    REQUEST_TIMEOUT, RESPONSE, SERVER, SERVICE_UNAVAILABLE, is_owed, its_server, open_port,
    port_script,
};
use http_relay_dial::DialScript;
use http_relay_serve::{Cause, DropCause, Outcome};
use http_relay_wire::Script;
use lb_desk_model::ServedAs;
use lb_desk_ports::{Asked, Refused, ScriptedOpening};
use lb_types::ServerId;

const POST: &[u8] = b"POST / HTTP/1.1\r\nContent-Length: 2\r\n\r\nhi";

const WAITING: &[u8] = b"POST / HTTP/1.1\r\nContent-Length: 2\r\nExpect: 100-continue\r\n\r\n";

const CONTINUE: &[u8] = b"HTTP/1.1 100 Continue\r\n\r\n";

const SMOOTH: Script<'static> = Script::SMOOTH;

// The first read of a wire fails so, or the second, or the first write.
const READ_BROKEN: Script<'static> = Script {
    failing_read: Some((0, BROKEN)),
    ..SMOOTH
};

const READ_LATE: Script<'static> = Script {
    failing_read: Some((0, LATE)),
    ..SMOOTH
};

const THEN_READ_BROKEN: Script<'static> = Script {
    failing_read: Some((1, BROKEN)),
    ..SMOOTH
};

const THEN_READ_LATE: Script<'static> = Script {
    failing_read: Some((1, LATE)),
    ..SMOOTH
};

const WRITE_BROKEN: Script<'static> = Script {
    failing_write: Some((0, BROKEN)),
    ..SMOOTH
};

const WRITE_LATE: Script<'static> = Script {
    failing_write: Some((0, LATE)),
    ..SMOOTH
};

// The first write to a wire takes so many bytes, and the next one comes too late. Of a good request the server gets 57 bytes of head
// and 2 of body.
const TAKES_56: Script<'static> = Script {
    most_written: 56,
    failing_write: Some((1, LATE)),
    ..SMOOTH
};

const TAKES_57: Script<'static> = Script {
    most_written: 57,
    failing_write: Some((1, LATE)),
    ..SMOOTH
};

// What the client sends, how its wire behaves, how the server does, the outcome, and what the client gets.
type Row = (
    &'static [u8],
    Script<'static>,
    DialScript<'static>,
    Outcome,
    &'static [u8],
);

const ROWS: &[Row] = &[
    // A good request to which the server gives no response.
    (
        POST,
        SMOOTH,
        Err(LATE),
        Outcome::Answered(Cause::NotDialled(LATE)),
        SERVICE_UNAVAILABLE,
    ),
    (
        POST,
        SMOOTH,
        Ok((RESPONSE, WRITE_BROKEN)),
        Outcome::Answered(Cause::HeadNotTaken(BROKEN)),
        BAD_GATEWAY,
    ),
    (
        POST,
        SMOOTH,
        Ok((RESPONSE, TAKES_56)),
        Outcome::Answered(Cause::HeadNotTaken(LATE)),
        BAD_GATEWAY,
    ),
    (
        POST,
        SMOOTH,
        Ok((RESPONSE, TAKES_57)),
        Outcome::Answered(Cause::BodyNotTaken(LATE)),
        BAD_GATEWAY,
    ),
    (
        POST,
        SMOOTH,
        Ok((b"", SMOOTH)),
        Outcome::Answered(Cause::NoResponse),
        BAD_GATEWAY,
    ),
    (
        POST,
        SMOOTH,
        Ok((RESPONSE, READ_BROKEN)),
        Outcome::Answered(Cause::ResponseBroken),
        BAD_GATEWAY,
    ),
    (
        POST,
        SMOOTH,
        Ok((RESPONSE, READ_LATE)),
        Outcome::Answered(Cause::ResponseTimedOut),
        GATEWAY_TIMEOUT,
    ),
    // A client that is too slow with its head, and clients that get nothing more, with what they got before.
    (
        POST,
        READ_LATE,
        ANSWERS,
        Outcome::Answered(Cause::HeadTimedOut),
        REQUEST_TIMEOUT,
    ),
    (
        POST,
        READ_BROKEN,
        ANSWERS,
        Outcome::Dropped(DropCause::HeadBroken),
        b"",
    ),
    (
        WAITING,
        WRITE_BROKEN,
        ANSWERS,
        Outcome::Dropped(DropCause::ContinueNotTaken(BROKEN)),
        b"",
    ),
    (
        WAITING,
        THEN_READ_LATE,
        ANSWERS,
        Outcome::Dropped(DropCause::BodyNotRead(LATE)),
        CONTINUE,
    ),
    (
        POST,
        SMOOTH,
        Ok((RESPONSE, THEN_READ_BROKEN)),
        Outcome::Dropped(DropCause::ResponseCutShort(BROKEN)),
        RESPONSE,
    ),
    (
        POST,
        WRITE_LATE,
        ANSWERS,
        Outcome::Dropped(DropCause::ResponseNotTaken(LATE)),
        b"",
    ),
    (
        b"GET /\r\n\r\n",
        WRITE_BROKEN,
        ANSWERS,
        Outcome::Dropped(DropCause::AnswerNotTaken(Cause::BadHead, BROKEN)),
        b"",
    ),
];

// The connection that was got is given back in each case.
#[test]
fn requests_end_as_their_wires_say(rt: HostRuntime) {
    for (input, client, server, outcome, got) in ROWS {
        let call = Call {
            is_taken: true,
            is_tagged: false,
            input,
            client: *client,
            port: open_port(),
            server: *server,
        };
        let owed = Owed {
            outcome: *outcome,
            got,
            sent: None,
            faults: None,
        };
        assert!(rt; is_owed(&rt, rt.alloc(), &call, &owed), "{outcome:?}");
    }
}

// Whether the backend takes the head, what it answers, the openings of its connections, which of its calls is refused, the cause, and
// what the client gets.
type Unconnected = (
    bool,
    Asked,
    &'static [ScriptedOpening],
    Option<(u64, Refused)>,
    Cause,
    &'static [u8],
);

// A good request for which there is no connection.
#[test]
fn requests_without_a_connection_are_answered(rt: HostRuntime) {
    let other = Asked::Served(ServerId::new(SERVER + 1), ServedAs::Made);
    let rows: &[Unconnected] = &[
        (
            true,
            its_server(),
            &[],
            Some((0, Refused::Memory)),
            Cause::RequestRefused(Refused::Memory),
            INTERNAL_SERVER_ERROR,
        ),
        (
            true,
            its_server(),
            &[],
            Some((1, Refused::Worn)),
            Cause::RequestRefused(Refused::Worn),
            INTERNAL_SERVER_ERROR,
        ),
        (
            true,
            Asked::NoSuchServer,
            &[],
            None,
            Cause::NoSuchServer,
            INTERNAL_SERVER_ERROR,
        ),
        (
            true,
            other,
            &[],
            None,
            Cause::UnknownServer,
            INTERNAL_SERVER_ERROR,
        ),
        (
            true,
            its_server(),
            &[],
            Some((2, Refused::Worn)),
            Cause::OpenRefused(Refused::Worn),
            INTERNAL_SERVER_ERROR,
        ),
        (
            true,
            Asked::NoServer,
            &[],
            None,
            Cause::NoServer,
            SERVICE_UNAVAILABLE,
        ),
        (
            true,
            its_server(),
            &[ScriptedOpening::NotServing],
            None,
            Cause::NotServing,
            SERVICE_UNAVAILABLE,
        ),
        (
            true,
            its_server(),
            &[ScriptedOpening::Full],
            None,
            Cause::QueueOver,
            SERVICE_UNAVAILABLE,
        ),
        (
            false,
            its_server(),
            &[],
            None,
            Cause::NoBackend,
            SERVICE_UNAVAILABLE,
        ),
    ];
    for (is_taken, asked, openings, refusing, cause, got) in rows {
        let call = Call {
            is_taken: *is_taken,
            is_tagged: false,
            input: POST,
            client: Script::SMOOTH,
            port: port_script(*asked, openings, *refusing),
            server: ANSWERS,
        };
        // Where no backend takes the head nobody is asked.
        let owed = Owed {
            outcome: Outcome::Answered(*cause),
            got,
            sent: if *is_taken { None } else { Some(b"") },
            faults: None,
        };
        assert!(rt; is_owed(&rt, rt.alloc(), &call, &owed), "{cause:?}");
    }
}
