use crate::site::{
    ANSWERS, BAD_GATEWAY, BAD_REQUEST, BROKEN, Call, LATE, Owed, REQUEST_TIMEOUT, RESPONSE,
    is_owed, open_port,
};
use http_relay_serve::{Cause, DropCause, Outcome};
use http_relay_wire::{FaultCounts, Script, WireFault};
use std::alloc::Global;
use std::process::Abort;

/// A chunked upload: 99 bytes of head and 27 of body.
const UPLOAD: &[u8] =
    b"POST /up HTTP/1.1\r\nHost: x\r\nConnection: keep-alive, X-Foo\r\nX-Foo: 1\r\nTransfer-Encoding: chunked\r\n\r\n10\r\n0123456789abcdef\r\n0\r\n\r\n";

/// What the server gets of it: 77 bytes of head and the same body.
const SENT: &[u8] =
    b"POST /up HTTP/1.1\r\nHost: x\r\nTransfer-Encoding: chunked\r\nConnection: close\r\n\r\n10\r\n0123456789abcdef\r\n0\r\n\r\n";

/// The bytes of the upload's head.
const HEAD: usize = 99;

// How many bytes the server gets where so many come of the upload. It gets none before its head is whole, then the head, and of the
// body the lines that are whole and the data that came. The body's lines end at its bytes 4, 22, 25 and 27, its data at 20.
fn sent_of(came: usize) -> usize {
    match came {
        0..99 => 0,
        99..103 => 77,
        103 => 81,
        104..120 => came - 22,
        120 => 97,
        121..124 => 99,
        124 | 125 => 102,
        _ => 104,
    }
}

// What is owed where so many bytes come and the client then ends, or a read fails so: the outcome, and what the client gets.
fn owed_at(came: usize, fault: Option<WireFault>) -> (Outcome, &'static [u8]) {
    let in_head = came < HEAD;
    match fault {
        _ if came == UPLOAD.len() => (Outcome::Relayed, RESPONSE),
        None if in_head => (Outcome::Answered(Cause::HeadCutShort), BAD_REQUEST),
        None => (Outcome::Answered(Cause::BodyCutShort), BAD_REQUEST),
        Some(WireFault::Timeout) if in_head => {
            (Outcome::Answered(Cause::HeadTimedOut), REQUEST_TIMEOUT)
        }
        Some(WireFault::Broken) if in_head => (Outcome::Dropped(DropCause::HeadBroken), b""),
        Some(fault) => (Outcome::Dropped(DropCause::BodyNotRead(fault)), b""),
    }
}

const UNFAILED: FaultCounts = FaultCounts {
    reads_timed_out: 0,
    reads_broken: 0,
    writes_timed_out: 0,
    writes_broken: 0,
};

// The counts of a wire that failed once in reading.
const fn one_read(fault: WireFault) -> FaultCounts {
    match fault {
        WireFault::Timeout => FaultCounts {
            reads_timed_out: 1,
            ..UNFAILED
        },
        WireFault::Broken => FaultCounts {
            reads_broken: 1,
            ..UNFAILED
        },
    }
}

// The counts of a wire that failed once in writing.
const fn one_write(fault: WireFault) -> FaultCounts {
    match fault {
        WireFault::Timeout => FaultCounts {
            writes_timed_out: 1,
            ..UNFAILED
        },
        WireFault::Broken => FaultCounts {
            writes_broken: 1,
            ..UNFAILED
        },
    }
}

// The client ends, times out or breaks after each of its bytes.
#[test]
fn an_upload_is_cut_at_every_byte(rt: HostRuntime) {
    for fault in [None, Some(LATE), Some(BROKEN)] {
        for came in 0..=UPLOAD.len() {
            let client = match fault {
                None => Script::SMOOTH,
                Some(fault) => Script {
                    pieces: &[1],
                    failing_read: Some((came as u64, fault)),
                    ..Script::SMOOTH
                },
            };
            let (outcome, got) = owed_at(came, fault);
            let (sent, _) = SENT.split_at(sent_of(came).min(SENT.len()));
            let counts = match fault {
                Some(fault) if came < UPLOAD.len() => one_read(fault),
                _ => UNFAILED,
            };
            let owed = Owed {
                outcome,
                got,
                sent: Some(sent),
                faults: Some((counts, UNFAILED)),
            };
            let (front, _) = UPLOAD.split_at(came);
            let call = Call {
                is_taken: true,
                is_tagged: false,
                input: front,
                client,
                port: open_port(),
                server: ANSWERS,
            };
            assert!(rt;
                is_owed(&rt, rt.alloc(), &call, &owed),
                "{fault:?} behind byte {came}"
            );
        }
    }
}

// Whether the upload is relayed that comes in these pieces.
fn is_relayed<R: Abort>(rt: &R, alloc: Global, pieces: &[usize]) -> bool {
    let client = Script {
        pieces,
        ..Script::SMOOTH
    };
    let call = Call {
        is_taken: true,
        is_tagged: false,
        input: UPLOAD,
        client,
        port: open_port(),
        server: ANSWERS,
    };
    let owed = Owed {
        outcome: Outcome::Relayed,
        got: RESPONSE,
        sent: Some(SENT),
        faults: Some((UNFAILED, UNFAILED)),
    };
    is_owed(rt, alloc, &call, &owed)
}

#[test]
fn an_upload_comes_in_two_pieces_cut_at_every_byte(rt: HostRuntime) {
    for at in 1..UPLOAD.len() {
        assert!(rt; is_relayed(&rt, rt.alloc(), &[at, 1000]), "cut at {at}");
    }
}

// What is owed where the server takes so many bytes and then fails so.
fn owed_behind(taken: usize, fault: WireFault) -> (Outcome, &'static [u8], FaultCounts) {
    match taken {
        0..77 => (
            Outcome::Answered(Cause::HeadNotTaken(fault)),
            BAD_GATEWAY,
            one_write(fault),
        ),
        77..104 => (
            Outcome::Answered(Cause::BodyNotTaken(fault)),
            BAD_GATEWAY,
            one_write(fault),
        ),
        _ => (Outcome::Relayed, RESPONSE, UNFAILED),
    }
}

// The request goes out byte by byte, in 104 writes: before the failing one as many bytes went out as there were writes.
#[test]
fn each_write_to_the_server_fails_in_turn(rt: HostRuntime) {
    for fault in [LATE, BROKEN] {
        for taken in 0..=SENT.len() {
            let server = Script {
                most_written: 1,
                failing_write: Some((taken as u64, fault)),
                ..Script::SMOOTH
            };
            let (outcome, got, counts) = owed_behind(taken, fault);
            let (sent, _) = SENT.split_at(taken);
            let owed = Owed {
                outcome,
                got,
                sent: Some(sent),
                faults: Some((UNFAILED, counts)),
            };
            let call = Call {
                is_taken: true,
                is_tagged: false,
                input: UPLOAD,
                client: Script::SMOOTH,
                port: open_port(),
                server: Ok((RESPONSE, server)),
            };
            assert!(rt;
                is_owed(&rt, rt.alloc(), &call, &owed),
                "{fault:?} behind write {taken}"
            );
        }
    }
}
