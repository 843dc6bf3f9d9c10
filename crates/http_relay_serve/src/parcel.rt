ghost use Rattle.std.specs.Prelude.{◌≡◌, ◌+◌, ◌≤◌, length};
ghost use Rattle.std.specs.Vec.{vec_len, vec_capacity};

use http_relay_exchange::Outgoing;
use http_relay_forward::BodyKind;
use std::marker::Model;

/// A request on its way to a server that owns its bytes, for one that waits before it is sent.
#[derive(Debug, Drop)]
pub struct Parcel {
    /// The head that the server gets, and what was read after the client's head.
    bytes: Vec<u8>,
    /// How many bytes are the head.
    head: usize,
    kind: BodyKind,
    expects_continue: bool,
}

impl Model for Parcel {
    ghost use Rattle.std.specs.Prelude.{◌≤◌, length, take, drop};
    ghost use Rattle.http_relay_exchange.specs.Requests.{OutgoingView};

    ghost Value = { OutgoingView };

    ghost view = { λ parcel. record {
      head = take parcel.head parcel.bytes.items;
      kind = parcel.kind;
      behind = drop parcel.head parcel.bytes.items;
      expects_continue = parcel.expects_continue;
    } };

    ghost invariant = { λ parcel. parcel.head ≤ length parcel.bytes.items };
}

impl Parcel {
    /// A request as `Outgoing::new` makes it. What was read after the client's head is copied to the end of the head, where there has to
    /// be room for it, so that this asks for no memory.
    pub(crate) fn new(head: Vec<u8>, kind: BodyKind, behind: &[u8], expects_continue: bool) -> Self
        requires { vec_len head + length behind.now ≤ vec_capacity head }
        ensures { result ≡ record { head = head.items; kind = kind; behind = behind.now; expects_continue = expects_continue } }
    {
        let count = head.len();
        let mut bytes = head;
        match bytes.extend_from_slice(behind) {
            Ok(()) => Parcel {
                bytes,
                head: count,
                kind,
                expects_continue,
            },
            Err(_) => unreachable!(),
        }
    }

    /// The request as it is sent.
    pub(crate) fn outgoing(&self) -> Outgoing<'_>
        ensures { result ≡ self.now }
    {
        Outgoing::new(
            &self.bytes[..self.head],
            self.kind,
            &self.bytes[self.head..],
            self.expects_continue,
        )
    }
}
