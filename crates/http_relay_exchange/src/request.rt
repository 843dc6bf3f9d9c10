ghost use Rattle.std.specs.Prelude.{◌≡◌};
ghost use Rattle.http_relay_exchange.specs.Requests.{opening};

use http_relay_forward::BodyKind;
use std::marker::Model;

/// A request on its way to a server.
#[derive(Debug, Drop)]
pub struct Outgoing<'a> {
    head: &'a [u8],
    kind: BodyKind,
    behind: &'a [u8],
    expects_continue: bool,
}

impl<'a> Model for Outgoing<'a> {
    ghost use Rattle.http_relay_exchange.specs.Requests.{OutgoingView};

    ghost Value = { OutgoingView };

    ghost view = { λ request. record {
      head = request.head.now;
      kind = request.kind;
      behind = request.behind.now;
      expects_continue = request.expects_continue;
    } };
}

impl<'a> Outgoing<'a> {
    /// A request with the head that the server gets. `behind` is what was read of the client after its own head, and
    /// `expects_continue` says that the client waits for `100 Continue`.
    pub fn new(head: &'a [u8], kind: BodyKind, behind: &'a [u8], expects_continue: bool) -> Self
        ensures { result ≡ record { head = head.now; kind = kind; behind = behind.now; expects_continue = expects_continue } }
    {
        Outgoing {
            head,
            kind,
            behind,
            expects_continue,
        }
    }

    /// What the server may get with the dial, before `exchange`: the head. It is nothing where the client gets `100 Continue` before
    /// that, or where bytes of a body came with the head, which go out in the same writes.
    pub fn opening(&self) -> &'a [u8]
        ensures { result.now ≡ opening self.now }
    {
        if self.expects_continue || !self.behind.is_empty() {
            return &[];
        }
        self.head
    }

    /// The head that the server gets.
    pub(crate) fn head(&self) -> &'a [u8]
        ensures { result.now ≡ self.now.head }
    {
        self.head
    }

    /// How the end of the body is found.
    pub(crate) fn kind(&self) -> BodyKind
        ensures { result ≡ self.now.kind }
    {
        self.kind
    }

    /// What was read of the client after its head.
    pub(crate) fn behind(&self) -> &'a [u8]
        ensures { result.now ≡ self.now.behind }
    {
        self.behind
    }

    /// Whether the client waits for `100 Continue`.
    pub(crate) fn expects_continue(&self) -> bool
        ensures { result ≡ self.now.expects_continue }
    {
        self.expects_continue
    }
}
