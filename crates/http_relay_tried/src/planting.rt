//! Rounds that are served otherwise than the model assumes, to see whether the comparison finds this.

use crate::round::Round;
use crate::site::Place;
use lb_acl::{KeyLen, TableType};
use std::net::Ipv4Addr;

/// What is otherwise where the round is served.
#[derive(Clone, Copy, Debug)]
pub(crate) enum Plant {
    /// The client's last byte doesn't come.
    LostByte,
    /// The first byte after the head is another one.
    OtherByte,
    /// The response's last byte doesn't come.
    ShortResponse,
    /// The server takes a byte less, where it doesn't take all.
    LessTaken,
    /// The client's address is forwarded where it shouldn't be, and not where it should.
    Forwarding,
    /// The client comes from another address.
    OtherSource,
    /// Keys are cut after their first byte.
    ShortKeys,
    /// The servers listen at other ports.
    OtherPorts,
    /// A request that waits for a connection gives up at once.
    NoQueue,
    /// The clock is a millisecond ahead.
    LaterMoment,
    /// No answer teaches anything.
    NoLessons,
}

/// All of them.
pub(crate) const PLANTS: [Plant; 11] = [
    Plant::LostByte,
    Plant::OtherByte,
    Plant::ShortResponse,
    Plant::LessTaken,
    Plant::Forwarding,
    Plant::OtherSource,
    Plant::ShortKeys,
    Plant::OtherPorts,
    Plant::NoQueue,
    Plant::LaterMoment,
    Plant::NoLessons,
];

impl Plant {
    /// Changes the round so.
    pub(crate) fn change(self, round: &mut Round) {
        match self {
            Plant::LostByte => round.client.sends = round.came().saturating_sub(1),
            Plant::OtherByte => {
                if let Some(byte) = round.input.get_mut(round.text.bytes.len()) {
                    *byte ^= 1;
                }
            }
            Plant::ShortResponse => {
                let _ = round.response.bytes.pop();
            }
            Plant::LessTaken => {
                if let Ok(server) = &mut round.dial {
                    if server.takes < usize::MAX {
                        server.takes = server.takes.saturating_sub(1);
                    }
                }
            }
            Plant::OtherSource => round.address = Ipv4Addr::new(1, 2, 3, 4),
            Plant::LaterMoment => round.start = round.start.saturating_add(1),
            Plant::Forwarding
            | Plant::ShortKeys
            | Plant::OtherPorts
            | Plant::NoQueue
            | Plant::NoLessons => {
                self.change_place(&mut round.site.first);
                self.change_place(&mut round.site.second);
            }
        }
    }

    /// Changes a backend so.
    fn change_place(self, place: &mut Place) {
        match self {
            Plant::Forwarding => place.forwards_address = !place.forwards_address,
            Plant::ShortKeys => place.pattern.table = TableType::Text(KeyLen::new(1)),
            Plant::OtherPorts => place.target.endpoint.port ^= 1,
            Plant::NoQueue => place.target.queue = Some(0),
            Plant::NoLessons => place.learns = false,
            _ => {}
        }
    }
}
