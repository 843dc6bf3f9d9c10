ghost use Rattle.std.specs.Prelude.{◌≡◌};

use lb_desk_model::{Entry, Event, Reply};
use std::marker::Model;

/// What a desk answered to an event: its number in the desk's history, from 0 on, and the reply.
#[derive(Debug, Drop)]
pub struct Told {
    pub number: u64,
    pub reply: Reply,
}

/// The receipt of a call: the number of its event in the desk's history, from 0 on, and copies of the event and the reply.
/// Contracts see it as the number and the entry.
#[derive(Debug, Drop)]
pub struct Receipt {
    number: u64,
    entry: Entry,
}

impl Model for Receipt {
    ghost use Rattle.std.specs.Prelude.{ℕ};
    ghost use Rattle.lb_desk_model.specs.declared.entry.Entry.{Entry};

    ghost Value = { ℕ × Entry };

    ghost view = { λ receipt. (receipt.number, receipt.entry) };
}

impl Receipt {
    ghost use Rattle.lb_desk_ports.specs.Calls.{entry};

    /// The receipt of the event, with what was answered.
    pub(crate) fn of(event: Event, told: Told) -> Receipt
        ensures { result ≡ (told.number, entry event told.reply) }
    {
        let Told { number, reply } = told;
        Receipt {
            number,
            entry: Entry { event, reply },
        }
    }

    /// The number of the event in the desk's history, from 0 on.
    pub fn number(&self) -> u64
        ensures { result ≡ self.now.0 }
    {
        self.number
    }

    /// The event that was asked for.
    pub fn event(&self) -> &Event
        ensures { result.now ≡ self.now.1.event }
    {
        &self.entry.event
    }

    /// What was replied.
    pub fn reply(&self) -> &Reply
        ensures { result.now ≡ self.now.1.reply }
    {
        &self.entry.reply
    }
}
