//! What is asked of a desk, made up for one backend.

use crate::dice::Dice;
use lb_desk_model::{Request, RuleList};
use lb_types::{Moment, ServerId};
use pin_set::{KeyText, PinKey};
use server_state::{AdminState, Change, Setting};
use std::alloc::{AllocError, Global};
use std::net::Ipv4Addr;

/// Draws requests, servers and changes.
#[derive(Debug, Drop)]
pub(crate) struct Events {
    dice: Dice,
    servers: u32,
    /// The most that it costs to move a pin, at most 1000.
    costs: u32,
    moment: u64,
}

impl Events {
    /// For a backend of so many servers. Moves of pins cost at most so much.
    pub(crate) fn new(seed: u64, servers: usize, costs: u32) -> Self {
        Events {
            dice: Dice::new(seed),
            servers: (servers % 256) as u32,
            costs: costs.min(1000),
            moment: 0,
        }
    }

    /// The dice, for draws beside those of events.
    pub(crate) fn dice(&mut self) -> &mut Dice {
        &mut self.dice
    }

    /// A request with one of eight keys, or with none.
    pub(crate) fn request(&mut self, alloc: Global) -> Result<Request, AllocError> {
        self.moment = self.moment.saturating_add(u64::from(self.dice.roll(30)));
        Ok(Request {
            key: self.key(alloc)?,
            rules: RuleList::new(self.rules(alloc)?),
            cost: (self.dice.roll(self.costs) % 1000 + 1) as u16,
            moment: self.some_moment(),
        })
    }

    /// A server, of which few don't exist.
    pub(crate) fn server(&mut self) -> ServerId {
        let beyond = if self.dice.is_one_in(30) { 2 } else { 0 };
        let number = self.dice.roll(self.servers.saturating_add(beyond));
        ServerId::new((number % 128) as u8)
    }

    fn key(&mut self, alloc: Global) -> Result<Option<PinKey>, AllocError> {
        if self.dice.is_one_in(12) {
            return Ok(None);
        }
        let number = self.dice.roll(8);
        if number == 7 {
            return Ok(Some(PinKey::Ipv4(Ipv4Addr::from_bits(number))));
        }
        let text = KeyText::copied_from(alloc, &[b'k', (number % 8) as u8])?;
        Ok(Some(PinKey::Text(text)))
    }

    /// Most requests have no rule, some have one or more.
    fn rules(&mut self, alloc: Global) -> Result<Vec<ServerId>, AllocError> {
        let mut rules = Vec::new(alloc);
        let count = self.dice.roll(16).saturating_sub(12);
        for _ in 0..count {
            rules.push(self.server())?;
        }
        Ok(rules)
    }

    /// The moment now, or one before it.
    fn some_moment(&mut self) -> Moment {
        let before = if self.dice.is_one_in(5) {
            self.dice.roll(100)
        } else {
            0
        };
        Moment::from_millis(self.moment.saturating_sub(u64::from(before)))
    }

    /// A change to a server, of which few are refused.
    pub(crate) fn change(&mut self) -> Change {
        let setting = self.setting();
        Change {
            server: self.server(),
            setting,
        }
    }

    fn setting(&mut self) -> Setting {
        match self.dice.roll(10) {
            0 => Setting::Admin(AdminState::Maint),
            1 => Setting::Admin(AdminState::Drain),
            2 | 3 | 4 | 5 => Setting::Admin(AdminState::Ready),
            6 => Setting::Health(!self.dice.is_one_in(4)),
            7 => Setting::Weight(self.number(4, 257)),
            8 => Setting::MaxConnections(self.number(3, 1 << 32)),
            _ => Setting::MaxPins(self.number(9, 16_777_217)),
        }
    }

    /// A number below the sides, or now and then one that is out of range.
    fn number(&mut self, sides: u32, beyond: u64) -> u64 {
        if self.dice.is_one_in(8) {
            return beyond;
        }
        u64::from(self.dice.roll(sides))
    }
}
