//! Farms that are made up: some servers are off, the pins of each group may go to servers near their own, and the room is
//! dealt unevenly.

use crate::planning::dice::Dice;
use anyhow::{Context, Result, bail};
use lb_types::{Place, ServerId, ServerSet};
use lb_types_pins::PinKind;
use std::alloc::{AllocError, Global};

/// How large a farm is, and what it is like.
#[derive(Clone, Copy)]
pub(crate) struct Farm {
    pub(crate) servers: u32,
    pub(crate) groups: u32,
    pub(crate) pins: u32,
    /// How many of the servers are off. They lie apart.
    pub(crate) off: u32,
    /// How much room the others have together, in percent of the pins.
    pub(crate) room: u32,
    /// Pins may go to some of so many servers, from their own on.
    pub(crate) reach: u32,
    /// The most that a move costs, at most 1000.
    pub(crate) cost: u32,
    pub(crate) seed: u32,
}

/// How often kinds of pins are drawn again where some were drawn before.
const ROUNDS: u32 = 64;

impl Farm {
    /// The farm that the words say: a number for each field, in their order.
    pub(crate) fn read(words: &[&str]) -> Result<Farm> {
        Ok(Farm {
            servers: number(words, 0, "servers")?,
            groups: number(words, 1, "groups")?,
            pins: number(words, 2, "pins")?,
            off: number(words, 3, "servers that are off")?,
            room: number(words, 4, "room, in percent of the pins")?,
            reach: number(words, 5, "servers that a pin may go to")?,
            cost: number(words, 6, "most cost of a move")?,
            seed: number(words, 7, "seed")?,
        })
    }

    /// The text of the farm's sheet.
    pub(crate) fn text(&self, alloc: Global) -> Result<String> {
        let mut dice = Dice::new(u64::from(self.seed));
        let kinds = self.kinds(alloc, &mut dice)?;
        let mut text = String::new(alloc);
        self.add_sheet(alloc, &mut text, &kinds, &mut dice)?;
        Ok(text)
    }

    fn add_sheet(
        &self,
        alloc: Global,
        text: &mut String,
        kinds: &[PinKind],
        dice: &mut Dice,
    ) -> Result<()> {
        let has_costs = kinds.iter().any(|kind| kind.cost != 1);
        text.push_str(if has_costs {
            "stickysheet 2\nversion 1\n"
        } else {
            "stickysheet 1\nversion 1\n"
        })?;
        self.add_servers(alloc, text, dice)?;
        self.add_groups(alloc, text, kinds, has_costs, dice)?;
        text.push_str("end\n")?;
        Ok(())
    }

    /// As many kinds of pins as the sheet must have groups, all unlike, in rising order.
    fn kinds(&self, alloc: Global, dice: &mut Dice) -> Result<Vec<PinKind>> {
        let wanted = self.groups as usize;
        let mut kinds = Vec::with_capacity(alloc, wanted)?;
        for _ in 0..ROUNDS {
            self.draw(&mut kinds, wanted, dice)?;
            kinds.sort_unstable();
            kinds.dedup();
            if kinds.len() == wanted {
                return Ok(kinds);
            }
        }
        bail!("there are not so many kinds of pins")
    }

    /// Draws kinds until there are so many, alike or not.
    fn draw(&self, kinds: &mut Vec<PinKind>, wanted: usize, dice: &mut Dice) -> Result<()> {
        for _ in kinds.len()..wanted {
            let place = dice.roll(self.servers);
            let permitted = self.near(place, dice);
            let cost = (dice.roll(self.cost) % 1000 + 1) as u16;
            add_kind(kinds, place, permitted, cost)?;
        }
        Ok(())
    }

    /// About half of the servers that are on, from one on as far as pins reach.
    fn near(&self, place: u32, dice: &mut Dice) -> ServerSet {
        let mut servers = ServerSet::empty();
        for step in 0..self.reach {
            let server = self.server_behind(place, step);
            if !self.is_off(server) && dice.roll(2) == 0 {
                servers = servers.with(server_id(server));
            }
        }
        servers
    }

    /// The server so many steps after another one, in a ring.
    fn server_behind(&self, server: u32, steps: u32) -> u32 {
        server
            .saturating_add(steps)
            .checked_rem(self.servers)
            .unwrap_or(0)
    }

    /// Whether the server is off. The servers that must be off lie equally far apart.
    fn is_off(&self, server: u32) -> bool {
        let before = self.off_before(server);
        before != self.off_before(server.saturating_add(1))
    }

    fn off_before(&self, server: u32) -> u32 {
        server
            .saturating_mul(self.off)
            .checked_div(self.servers)
            .unwrap_or(0)
    }

    /// From 70 to 130 shares of the room for each server that is on.
    fn shares(&self, alloc: Global, dice: &mut Dice) -> Result<Vec<u32>, AllocError> {
        let mut shares = Vec::new(alloc);
        for server in 0..self.servers {
            let share = if self.is_off(server) {
                0
            } else {
                dice.roll(61).saturating_add(70)
            };
            shares.push(share)?;
        }
        Ok(shares)
    }

    /// The lines of the servers.
    fn add_servers(&self, alloc: Global, text: &mut String, dice: &mut Dice) -> Result<()> {
        let shares = self.shares(alloc, dice)?;
        let room = u64::from(self.pins).saturating_mul(u64::from(self.room)) / 100;
        let all = shares
            .iter()
            .fold(0u32, |sum, share| sum.saturating_add(*share));
        for (server, share) in shares.iter().enumerate() {
            text.push_str(&server_line(alloc, server, *share, room, all)?)?;
        }
        Ok(())
    }

    /// The lines of the groups. Each has from half to one and a half times as many pins as an even share, as long as there
    /// are enough for one in each. The last one has all that are left.
    fn add_groups(
        &self,
        alloc: Global,
        text: &mut String,
        kinds: &[PinKind],
        has_costs: bool,
        dice: &mut Dice,
    ) -> Result<()> {
        let mut pins = self.pins;
        let mut groups = self.groups;
        for kind in kinds {
            let count = dealt(pins, groups, dice);
            pins = pins.saturating_sub(count);
            groups = groups.saturating_sub(1);
            self.add_group(alloc, text, kind, count, has_costs)?;
        }
        Ok(())
    }

    fn add_group(
        &self,
        alloc: Global,
        text: &mut String,
        kind: &PinKind,
        count: u32,
        has_costs: bool,
    ) -> Result<()> {
        text.push_str(&count_and_place(alloc, count, kind.place)?)?;
        self.add_set(alloc, text, kind.permitted)?;
        if has_costs {
            text.push_str(&format!(in alloc; " {}", kind.cost)?)?;
        }
        text.push('\n')?;
        Ok(())
    }

    /// The names of the servers, or `-`.
    fn add_set(&self, alloc: Global, text: &mut String, servers: ServerSet) -> Result<()> {
        if servers.is_empty() {
            text.push('-')?;
            return Ok(());
        }
        let mut is_first = true;
        for server in 0..self.servers {
            if servers.has(server_id(server)) {
                text.push_str(if is_first { "s" } else { ",s" })?;
                text.push_str(&format!(in alloc; "{server}")?)?;
                is_first = false;
            }
        }
        Ok(())
    }
}

/// The number that stands as this word.
fn number(words: &[&str], place: usize, what: &'static str) -> Result<u32> {
    let word = words.get(place).context(what)?;
    Ok(word.parse().context(what)?)
}

fn add_kind(
    kinds: &mut Vec<PinKind>,
    place: u32,
    permitted: ServerSet,
    cost: u16,
) -> Result<(), AllocError> {
    kinds.push(PinKind {
        place: Some(server_id(place)),
        permitted,
        cost,
    })?;
    Ok(())
}

fn server_id(number: u32) -> ServerId {
    ServerId::new((number % 128) as u8)
}

fn count_and_place(alloc: Global, count: u32, place: Place) -> Result<String, AllocError> {
    match place {
        Some(server) => format!(in alloc; "group {count} s{} ", server.index()),
        None => format!(in alloc; "group {count} - "),
    }
}

/// The line of a server that has so many of all shares of the room, and is off where it has none.
fn server_line(alloc: Global, server: usize, share: u32, room: u64, all: u32) -> Result<String> {
    if share == 0 {
        return Ok(format!(in alloc; "server s{server} off\n")?);
    }
    let capacity = room
        .saturating_mul(u64::from(share))
        .checked_div(u64::from(all))
        .unwrap_or(0);
    Ok(format!(in alloc; "server s{server} cap {capacity}\n")?)
}

/// How many of the pins the first of so many groups gets.
fn dealt(pins: u32, groups: u32, dice: &mut Dice) -> u32 {
    if groups <= 1 {
        return pins;
    }
    let even = pins.checked_div(groups).unwrap_or(0);
    let half = even / 2;
    half.saturating_add(dice.roll(even.saturating_add(1)))
        .max(1)
}
