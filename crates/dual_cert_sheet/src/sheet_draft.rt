ghost use Rattle.std.specs.Prelude.{◌≡◌, ◌+◌, ◌<◌, ◌≤◌, ◌||◌, ◌==◌, false, not, length, IfOk, OnOk};
ghost use Rattle.lb_types.specs.declared.limits.TheConstants.{MAX_SERVERS};
ghost use Rattle.lb_types_text.specs.Parts.{parts};
ghost use Rattle.dual_cert_plan.specs.Plans.{servers_of};
ghost use Rattle.dual_cert_plan.specs.Sheets.{IsSheet};
ghost use Rattle.dual_cert_text.specs.Faults.{Gives};
ghost use Rattle.dual_cert_text.specs.ServerLines.{server_at};
ghost use Rattle.dual_cert_sheet.specs.SheetTexts.{add_line, add_server, add_group, comes_next, group_of, may_end, next_group};

use crate::group_line::{GroupWords, read_group_words};
use dual_cert_plan::{PricedServer, Server, Sheet};
use dual_cert_text::server_line::read_server;
use dual_cert_text::words::is;
use dual_cert_text::{ReadError, TextFault};
use lb_types::{MAX_COST, MAX_PINS};
use lb_types_pins::{Group, PinKind};
use lb_types_text::Parts;
use std::alloc::{AllocError, Global};
use std::marker::Model;

/// A sheet, as far as its text was read.
#[derive(Debug, Drop)]
pub(crate) struct SheetDraft {
    has_costs: bool,
    version: u64,
    /// Each at no price, since lines of servers and sets are read as in plans.
    servers: Vec<PricedServer>,
    groups: Vec<Group>,
    /// The pins of the groups.
    count: u64,
    /// Some group has a cost other than 1.
    needs_costs: bool,
}

impl Model for SheetDraft {
    ghost use Rattle.dual_cert_plan.specs.Plans.{servers_of};
    ghost use Rattle.dual_cert_sheet.specs.SheetTexts.{SheetDraft as Draft, draft_of};
    ghost use Rattle.dual_cert_sheet.specs.DraftFields.{KeepsTotals};

    ghost Value = { Draft };

    ghost view = { λ d. draft_of d.has_costs d.version (servers_of d.servers.items) d.groups.items };

    ghost invariant = { λ d. KeepsTotals d.servers.items d.groups.items d.count d.needs_costs };
}

impl SheetDraft {
    ghost use Rattle.std.specs.Prelude.{[]};
    ghost use Rattle.dual_cert_sheet.specs.SheetTexts.{draft_of};

    /// The draft of a sheet of which the heading was read.
    pub(crate) fn new(alloc: Global, has_costs: bool, version: u64) -> Self
        ensures { result ≡ draft_of has_costs version [] [] }
    {
        SheetDraft {
            has_costs,
            version,
            servers: Vec::new(alloc),
            groups: Vec::new(alloc),
            count: 0,
            needs_costs: false,
        }
    }

    /// Adds line `number` of the text.
    #[tactic(auto, unfolding(crate::specs::SheetTexts::add_line))]
    pub(crate) fn add_line(&mut self, number: u64, line: &[u8]) -> Result<(), ReadError>
        ensures { Gives (λ _. self.new) result (add_line number self.old (parts 32 line.now)) }
    {
        let mut words = Parts::new(line, b' ');
        let Some(word) = words.next_part() else {
            return Err(ReadError::Fault(TextFault::BadLine(number)));
        };
        if is(word, b"server") {
            return self.add_server(number, &mut words);
        }
        if is(word, b"group") {
            return self.add_group(number, &mut words);
        }
        Err(ReadError::Fault(TextFault::BadLine(number)))
    }

    #[tactic(auto, unfolding(crate::specs::SheetTexts::add_server))]
    fn add_server(&mut self, number: u64, words: &mut Parts) -> Result<(), ReadError>
        ensures { Gives (λ _. self.new) result (add_server number self.old words.old) }
    {
        if !self.groups.is_empty() {
            return Err(ReadError::Fault(TextFault::BadLine(number)));
        }
        let server = read_free_server(number, &self.servers, words)?;
        self.servers.push(server)?;
        Ok(())
    }

    #[tactic(auto, unfolding(crate::specs::SheetTexts::add_group))]
    fn add_group(&mut self, number: u64, words: &mut Parts) -> Result<(), ReadError>
        ensures { Gives (λ _. self.new) result (add_group number self.old words.old) }
    {
        let said = read_group_words(self.has_costs, &self.servers, words).ok_or(TextFault::BadLine(
            number,
        ))?;
        let group = next_group(&self.groups, self.count, &said)?;
        self.groups.push(group)?;
        self.count += u64::from(group.count);
        self.needs_costs = or_needs_costs(self.needs_costs, &group);
        Ok(())
    }

    /// The sheet that was read. Memory for its servers.
    pub(crate) fn into_sheet(self, alloc: Global) -> Result<Sheet, AllocError>
        requires { IsSheet self.sheet }
        ensures { IfOk result (λ sheet. sheet ≡ self.sheet) }
    {
        let servers = servers_of(alloc, &self.servers)?;
        Ok(Sheet::new(self.version, servers, self.groups))
    }

    /// Whether the text may end here.
    pub(crate) fn may_end(&self) -> bool
        ensures { result ≡ may_end self.now }
    {
        !self.has_costs || self.needs_costs
    }
}

fn servers_of(alloc: Global, servers: &[PricedServer]) -> Result<Vec<Server>, AllocError>
    ensures { IfOk result (λ own. own.items ≡ servers_of servers.now) }
{
    servers.iter().map(|priced| priced.server).collect(alloc)
}

/// The server that line `number` declares after these servers. A sheet has no prices.
fn read_free_server(
    number: u64,
    servers: &[PricedServer],
    words: &mut Parts,
) -> Result<PricedServer, TextFault>
    ensures exact { result ≡ server_at number false servers.now words.old }
    ensures few { OnOk result (length servers.now < MAX_SERVERS) }
{
    read_server(number, false, servers, words)
}

/// The group that a line says, after groups of `count` pins.
#[tactic(auto, unfolding(crate::specs::SheetTexts::next_group))]
fn next_group(groups: &[Group], count: u64, said: &GroupWords) -> Result<Group, TextFault>
    requires { count ≤ MAX_PINS }
    ensures exact { result ≡ next_group groups.now count said.now }
    ensures fits { IfOk result (λ group. count + group.count ≤ MAX_PINS) }
{
    if said.count > MAX_PINS - count {
        return Err(TextFault::TooLarge);
    }
    if said.cost > MAX_COST {
        return Err(TextFault::TooLarge);
    }
    if !said.permitted.is_rising {
        return Err(TextFault::NotCanonical);
    }
    let group = group_of(said);
    if !comes_next(groups, &group) {
        return Err(TextFault::NotCanonical);
    }
    Ok(group)
}

fn group_of(said: &GroupWords) -> Group
    requires count { said.now.count ≤ MAX_PINS }
    requires cost { said.now.cost ≤ MAX_COST }
    ensures { result ≡ group_of said.now }
{
    Group {
        kind: PinKind {
            place: said.place,
            permitted: said.permitted.servers,
            cost: said.cost as u16,
        },
        count: said.count as u32,
    }
}

fn or_needs_costs(before: bool, group: &Group) -> bool
    ensures { result ≡ (before || not (group.now.kind.cost == 1)) }
{
    before || group.kind.cost != 1
}

/// Whether the group comes strictly after the last of the groups.
fn comes_next(groups: &[Group], group: &Group) -> bool
    ensures { result ≡ comes_next groups.now group.now }
{
    groups.last().is_none_or(|last| last.is_before(group))
}
