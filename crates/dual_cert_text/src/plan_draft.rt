ghost use Rattle.std.specs.Prelude.{◌≡◌, ◌+◌, ◌≤◌, ◌||◌, ◌==◌, not, IfOk};
ghost use Rattle.lb_types_text.specs.Parts.{parts};
ghost use Rattle.dual_cert_plan.specs.Plans.{IsPlan};
ghost use Rattle.dual_cert_text.specs.Faults.{Gives};
ghost use Rattle.dual_cert_text.specs.PlanTexts.{add_line, add_server, add_row, comes_next, may_end, next_row, row_of};

use crate::row_line::{RowWords, read_row_words};
use crate::server_line::read_server;
use crate::words::is;
use crate::{ReadError, TextFault};
use dual_cert_plan::{Plan, PricedServer};
use lb_types::{MAX_COST, MAX_PINS};
use lb_types_pins::{PinKind, Row};
use lb_types_text::Parts;
use std::alloc::Global;
use std::marker::Model;

/// A plan, as far as its text was read.
#[derive(Debug, Drop)]
pub(crate) struct PlanDraft {
    has_costs: bool,
    version: u64,
    servers: Vec<PricedServer>,
    rows: Vec<Row>,
    /// The pins of the rows.
    count: u64,
    /// Some row has a cost other than 1.
    needs_costs: bool,
}

impl Model for PlanDraft {
    ghost use Rattle.dual_cert_text.specs.PlanTexts.{PlanDraft as Draft, draft_of};
    ghost use Rattle.dual_cert_text.specs.DraftFields.{KeepsTotals};

    ghost Value = { Draft };

    ghost view = { λ d. draft_of d.has_costs d.version d.servers.items d.rows.items };

    ghost invariant = { λ d. KeepsTotals d.servers.items d.rows.items d.count d.needs_costs };
}

impl PlanDraft {
    ghost use Rattle.std.specs.Prelude.{[]};
    ghost use Rattle.dual_cert_text.specs.PlanTexts.{draft_of};

    /// The draft of a plan of which the heading was read.
    pub(crate) fn new(alloc: Global, has_costs: bool, version: u64) -> Self
        ensures { result ≡ draft_of has_costs version [] [] }
    {
        PlanDraft {
            has_costs,
            version,
            servers: Vec::new(alloc),
            rows: Vec::new(alloc),
            count: 0,
            needs_costs: false,
        }
    }

    /// Adds line `number` of the text.
    #[tactic(auto, unfolding(crate::specs::PlanTexts::add_line))]
    pub(crate) fn add_line(&mut self, number: u64, line: &[u8]) -> Result<(), ReadError>
        ensures { Gives (λ _. self.new) result (add_line number self.old (parts 32 line.now)) }
    {
        let mut words = Parts::new(line, b' ');
        let Some(word) = words.next_part() else {
            return Err(ReadError::Fault(TextFault::BadLine(number)));
        };
        if is(word, b"server") {
            return self.add_server(number, &mut words);
        }
        if is(word, b"row") {
            return self.add_row(number, &mut words);
        }
        Err(ReadError::Fault(TextFault::BadLine(number)))
    }

    #[tactic(auto, unfolding(crate::specs::PlanTexts::add_server))]
    fn add_server(&mut self, number: u64, words: &mut Parts) -> Result<(), ReadError>
        ensures { Gives (λ _. self.new) result (add_server number self.old words.old) }
    {
        if !self.rows.is_empty() {
            return Err(ReadError::Fault(TextFault::BadLine(number)));
        }
        let server = read_server(number, true, &self.servers, words)?;
        self.servers.push(server)?;
        Ok(())
    }

    #[tactic(auto, unfolding(crate::specs::PlanTexts::add_row))]
    fn add_row(&mut self, number: u64, words: &mut Parts) -> Result<(), ReadError>
        ensures { Gives (λ _. self.new) result (add_row number self.old words.old) }
    {
        let said = read_row_words(self.has_costs, &self.servers, words).ok_or(TextFault::BadLine(
            number,
        ))?;
        let row = next_row(&self.rows, self.count, &said)?;
        self.rows.push(row)?;
        self.count += u64::from(row.count);
        self.needs_costs = or_needs_costs(self.needs_costs, &row);
        Ok(())
    }

    /// The plan that was read.
    pub(crate) fn into_plan(self) -> Plan
        requires { IsPlan self.plan }
        ensures { result ≡ self.plan }
    {
        Plan::new(self.version, self.servers, self.rows)
    }

    /// Whether the text may end here.
    pub(crate) fn may_end(&self) -> bool
        ensures { result ≡ may_end self.now }
    {
        !self.has_costs || self.needs_costs
    }
}

/// The row that a line says, after rows of `count` pins.
#[tactic(auto, unfolding(crate::specs::PlanTexts::next_row))]
fn next_row(rows: &[Row], count: u64, said: &RowWords) -> Result<Row, TextFault>
    requires { count ≤ MAX_PINS }
    ensures exact { result ≡ next_row rows.now count said.now }
    ensures fits { IfOk result (λ row. count + row.count ≤ MAX_PINS) }
{
    if said.count > MAX_PINS - count {
        return Err(TextFault::TooLarge);
    }
    if said.cost > MAX_COST {
        return Err(TextFault::TooLarge);
    }
    if !said.permitted.is_rising {
        return Err(TextFault::NotCanonical);
    }
    let row = row_of(said);
    if !comes_next(rows, &row) {
        return Err(TextFault::NotCanonical);
    }
    Ok(row)
}

fn row_of(said: &RowWords) -> Row
    requires count { said.now.count ≤ MAX_PINS }
    requires cost { said.now.cost ≤ MAX_COST }
    ensures { result ≡ row_of said.now }
{
    Row {
        kind: PinKind {
            place: said.place,
            permitted: said.permitted.servers,
            cost: said.cost as u16,
        },
        new_place: said.new_place,
        count: said.count as u32,
    }
}

fn or_needs_costs(before: bool, row: &Row) -> bool
    ensures { result ≡ (before || not (row.now.kind.cost == 1)) }
{
    before || row.kind.cost != 1
}

/// Whether the row comes strictly after the last of the rows.
fn comes_next(rows: &[Row], row: &Row) -> bool
    ensures { result ≡ comes_next rows.now row.now }
{
    rows.last().is_none_or(|last| last.is_before(row))
}
