ghost use Rattle.std.specs.Prelude.{◌≡◌, ◌≢◌, ◌∷◌, [], ◌++◌, length, IfNone, IfOk, IfSome, OnErr, OnOk};
ghost use Rattle.dual_cert_plan.specs.Plans.{servers_of};
ghost use Rattle.dual_cert_text.specs.Faults.{Gives};
ghost use Rattle.sheet_format.specs.Meanings.{IsOf};
ghost use Rattle.sheet_format.specs.Texts.{add_end, add_form, add_group, add_line, add_server, add_version, add_words, group_from, is_fresh};
ghost use Rattle.sheet_format.specs.Words.{line_words};

use crate::group_line::read_group;
use crate::merging::merged;
use crate::server_line::read_server;
use crate::words::Words;
use dual_cert_plan::{PricedServer, Server, Sheet};
use dual_cert_text::words::is;
use dual_cert_text::{ReadError, TextFault};
use lb_types::{Place, ServerSet};
use lb_types_pins::{Group, PinKind};
use lb_types_text::numeral;
use std::alloc::{AllocError, Global};
use std::marker::Model;

/// What the lines of a text said so far.
#[derive(Debug, Drop)]
pub(crate) struct Reading {
    has_form: bool,
    has_ended: bool,
    version: Option<u64>,
    /// Each at no price, since places and sets are read as in plans.
    servers: Vec<PricedServer>,
    /// One for each line of a group.
    groups: Vec<Group>,
    /// The pins of the groups.
    count: u64,
}

impl Model for Reading {
    ghost use Rattle.dual_cert_plan.specs.Plans.{servers_of};
    ghost use Rattle.sheet_format.specs.Kept.{IsKept};
    ghost use Rattle.sheet_format.specs.Texts.{Said, said_of};

    ghost Value = { Said };

    ghost view = { λ r. said_of r.has_form r.has_ended r.version (servers_of r.servers.items) r.groups.items };

    ghost invariant = { λ r. IsKept r.version r.servers.items r.groups.items r.count };
}

impl Reading {
    ghost use Rattle.sheet_format.specs.Texts.{nothing_said};

    /// Nothing is said yet.
    pub(crate) fn new(alloc: Global) -> Self
        ensures { result ≡ nothing_said }
    {
        Reading {
            has_form: false,
            has_ended: false,
            version: None,
            servers: Vec::new(alloc),
            groups: Vec::new(alloc),
            count: 0,
        }
    }

    /// Adds line `number` of the text.
    #[tactic(auto, unfolding(crate::specs::Texts::add_line))]
    pub(crate) fn add_line(&mut self, number: u64, line: &[u8]) -> Result<(), ReadError>
        ensures { Gives (λ _. self.new) result (add_line number self.old (line_words line.now)) }
    {
        let mut words = Words::of_line(line);
        let Some(word) = words.next_word() else {
            return Ok(());
        };
        if self.has_ended {
            return Err(ReadError::Fault(TextFault::BadLine(number)));
        }
        self.add_words(number, word, &mut words)
    }

    #[tactic(auto, unfolding(crate::specs::Texts::add_words))]
    fn add_words(&mut self, number: u64, word: &[u8], words: &mut Words) -> Result<(), ReadError>
        ensures { Gives (λ _. self.new) result (add_words number self.old word.now words.old) }
    {
        if is(word, b"server") {
            return self.add_server(number, words);
        }
        if is(word, b"group") {
            return self.add_group(number, words);
        }
        if is(word, b"version") {
            return self.add_version(number, words);
        }
        if is(word, b"stickysheet") {
            return self.add_form(number, words);
        }
        if is(word, b"end") {
            return self.add_end(number, words);
        }
        Err(ReadError::Fault(TextFault::BadLine(number)))
    }

    #[tactic(auto, unfolding(crate::specs::Texts::add_server))]
    fn add_server(&mut self, number: u64, words: &mut Words) -> Result<(), ReadError>
        ensures { Gives (λ _. self.new) result (add_server number self.old words.old) }
    {
        let server = read_server(number, &self.servers, words)?;
        self.servers.push(server)?;
        Ok(())
    }

    #[tactic(auto, unfolding(crate::specs::Texts::add_group))]
    fn add_group(&mut self, number: u64, words: &mut Words) -> Result<(), ReadError>
        ensures { Gives (λ _. self.new) result (add_group number self.old words.old) }
    {
        match read_group(number, self.count, &self.servers, words) {
            Ok(group) => {
                let more = group.count;
                let PinKind {
                    place,
                    permitted,
                    cost,
                } = group.kind;
                push(&mut self.groups, place, permitted, cost, more)?;
                self.count += u64::from(more);
                Ok(())
            }
            Err(fault) => Err(ReadError::Fault(fault)),
        }
    }

    #[tactic(auto, unfolding(crate::specs::Texts::add_version))]
    fn add_version(&mut self, number: u64, words: &mut Words) -> Result<(), ReadError>
        ensures { Gives (λ _. self.new) result (add_version number self.old words.old) }
    {
        let version = only_word(words).ok_or(TextFault::BadLine(number))?;
        if self.version.is_some() {
            return Err(ReadError::Fault(TextFault::BadLine(number)));
        }
        let version = numeral(version).ok_or(TextFault::BadLine(number))?;
        if version > 1 << 63 {
            return Err(ReadError::Fault(TextFault::TooLarge));
        }
        self.version = Some(version);
        Ok(())
    }

    #[tactic(auto, unfolding(crate::specs::Texts::add_form))]
    fn add_form(&mut self, number: u64, words: &mut Words) -> Result<(), ReadError>
        ensures { Gives (λ _. self.new) result (add_form number self.old words.old) }
    {
        let form = only_word(words).ok_or(TextFault::BadLine(number))?;
        if !self.is_fresh() || !(is(form, b"1") || is(form, b"2")) {
            return Err(ReadError::Fault(TextFault::BadLine(number)));
        }
        self.has_form = true;
        Ok(())
    }

    #[tactic(auto, unfolding(crate::specs::Texts::add_end))]
    fn add_end(&mut self, number: u64, words: &mut Words) -> Result<(), ReadError>
        ensures { Gives (λ _. self.new) result (add_end number self.old words.old) }
    {
        if words.next_word().is_some() {
            return Err(ReadError::Fault(TextFault::BadLine(number)));
        }
        self.has_ended = true;
        Ok(())
    }

    /// Whether nothing is said so far.
    fn is_fresh(&self) -> bool
        ensures { result ≡ is_fresh self.now }
    {
        !self.has_form
            && self.version.is_none()
            && self.servers.is_empty()
            && self.groups.is_empty()
    }

    /// The sheet of what was said.
    pub(crate) fn into_sheet(self, alloc: Global) -> Result<Sheet, AllocError>
        ensures { IfOk result (λ sheet. IsOf self sheet) }
    {
        let servers = servers_of(alloc, &self.servers)?;
        let groups = merged(alloc, &self.groups)?;
        Ok(Sheet::new(self.version.unwrap_or(0), servers, groups))
    }
}

fn push(
    groups: &mut Vec<Group>,
    place: Place,
    permitted: ServerSet,
    cost: u16,
    count: u32,
) -> Result<(), AllocError>
    ensures ok { OnOk result (groups.new.items ≡ groups.old.items ++ group_from place permitted cost count ∷ []) }
    ensures err { OnErr result (groups.new.items ≡ groups.old.items) }
{
    let kind = PinKind {
        place,
        permitted,
        cost,
    };
    match groups.push(Group { kind, count }) {
        Ok(()) => Ok(()),
        Err(_) => Err(AllocError),
    }
}

/// The word, if there is no other one.
fn only_word<'a>(words: &mut Words<'a>) -> Option<&'a [u8]>
    ensures found { IfSome result (λ word. words.old ≡ word.now ∷ []) }
    ensures none { IfNone result (length words.old ≢ 1) }
{
    let word = words.next_word()?;
    if words.next_word().is_some() {
        return None;
    }
    Some(word)
}

fn servers_of(alloc: Global, servers: &[PricedServer]) -> Result<Vec<Server>, AllocError>
    ensures { IfOk result (λ own. own.items ≡ servers_of servers.now) }
{
    servers.iter().map(|priced| priced.server).collect(alloc)
}
