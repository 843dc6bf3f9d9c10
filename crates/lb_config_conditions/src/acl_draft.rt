ghost use Rattle.std.specs.Prelude.{◌≡◌, ◌≤◌, codes, nat_eq, IfOk};
ghost use Rattle.std.specs.List.{starts_with};
ghost use Rattle.lb_config_arguments.specs.Faults.{Gives};
ghost use Rattle.lb_config_arguments.specs.Reading.{each_word};
ghost use Rattle.lb_config_conditions.specs.AclLines.{no_acl, prefix_in, network_in, takes_flags, flag_word, value_word, argument_word, acl_word, acl_end, acl_at};

use crate::call::{kept, place_of};
use crate::criterion::{Criterion, read_criterion};
use lb_acl::{AclLine, Network, SourceTest, Text, TextTest};
use lb_config_arguments::{Fault, LineError, Words, is, read_ipv4, read_number};
use std::alloc::Global;
use std::marker::Model;

/// The words of an ACL as far as they were read.
#[derive(Debug, Drop)]
pub(crate) struct AclDraft {
    criterion: Option<Criterion>,
    ignores_case: bool,
    is_literal: bool,
    networks: Vec<Network>,
    texts: Vec<Text>,
}

impl Model for AclDraft {
    ghost use Rattle.lb_config_conditions.specs.AclDraftView.{AclDraftView};

    ghost Value = { AclDraftView };

    ghost view = { λ acl. record {
      criterion = acl.criterion;
      ignores_case = acl.ignores_case;
      is_literal = acl.is_literal;
      networks = acl.networks.items;
      texts = acl.texts.items;
    } };
}

impl AclDraft {
    /// Nothing was read.
    pub(crate) fn new(alloc: Global) -> Self
        ensures { result ≡ no_acl }
    {
        AclDraft {
            criterion: None,
            ignores_case: false,
            is_literal: false,
            networks: Vec::new(alloc),
            texts: Vec::new(alloc),
        }
    }

    /// Takes a word more: the criterion, a flag or a value.
    #[tactic(auto, unfolding(crate::specs::AclLines::acl_word))]
    pub(crate) fn take(&mut self, words: &Words, word: &[u8]) -> Result<(), LineError>
        ensures { Gives (λ _. self.new) result (acl_word self.old word.now) }
    {
        let is_source = match &self.criterion {
            Some(criterion) => criterion.tests_source(),
            None => {
                self.criterion = Some(read_criterion(words, word)?);
                return Ok(());
            }
        };
        self.take_argument(words, is_source, word)
    }

    #[tactic(auto, unfolding(crate::specs::AclLines::argument_word))]
    fn take_argument(
        &mut self,
        words: &Words,
        is_source: bool,
        word: &[u8],
    ) -> Result<(), LineError>
        ensures { Gives (λ _. self.new) result (argument_word self.old is_source word.now) }
    {
        if self.takes_flags() && is_dashed(word) {
            return self.take_flag(words, word);
        }
        self.take_value(words, is_source, word)
    }

    /// Whether a flag may stand here.
    #[tactic(auto, unfolding(crate::specs::AclLines::takes_flags))]
    fn takes_flags(&self) -> bool
        ensures { result ≡ takes_flags self.now }
    {
        !self.is_literal && self.networks.is_empty() && self.texts.is_empty()
    }

    #[tactic(auto, unfolding(crate::specs::AclLines::flag_word))]
    fn take_flag(&mut self, words: &Words, word: &[u8]) -> Result<(), LineError>
        ensures { Gives (λ _. self.new) result (flag_word self.old word.now) }
    {
        if is(word, b"--") {
            self.is_literal = true;
            return Ok(());
        }
        if is(word, b"-i") && !self.ignores_case {
            self.ignores_case = true;
            return Ok(());
        }
        if is(word, b"-f") || is(word, b"-m") {
            return Err(Fault::LeftOut(words.copied(word)?).into());
        }
        Err(Fault::UnknownWord.into())
    }

    #[tactic(auto, unfolding(crate::specs::AclLines::value_word))]
    fn take_value(&mut self, words: &Words, is_source: bool, word: &[u8]) -> Result<(), LineError>
        ensures { Gives (λ _. self.new) result (value_word self.old is_source word.now) }
    {
        if is_source {
            let network = read_network(words, word)?;
            self.networks.push(network)?;
            return Ok(());
        }
        self.texts.push(kept(words, word)?)?;
        Ok(())
    }

    /// The ACL whose words end here.
    #[tactic(auto, unfolding(crate::specs::AclLines::acl_end))]
    pub(crate) fn end(self) -> Result<AclLine, Fault>
        ensures { result ≡ acl_end self }
    {
        let AclDraft {
            criterion,
            ignores_case,
            is_literal: _,
            networks,
            texts,
        } = self;
        match criterion {
            None => Err(Fault::Missing),
            Some(Criterion::Source) => {
                if networks.is_empty() {
                    return Err(Fault::Missing);
                }
                Ok(AclLine::Source(SourceTest::new(networks)))
            }
            Some(Criterion::Texts(sample, matching)) => {
                if texts.is_empty() {
                    return Err(Fault::Missing);
                }
                Ok(AclLine::Text(TextTest::new(sample, matching, ignores_case, texts)))
            }
        }
    }
}

/// The ACL that the words up to the line's end are.
#[tactic(auto, unfolding(crate::specs::AclLines::acl_at))]
pub(crate) fn read_acl(words: &mut Words) -> Result<AclLine, LineError>
    ensures { Gives (λ line. line) result (acl_at words.old) }
{
    Ok(read_draft(words)?.end()?)
}

fn read_draft(words: &mut Words) -> Result<AclDraft, LineError>
    ensures { Gives (λ acl. acl) result (each_word acl_word no_acl words.old) }
{
    let mut acl = AclDraft::new(words.alloc());
    while let Some(word) = words.next_word_or_end()? {
        acl.take(words, word)?;
    }
    Ok(acl)
}

fn is_dashed(word: &[u8]) -> bool
    ensures { result ≡ starts_with nat_eq word.now (codes "-") }
{
    word.starts_with(b"-")
}

/// An address, and how many of its first bits count.
#[tactic(auto, unfolding(crate::specs::AclLines::network_in))]
fn read_network(words: &Words, word: &[u8]) -> Result<Network, LineError>
    ensures { Gives (λ network. network) result (network_in word.now) }
{
    let (text, _) = word.split_at(place_of(b'/', word));
    let Some(address) = read_ipv4(text) else {
        return Err(Fault::LeftOut(words.copied(word)?).into());
    };
    let prefix_len = read_prefix(word)?;
    Ok(Network::new(address, prefix_len))
}

/// How many first bits count.
#[tactic(auto, unfolding(crate::specs::AclLines::prefix_in))]
fn read_prefix(word: &[u8]) -> Result<u8, Fault>
    ensures exact { result ≡ prefix_in word.now }
    ensures at_most { IfOk result (λ bits. bits ≤ 32) }
{
    let at = place_of(b'/', word);
    if at == word.len() {
        return Ok(32);
    }
    let (_, mask) = word.split_at(at + 1);
    let bits = read_number(0, 32, mask)?;
    Ok(bits as u8)
}
