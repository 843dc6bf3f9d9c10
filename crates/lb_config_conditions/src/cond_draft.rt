ghost use Rattle.std.specs.Prelude.{◌≡◌, ◌≤◌, length, Ok};
ghost use Rattle.lb_config_arguments.specs.Faults.{Gives};
ghost use Rattle.lb_config_conditions.specs.CondLines.{no_cond, bang_count, turned, with_term, alternative_end, is_or, plain_word, outer_word, inner_word, cond_word, cond_end};

use crate::acl_draft::AclDraft;
use crate::{Alternative, UnresolvedAcl, UnresolvedCond, UnresolvedTerm};
use lb_acl::Polarity;
use lb_config_arguments::{Fault, LineError, Words, is, read_name};
use std::alloc::Global;
use std::marker::Model;
use std::mem;

/// The words of a condition as far as they were read.
#[derive(Debug, Drop)]
pub(crate) struct CondDraft {
    alternatives: Vec<Alternative>,
    terms: Vec<UnresolvedTerm>,
    /// Whether the `!` before the next test turn it round, if there is one.
    bang: Option<bool>,
    open_acl: Option<AclDraft>,
}

impl Model for CondDraft {
    ghost use Rattle.lb_config_conditions.specs.CondDraftView.{CondDraftView};

    ghost Value = { CondDraftView };

    ghost view = { λ cond. record {
      alternatives = cond.alternatives.items;
      terms = cond.terms.items;
      bang = cond.bang;
      open_acl = cond.open_acl;
    } };
}

impl CondDraft {
    /// Nothing was read.
    pub(crate) fn new(alloc: Global) -> Self
        ensures { result ≡ no_cond }
    {
        CondDraft {
            alternatives: Vec::new(alloc),
            terms: Vec::new(alloc),
            bang: None,
            open_acl: None,
        }
    }

    /// Takes a word more.
    #[tactic(auto, unfolding(crate::specs::CondLines::cond_word))]
    pub(crate) fn take(&mut self, words: &Words, word: &[u8]) -> Result<(), LineError>
        ensures { Gives (λ _. self.new) result (cond_word self.old word.now) }
    {
        match self.open_acl.take() {
            Some(acl) => self.take_inner(words, acl, word),
            None => self.take_outer(words, word),
        }
    }

    /// Takes a word in braces, where `acl` is open.
    #[tactic(auto, unfolding(crate::specs::CondLines::inner_word))]
    fn take_inner(&mut self, words: &Words, acl: AclDraft, word: &[u8]) -> Result<(), LineError>
        ensures { Gives (λ _. self.new) result (inner_word self.old acl word.now) }
    {
        if is(word, b"}") {
            let line = acl.end()?;
            return self.push(UnresolvedAcl::Anonymous(line));
        }
        let mut acl = acl;
        acl.take(words, word)?;
        self.open_acl = Some(acl);
        Ok(())
    }

    /// Takes a word outside braces.
    #[tactic(auto, unfolding(crate::specs::CondLines::outer_word))]
    fn take_outer(&mut self, words: &Words, word: &[u8]) -> Result<(), LineError>
        ensures { Gives (λ _. self.new) result (outer_word self.old word.now) }
    {
        let bangs = bang_count(word);
        self.bang = turned(bangs, self.bang);
        if bangs > 0 && bangs == word.len() {
            return Ok(());
        }
        let (_, plain) = word.split_at(bangs);
        self.take_plain(words, plain)
    }

    /// Takes a word without the `!` that it begins with.
    #[tactic(auto, unfolding(crate::specs::CondLines::plain_word))]
    fn take_plain(&mut self, words: &Words, word: &[u8]) -> Result<(), LineError>
        ensures { Gives (λ _. self.new) result (plain_word self.old word.now) }
    {
        if is_or(word) {
            return self.end_alternative(words.alloc());
        }
        if is(word, b"{") {
            self.open_acl = Some(AclDraft::new(words.alloc()));
            return Ok(());
        }
        let name = read_name(word)?;
        self.push(UnresolvedAcl::Named(name))
    }

    /// Adds a test.
    fn push(&mut self, acl: UnresolvedAcl) -> Result<(), LineError>
        ensures { Gives (λ _. self.new) result (Ok (with_term self.old acl)) }
    {
        let is_negated = self.bang.unwrap_or(false);
        self.terms.push(UnresolvedTerm { is_negated, acl })?;
        self.bang = None;
        Ok(())
    }

    /// Ends an alternative.
    #[tactic(auto, unfolding(crate::specs::CondLines::alternative_end))]
    fn end_alternative(&mut self, alloc: Global) -> Result<(), LineError>
        ensures { Gives (λ _. self.new) result (alternative_end self.old) }
    {
        if self.terms.is_empty() || self.bang.is_some() {
            return Err(Fault::Missing.into());
        }
        let terms = mem::replace(&mut self.terms, Vec::new(alloc));
        self.alternatives.push(Alternative::new(terms))?;
        Ok(())
    }

    /// The condition whose words end here.
    #[tactic(auto, unfolding(crate::specs::CondLines::cond_end))]
    pub(crate) fn end(self, alloc: Global, polarity: Polarity) -> Result<UnresolvedCond, LineError>
        ensures { Gives (λ cond. cond) result (cond_end polarity self) }
    {
        if self.open_acl.is_some() {
            return Err(Fault::Missing.into());
        }
        let mut whole = self;
        whole.end_alternative(alloc)?;
        Ok(UnresolvedCond::new(polarity, whole.alternatives))
    }
}

fn is_or(word: &[u8]) -> bool
    ensures { result ≡ is_or word.now }
{
    is(word, b"or") || is(word, b"||")
}

/// Whether the `!` so far and `count` more turn the next test round.
#[tactic(auto, unfolding(crate::specs::CondLines::turned))]
fn turned(count: usize, bang: Option<bool>) -> Option<bool>
    ensures { result ≡ turned count bang }
{
    if count == 0 {
        return bang;
    }
    let so_far = bang.unwrap_or(false);
    Some(if count % 2 == 1 { !so_far } else { so_far })
}

/// How many `!` the word begins with.
fn bang_count(word: &[u8]) -> usize
    ensures exact { result ≡ bang_count word.now }
    ensures within { result ≤ length word.now }
{
    for (i, byte) in word.iter().enumerate() {
        if *byte != b'!' {
            return i;
        }
    }
    word.len()
}
