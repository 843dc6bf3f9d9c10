ghost use Rattle.std.specs.Prelude.{◌≡◌, ◌<◌, length, IfOk, OnSome, bytes_eq};
ghost use Rattle.std.specs.Option.{option_copied};
ghost use Rattle.lb_config_arguments.specs.Faults.{Gives, Takes, fault_at_end, fault_of_spelling};
ghost use Rattle.lb_config_arguments.specs.Reading.{rest_of, word_at, word_or_end_at, end_at, more_at, due_at, name_in, name_at};

use crate::{Fault, LineError};
use lb_config_words::{SpellingFault, Word};
use lb_types::Name;
use std::alloc::{AllocError, Global};
use std::marker::Model;

/// The words of a line that are not yet read. As a value it is those words and why the line's spelling breaks off after them.
#[derive(Debug, Drop)]
pub struct Words<'a> {
    alloc: Global,
    rest: &'a [Word],
    ending: Option<SpellingFault>,
}

impl<'a> Model for Words<'a> {
    ghost use Rattle.lb_config_arguments.specs.Rest.{Rest};

    ghost Value = { Rest };

    ghost view = { λ words. record {
      words = words.rest.now;
      ending = words.ending;
    } };
}

impl<'a> Words<'a> {
    /// All words of a line. `alloc` is for words that a setting or a fault keeps.
    pub fn new(alloc: Global, words: &'a [Word], ending: Option<SpellingFault>) -> Self
        ensures { result ≡ rest_of words.now ending }
    {
        Words {
            alloc,
            rest: words,
            ending,
        }
    }

    /// The next word, which has to be there.
    #[tactic(auto, unfolding(crate::specs::Reading::word_at))]
    pub fn next_word(&mut self) -> Result<&'a [u8], LineError>
        ensures { Takes (λ word. word.now) result self.new (word_at self.old) }
    {
        let Some((first, more)) = self.rest.split_first() else {
            return Err(self.fault_at_end()?.into());
        };
        self.rest = more;
        Ok(first.as_bytes())
    }

    /// The next word, or none where the line ends.
    #[tactic(auto, unfolding(crate::specs::Reading::word_or_end_at))]
    pub fn next_word_or_end(&mut self) -> Result<Option<&'a [u8]>, LineError>
        ensures exact { Takes option_copied result self.new (word_or_end_at self.old) }
        ensures fewer { IfOk result (λ word. OnSome word (length self.new.words < length self.old.words)) }
    {
        let Some((first, more)) = self.rest.split_first() else {
            return match self.ending {
                Some(fault) => Err(self.spelled(fault)?.into()),
                None => Ok(None),
            };
        };
        self.rest = more;
        Ok(Some(first.as_bytes()))
    }

    /// The end of the line, where no word more may stand.
    #[tactic(auto, unfolding(crate::specs::Reading::end_at))]
    pub fn end(&self) -> Result<(), LineError>
        ensures { Gives (λ done. done) result (end_at self.now) }
    {
        if !self.rest.is_empty() {
            return Err(Fault::UnknownWord.into());
        }
        match self.ending {
            Some(fault) => Err(self.spelled(fault)?.into()),
            None => Ok(()),
        }
    }

    /// Whether words are left, where they are whole and nobody reads them.
    #[tactic(auto, unfolding(crate::specs::Reading::more_at))]
    pub fn more(&self) -> Result<bool, LineError>
        ensures { Gives (λ more. more) result (more_at self.now) }
    {
        match self.ending {
            Some(fault) => Err(self.spelled(fault)?.into()),
            None => Ok(!self.rest.is_empty()),
        }
    }

    /// That a word is left.
    #[tactic(auto, unfolding(crate::specs::Reading::due_at))]
    pub fn wants_word(&self) -> Result<(), LineError>
        ensures { Gives (λ done. done) result (due_at self.now) }
    {
        if self.rest.is_empty() {
            return Err(self.fault_at_end()?.into());
        }
        Ok(())
    }

    /// The next word, which has to be a name.
    #[tactic(auto, unfolding(crate::specs::Reading::name_at))]
    pub fn next_name(&mut self) -> Result<Name, LineError>
        ensures { Takes (λ name. name) result self.new (name_at self.old) }
    {
        let word = self.next_word()?;
        Ok(read_name(word)?)
    }

    /// Where the memory for words that are kept comes from.
    pub fn alloc(&self) -> Global {
        self.alloc
    }

    /// A copy of the word.
    pub fn copied(&self, word: &[u8]) -> Result<Word, AllocError>
        ensures { IfOk result (λ copy. copy ≡ word.now) }
    {
        Ok(Word::new(Vec::from_slice(self.alloc, word)?))
    }

    /// The fault where a word is wanted and the words end.
    fn fault_at_end(&self) -> Result<Fault, AllocError>
        ensures { IfOk result (λ fault. fault ≡ fault_at_end self.now.ending) }
    {
        match self.ending {
            Some(fault) => self.spelled(fault),
            None => Ok(Fault::Missing),
        }
    }

    fn spelled(&self, fault: SpellingFault) -> Result<Fault, AllocError>
        ensures { IfOk result (λ told. told ≡ fault_of_spelling fault) }
    {
        match fault {
            SpellingFault::UnclosedQuote => Ok(Fault::Missing),
            SpellingFault::RefusedBackslash => Ok(Fault::LeftOut(self.copied(b"\\")?)),
            SpellingFault::RefusedDollar => Ok(Fault::LeftOut(self.copied(b"$")?)),
            SpellingFault::TooManyWords => Ok(Fault::TooMany),
        }
    }
}

/// The name that the word is.
#[tactic(auto, unfolding(crate::specs::Reading::name_in))]
pub fn read_name(word: &[u8]) -> Result<Name, Fault>
    ensures { result ≡ name_in word.now }
{
    Name::read(word).map_err(|_| Fault::BadName)
}

/// Whether the word is this one.
pub fn is(word: &[u8], wanted: &[u8]) -> bool
    ensures { result ≡ bytes_eq word.now wanted.now }
{
    *word == *wanted
}
