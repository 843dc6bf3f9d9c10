ghost use Rattle.std.specs.Prelude.{◌≡◌, [], ◌∷◌, IfOk, IfErr, MatchOption};
ghost use Rattle.std.specs.Str.{bytes_eq};
ghost use Rattle.command_socket_words.specs.Words.{words_in, at_end};
ghost use Rattle.command_socket_words.specs.declared.fault.CommandFault.TheVariants.{MissingWord};

use crate::CommandFault;
use lb_types_text::Parts;
use std::marker::Model;

/// The words of a command, one after another. As a value it is the list of the words not yet given.
#[derive(Debug, Drop)]
pub(crate) struct Words<'a> {
    parts: Parts<'a>,
}

impl<'a> Model for Words<'a> {
    ghost use Rattle.std.specs.Prelude.{List, ℕ, filter};
    ghost use Rattle.command_socket_words.specs.Words.{is_filled};

    ghost Value = { List (List ℕ) };

    ghost view = { λ w. filter is_filled w.parts };
}

impl<'a> Words<'a> {
    /// The words of a command.
    pub(crate) fn new(command: &'a [u8]) -> Self
        ensures { result ≡ words_in command.now }
    {
        Words {
            parts: Parts::new(command, b' '),
        }
    }

    /// The next word, where there is one.
    pub(crate) fn next_word(&mut self) -> Option<&'a [u8]>
        ensures { MatchOption result ((self.old ≡ []) × (self.new ≡ []))
            (λ word. self.old ≡ word.now ∷ self.new) }
    {
        while let Some(part) = self.parts.next_part() {
            if !part.is_empty() {
                return Some(part);
            }
        }
        None
    }

    /// The next word, which is due.
    pub(crate) fn due_word(&mut self) -> Result<&'a [u8], CommandFault>
        ensures first { IfOk result (λ word. self.old ≡ word.now ∷ self.new) }
        ensures missing { IfErr result (λ fault. (fault ≡ MissingWord) × (self.old ≡ [])) }
    {
        self.next_word().ok_or(CommandFault::MissingWord)
    }

    /// Sees that no word is left.
    #[tactic(auto, unfolding(crate::specs::Words::at_end))]
    pub(crate) fn end(&mut self) -> Result<(), CommandFault>
        ensures { result ≡ at_end self.old }
    {
        if self.next_word().is_some() {
            return Err(CommandFault::UnknownCommand);
        }
        Ok(())
    }
}

/// Whether the word is this one.
pub(crate) fn is(word: &[u8], wanted: &[u8]) -> bool
    ensures { result ≡ bytes_eq word.now wanted.now }
{
    *word == *wanted
}
