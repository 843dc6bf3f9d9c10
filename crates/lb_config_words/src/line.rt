ghost use Rattle.std.specs.Prelude.{◌≡◌, ◌++◌, OnOk};
ghost use Rattle.lb_config_words.specs.Lines.{told};
ghost use Rattle.lb_config_words.specs.Words.{spelled_of};

use crate::spelling::{Spelling, spell};
use crate::{SpellingFault, Word};
use std::alloc::{AllocError, Global};
use std::marker::Model;

/// A line that says something: it has a word, or its spelling breaks. As a value it is its number, its words and its ending.
#[derive(Debug, Drop)]
pub struct Line {
    number: u32,
    words: Vec<Word>,
    ending: Option<SpellingFault>,
}

impl Model for Line {
    ghost use Rattle.lb_config_words.specs.LineView.{LineView};

    ghost Value = { LineView };

    ghost view = { λ line. record {
      number = line.number;
      words = line.words.items;
      ending = line.ending;
    } };
}

impl Line {
    fn new(number: u32, spelling: Spelling) -> Self
        ensures { result ≡ record {
          number = number;
          words = spelling.words;
          ending = spelling.ending;
        } }
    {
        Line {
            number,
            words: spelling.words,
            ending: spelling.ending,
        }
    }

    /// The number of the line in its text, counted from 1 over all lines.
    pub fn number(&self) -> u32
        ensures { result ≡ self.now.number }
    {
        self.number
    }

    /// The words from the left, at most 64, up to the place where the spelling breaks.
    pub fn words(&self) -> &[Word]
        ensures { result.now ≡ self.now.words }
    {
        &self.words
    }

    /// Why the spelling breaks off after the words, or none if the line is whole.
    pub fn ending(&self) -> Option<SpellingFault>
        ensures { result ≡ self.now.ending }
    {
        self.ending
    }
}

/// Appends the line to the others, if it has a word or breaks off.
#[tactic(auto, unfolding(crate::specs::Lines::told))]
pub(crate) fn push_line(
    alloc: Global,
    lines: &mut Vec<Line>,
    number: u32,
    bytes: &[u8],
) -> Result<(), AllocError>
    ensures { OnOk result (lines.new.items ≡ lines.old.items ++ told number (spelled_of bytes.now)) }
{
    let spelling = spell(alloc, bytes)?;
    if spelling.is_nothing() {
        return Ok(());
    }
    lines.push(Line::new(number, spelling))?;
    Ok(())
}
