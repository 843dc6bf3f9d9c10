ghost use Rattle.std.specs.Prelude.{◌≡◌, ◌++◌, IfOk, OnOk};
ghost use Rattle.lb_config_sections.specs.Warnings.{second_text, ignored_text, warning_of};

use lb_config_lines::IgnoredWords;
use lb_config_words::{Line, Word};
use std::alloc::{AllocError, Global};

/// A line of which something is ignored.
#[derive(Debug, Drop)]
pub struct Warning {
    /// The number of the line, counted from 1.
    pub line: u32,
    /// Its first word, or its first two with a space between them.
    pub words: Word,
}

impl Warning {
    /// The warning of the line.
    pub(crate) fn new(alloc: Global, which: IgnoredWords, line: &Line) -> Result<Self, AllocError>
        ensures { IfOk result (λ warning. warning ≡ warning_of which line.now) }
    {
        Ok(Warning {
            line: line.number(),
            words: ignored_text(alloc, which, line.words())?,
        })
    }
}

/// The words that the warning names.
#[tactic(auto, unfolding(crate::specs::Warnings::ignored_text))]
fn ignored_text(alloc: Global, which: IgnoredWords, words: &[Word]) -> Result<Word, AllocError>
    ensures { IfOk result (λ text. text ≡ ignored_text which words.now) }
{
    let mut text = Vec::new(alloc);
    if let Some((first, rest)) = words.split_first() {
        text.extend_from_slice(first.as_bytes())?;
        if which == IgnoredWords::FirstTwo {
            push_second(&mut text, rest)?;
        }
    }
    Ok(Word::new(text))
}

/// Appends a space and the next word to the text, if there is one.
fn push_second(text: &mut Vec<u8>, rest: &[Word]) -> Result<(), AllocError>
    ensures { OnOk result (text.new.items ≡ text.old.items ++ second_text rest.now) }
{
    if let Some((second, _)) = rest.split_first() {
        text.extend_from_slice(b" ")?;
        text.extend_from_slice(second.as_bytes())?;
    }
    Ok(())
}
