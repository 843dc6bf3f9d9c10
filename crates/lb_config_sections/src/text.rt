ghost use Rattle.std.specs.Prelude.{◌≡◌};
ghost use Rattle.lb_config_sections.specs.Causes.{Gives};
ghost use Rattle.lb_config_sections.specs.TextSections.{located, located_lines, sections_in};
ghost use Rattle.lb_config_words.specs.Texts.{reading};

use crate::{Cause, ConfigFault, LocatedFault, Sections, read_sections};
use lb_config_words::{Line, TextFault, WordsFault, read_lines};
use std::alloc::Global;

/// The sections of a configuration's text and the warnings of its lines, or its first fault.
///
/// A text of more than 1048576 bytes is refused at line 1, and else one that is not UTF-8 at the line of its first bad byte.
/// Then the first fault counts, by line, and in a line from the left. Names that lines use are not looked up.
#[tactic(auto, unfolding(crate::specs::TextSections::sections_in))]
pub fn read_text(alloc: Global, text: &[u8]) -> Result<Sections, ConfigFault>
    ensures { Gives (λ sections. sections) result (sections_in text.now) }
{
    let lines = read_text_lines(alloc, text)?;
    read_sections(alloc, &lines)
}

/// The lines of the text, or the fault of the text as a whole.
fn read_text_lines(alloc: Global, text: &[u8]) -> Result<Vec<Line>, ConfigFault>
    ensures { Gives (λ lines. lines.items) result (located_lines (reading text.now)) }
{
    match read_lines(alloc, text) {
        Ok(lines) => Ok(lines),
        Err(WordsFault::Memory) => Err(ConfigFault::Memory),
        Err(WordsFault::Text(fault)) => Err(ConfigFault::Fault(located(fault))),
    }
}

/// Where the fault of a whole text is reported.
fn located(fault: TextFault) -> LocatedFault
    ensures { result ≡ located fault }
{
    match fault {
        TextFault::TooLong => LocatedFault {
            line: 1,
            cause: Cause::TooMany,
        },
        TextFault::NotUtf8(line) => LocatedFault {
            line,
            cause: Cause::NotUtf8,
        },
    }
}
