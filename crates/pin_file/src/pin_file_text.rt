ghost use Rattle.std.specs.Prelude.{◌≡◌, ℕ, ◌+◌, ◌^◌, ◌<◌, List, [], ◌++◌, None, IfOk, Ok, Err, if◌then◌else◌};
ghost use Rattle.lb_types_text.specs.Parts.{parts};
ghost use Rattle.dual_cert_text.specs.declared.fault.TextFault.TheVariants.{BadLine};
ghost use Rattle.dual_cert_text.specs.Faults.{Gives};
ghost use Rattle.dual_cert_text.specs.Texts.{is_nothing};
ghost use Rattle.pin_file.specs.declared.backend_pins.BackendPins.{BackendPins};
ghost use Rattle.pin_file.specs.Files.{IsPinFile};
ghost use Rattle.pin_file.specs.Spellings.{spelling};
ghost use Rattle.pin_file.specs.Texts.{backends_of, draft_at, draft_of, file_of_text, lines_at};

use crate::pin_file_draft::PinFileDraft;
use crate::{PinFile, ReadError, TextFault};
use dual_cert_text::words::is;
use lb_types_text::cut;
use std::alloc::Global;

/// The file that the text spells, each byte of it.
///
/// A file has one spelling: `stickypins 1`, for each backend `backend NAME` and a line for each of its pins
/// (`pin KEY WANTED SERVER COST AGE`), and `end`. The key is as `show table` prints it. `WANTED` is the names of the wanted servers, joined
/// by commas, and `SERVER` that of the server where the pin is, each with `-` for none. `COST` is 1 to 1000, and `AGE` is how long before
/// the file was made the pin was last used, in milliseconds. Pins are in order of last use: no age is above that of the line before.
///
/// Any other text has a first fault: `BadLine` has the number of the first line that isn't of the form due there, names a backend a second
/// time, or is out of order. `TooLarge` is a pin more than the 16777216 that a backend may have. `Truncated` is a text that ends before the
/// line end of `end`.
///
/// One walk over the text. The memory is that of the pins, some 250 bytes each, and up to three times as much while their list grows.
pub fn read_pin_file(alloc: Global, text: &[u8]) -> Result<PinFile, ReadError>
    // What is read is spelled so.
    ensures found { IfOk result (λ file. text.now ≡ spelling file) }
    // What is spelled so is read, unless memory runs out.
    ensures only { (file : List BackendPins) → IsPinFile file → text.now ≡ spelling file
        → Gives (λ f. f) result (Ok file) }
    // Which fault it is.
    ensures exact { Gives (λ f. f) result (file_of_text text.now) }
{
    read_whole(alloc, text)
}

/// No text of a file begins another, so a text that has other lines after it ends where it ends.
pub fn one_text()
    ensures { (a b : List BackendPins) (rest : List ℕ) → IsPinFile a → IsPinFile b
        → spelling b ≡ spelling a ++ rest → (a ≡ b) × (rest ≡ []) }
{}

#[tactic(auto, unfolding(crate::specs::Texts::file_of_text))]
fn read_whole(alloc: Global, text: &[u8]) -> Result<PinFile, ReadError>
    ensures { Gives (λ f. f) result (file_of_text text.now) }
{
    let draft = read_draft(alloc, text)?;
    draft.into_file()
}

/// What the text is read as, line by line.
#[tactic(auto, unfolding(crate::specs::Texts::draft_at))]
fn read_draft(alloc: Global, text: &[u8]) -> Result<PinFileDraft, ReadError>
    ensures { Gives (λ d. d) result (draft_at (parts 10 text.now)) }
{
    let Some((first, rest)) = cut(text, b'\n') else {
        return Err(ReadError::Fault(TextFault::Truncated));
    };
    if !is(first, b"stickypins 1") {
        return Err(ReadError::Fault(TextFault::BadLine(1)));
    }
    read_lines(alloc, PinFileDraft::new(alloc), rest)
}

/// The lines from the second on.
fn read_lines(
    alloc: Global,
    mut draft: PinFileDraft,
    text: &[u8],
) -> Result<PinFileDraft, ReadError>
    ensures { Gives (λ d. d) result (lines_at 2 draft (parts 10 text.now)) }
{
    let mut rest = text;
    let mut number = 2;
    while let Some((line, behind)) = cut(rest, b'\n') {
        if is(line, b"end") {
            return end(draft, number, behind);
        }
        draft.add_line(alloc, number, line)?;
        rest = behind;
        number += 1;
    }
    Err(ReadError::Fault(TextFault::Truncated))
}

/// The draft, where nothing follows line `number`, which is `end`.
fn end(draft: PinFileDraft, number: u64, rest: &[u8]) -> Result<PinFileDraft, ReadError>
    requires { number + 1 < 2 ^ 64 }
    ensures { Gives (λ d. d) result (if is_nothing (parts 10 rest.now) then Ok draft else Err (BadLine (number + 1))) }
{
    if !is_nothing(rest) {
        return Err(ReadError::Fault(TextFault::BadLine(number + 1)));
    }
    Ok(draft)
}

fn is_nothing(rest: &[u8]) -> bool
    ensures { result ≡ is_nothing (parts 10 rest.now) }
{
    rest.is_empty()
}
