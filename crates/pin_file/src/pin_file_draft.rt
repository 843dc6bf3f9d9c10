ghost use Rattle.std.specs.Prelude.{◌≡◌, [], false, None, Ok};
ghost use Rattle.std.specs.List.{list_any};
ghost use Rattle.std.specs.Option.{option_map_or};
ghost use Rattle.lb_types_text.specs.Parts.{parts};
ghost use Rattle.dual_cert_text.specs.Faults.{Gives};
ghost use Rattle.pin_file.specs.Files.{IsPinFile};
ghost use Rattle.pin_file.specs.Texts.{add_line, add_backend, add_pin, backends_of, comes_next, draft_of, has_name, is_taken, next_pin};

use crate::pin_line::{read_backend_words, read_pin_words};
use crate::{BackendPins, FilePin, PinFile, PinList, ReadError, TextFault};
use dual_cert_text::words::is;
use lb_types::{MAX_PINS, Name};
use lb_types_text::Parts;
use std::alloc::Global;
use std::marker::Model;

/// A file, as far as its text was read.
#[derive(Debug, Drop)]
pub(crate) struct PinFileDraft {
    before: Vec<BackendPins>,
    /// The backend whose pins are being read.
    last: Option<BackendPins>,
}

impl Model for PinFileDraft {
    ghost use Rattle.pin_file.specs.Texts.{PinFileDraft as Draft, draft_of};

    ghost Value = { Draft };

    ghost view = { λ d. draft_of d.before.items d.last };
}

impl PinFileDraft {
    /// The draft of a file of which only the first line was read.
    pub(crate) fn new(alloc: Global) -> Self
        ensures { result ≡ draft_of [] None }
    {
        PinFileDraft {
            before: Vec::new(alloc),
            last: None,
        }
    }

    /// Adds line `number` of the text.
    #[tactic(auto, unfolding(crate::specs::Texts::add_line))]
    pub(crate) fn add_line(
        &mut self,
        alloc: Global,
        number: u64,
        line: &[u8],
    ) -> Result<(), ReadError>
        ensures { Gives (λ _. self.new) result (add_line number self.old (parts 32 line.now)) }
    {
        let mut words = Parts::new(line, b' ');
        let Some(word) = words.next_part() else {
            return Err(ReadError::Fault(TextFault::BadLine(number)));
        };
        if is(word, b"pin") {
            return self.add_pin(alloc, number, &mut words);
        }
        if is(word, b"backend") {
            return self.add_backend(alloc, number, &mut words);
        }
        Err(ReadError::Fault(TextFault::BadLine(number)))
    }

    #[tactic(auto, unfolding(crate::specs::Texts::add_backend))]
    fn add_backend(
        &mut self,
        alloc: Global,
        number: u64,
        words: &mut Parts,
    ) -> Result<(), ReadError>
        ensures { Gives (λ _. self.new) result (add_backend number self.old words.old) }
    {
        let name = read_backend_words(words).ok_or(TextFault::BadLine(number))?;
        if self.is_taken(&name) {
            return Err(ReadError::Fault(TextFault::BadLine(number)));
        }
        let next = BackendPins {
            name,
            pins: PinList::new(Vec::new(alloc)),
        };
        if let Some(last) = self.last.replace(next) {
            self.before.push(last)?;
        }
        Ok(())
    }

    #[tactic(auto, unfolding(crate::specs::Texts::add_pin))]
    fn add_pin(&mut self, alloc: Global, number: u64, words: &mut Parts) -> Result<(), ReadError>
        ensures { Gives (λ _. self.new) result (add_pin number self.old words.old) }
    {
        let pin = read_pin_words(alloc, words)?.ok_or(TextFault::BadLine(number))?;
        let mut last = self.last.take().ok_or(TextFault::BadLine(number))?;
        next_pin(number, &mut last, pin)?;
        self.last = Some(last);
        Ok(())
    }

    /// Whether a backend has the name.
    fn is_taken(&self, name: &Name) -> bool
        ensures { result ≡ is_taken self.now name.now }
    {
        is_among(&self.before, name) || is_name_of(&self.last, name)
    }

    /// The backends that were read.
    pub(crate) fn into_file(self) -> Result<PinFile, ReadError>
        requires { IsPinFile (backends_of self) }
        ensures { Gives (λ file. file) result (Ok (backends_of self)) }
    {
        let PinFileDraft { mut before, last } = self;
        if let Some(last) = last {
            before.push(last)?;
        }
        Ok(PinFile::new(before))
    }
}

fn is_among(backends: &[BackendPins], name: &Name) -> bool
    ensures { result ≡ list_any (has_name name.now) backends.now }
{
    backends.iter().any(|backend| has_name(backend, name))
}

fn is_name_of(backend: &Option<BackendPins>, name: &Name) -> bool
    ensures { result ≡ option_map_or (has_name name.now) backend.now false }
{
    match backend {
        Some(backend) => has_name(backend, name),
        None => false,
    }
}

fn has_name(backend: &BackendPins, name: &Name) -> bool
    ensures { result ≡ has_name name.now backend.now }
{
    is(backend.name.as_bytes(), name.as_bytes())
}

/// Adds the pin that line `number` says to the backend.
fn next_pin(number: u64, backend: &mut BackendPins, pin: FilePin) -> Result<(), ReadError>
    ensures { Gives (λ _. backend.new) result (next_pin number backend.old pin) }
{
    if backend.pins.as_slice().len() as u64 >= MAX_PINS {
        return Err(ReadError::Fault(TextFault::TooLarge));
    }
    if !comes_next(backend.pins.as_slice(), &pin) {
        return Err(ReadError::Fault(TextFault::BadLine(number)));
    }
    backend.pins.push(pin)?;
    Ok(())
}

/// Whether the pin was used no earlier than the last of the pins.
fn comes_next(pins: &[FilePin], pin: &FilePin) -> bool
    ensures { result ≡ comes_next pins.now pin.now }
{
    pins.last().is_none_or(|last| pin.age <= last.age)
}
