ghost use Rattle.std.specs.Prelude.{◌≡◌, ◌++◌, ℕ, List, Err, OnOk, IfOk, IfSome, map};
ghost use Rattle.std.specs.List.{flat_map};
ghost use Rattle.std.specs.Io.KnownBytes.{Appends};
ghost use Rattle.lb_types_counted.specs.Writers.{WritesFront};
ghost use Rattle.lb_config_sections.specs.References.{checked_in};
ghost use Rattle.lb_cli.specs.Checking.{is_valid};
ghost use Rattle.lb_cli.specs.CheckingAll.{IsFullReport, aside, count_line, count_words, faults_text, first_faults, hint_line, is_at, next_fault, said_lines, without_line};
ghost use Rattle.lb_cli_ends.specs.Hindered.{OnCannotWrite, OnNoAnswer};

use crate::check_job::Report;
use lb_cli_ends::{JobError, whole};
use lb_cli_faults::config_fault_line;
use lb_config::read_config;
use lb_config_hints::{Hint, concerns_of, hint_for, push_differences};
use lb_config_sections::{ConfigFault, LocatedFault, read_checked};
use lb_config_words::{Line, Word, WordsFault, read_lines};
use lb_types::Counted;
use std::alloc::{AllocError, Global};
use std::io::{Read, Write};

/// How many faults `check_all` reports at most.
pub const MOST_FAULTS: usize = 100;

/// A fault, with what may help.
type Said<'a> = (LocatedFault, Option<Hint<'a>>);

/// What is said of a valid configuration beside its report.
#[derive(Clone, Copy, Debug, PartialEq, Eq)]
pub enum Asides {
    /// What is surely not meant.
    Warnings,
    /// The same, and what means something else to HAProxy.
    Differences,
}

/// Reads the text of a configuration to its end. Of a valid one it writes what `check` does, and then warnings of what is surely not
/// meant, as `  warning: backend web has no timeout server: ..`, in lines that begin with two spaces, and in further ones what means
/// something else to HAProxy, if that is asked for; else a line for each fault, as
/// `line 2: 22 UnknownWord`, and then how many there are, as `2 faults`. Under a fault there may be a hint, as `  did you mean timeout?`, in a
/// line that begins with two spaces. Returns whether the configuration is valid.
///
/// The first fault is the one that `check` writes. Each further one is the fault of the text without the lines of those before it, up to
/// `MOST_FAULTS`. So each costs a reading of the text.
///
/// The text is read whole: one that is larger than memory fails as out of memory.
pub fn check_all<R: Read, W: Write>(
    alloc: Global,
    file: &mut R,
    asides: Asides,
    out: &mut Counted<W>,
) -> Result<bool, JobError>
    ensures valid { IfOk result (λ valid. IfSome (R.remaining file.old) (λ text. valid ≡ is_valid (checked_in text))) }
    ensures written { OnOk result (IfSome (R.remaining file.old) (λ text.
        (report : List ℕ) × IsFullReport text report × Appends out.old.contents out.new.contents report)) }

    // Where it is hindered.
    ensures cut { OnCannotWrite result (IfSome (R.remaining file.old) (λ text.
        (report : List ℕ) × IsFullReport text report × WritesFront out.old out.new report)) }
    ensures silent { OnNoAnswer result (out.new ≡ out.old) }
{
    let text = whole(alloc, file)?;
    full_report(alloc, &text, asides)?.write(out)
}

/// What is printed of a text if all its faults are wanted.
fn full_report(alloc: Global, text: &[u8], asides: Asides) -> Result<Report, AllocError>
    ensures valid { IfOk result (λ report. report.is_valid ≡ is_valid (checked_in text.now)) }
    ensures text { IfOk result (λ report. IsFullReport text.now report.text.items) }
{
    let report = Report::of(alloc, text)?;
    if report.is_valid {
        let full = with_concerns(alloc, text, asides, report)?;
        return Ok(full);
    }
    let lines = lines_of(alloc, text)?;
    let faults = faults_of(alloc, text, &lines)?;
    Ok(Report {
        is_valid: false,
        text: faults_text(alloc, &faults)?,
    })
}

/// The report of a valid text, with what is said beside it.
fn with_concerns(
    alloc: Global,
    text: &[u8],
    asides: Asides,
    report: Report,
) -> Result<Report, AllocError>
    ensures valid { IfOk result (λ full. full.is_valid ≡ report.is_valid) }
    ensures text { IfOk result (λ full. (concerns : List (List ℕ)) × (full.text.items ≡ report.text.items ++ flat_map aside concerns)) }
{
    let mut full = report;
    let concerns = concerns_in(alloc, text, asides)?;
    push_concerns(&mut full.text, &concerns)?;
    Ok(full)
}

/// What is said of a valid text beside its report.
fn concerns_in(alloc: Global, text: &[u8], asides: Asides) -> Result<Vec<Word>, AllocError> {
    let lines = lines_of(alloc, text)?;
    let mut concerns = not_meant(alloc, text, &lines)?;
    if asides == Asides::Differences {
        push_differences(alloc, &mut concerns, &lines)?;
    }
    Ok(concerns)
}

/// What is surely not meant in a valid text of these lines.
fn not_meant(alloc: Global, text: &[u8], lines: &[Line]) -> Result<Vec<Word>, AllocError> {
    match read_config(alloc, text) {
        Ok(config) => concerns_of(alloc, &config, lines),
        Err(ConfigFault::Fault(_)) => Ok(Vec::new(alloc)),
        Err(ConfigFault::Memory) => Err(AllocError),
    }
}

/// Appends a line for each.
fn push_concerns(text: &mut Vec<u8>, concerns: &[Word]) -> Result<(), AllocError>
    ensures { OnOk result (text.new.items ≡ text.old.items ++ flat_map aside concerns.now) }
{
    for concern in concerns {
        push_concern(text, concern)?;
    }
    Ok(())
}

fn push_concern(text: &mut Vec<u8>, concern: &Word) -> Result<(), AllocError>
    ensures { OnOk result (text.new.items ≡ text.old.items ++ aside concern.now) }
{
    text.extend_from_slice(b"  ")?;
    text.extend_from_slice(concern.as_bytes())?;
    text.extend_from_slice(b"\n")?;
    Ok(())
}

/// The lines of the text. There is none if the text is too long, or not UTF-8.
fn lines_of(alloc: Global, text: &[u8]) -> Result<Vec<Line>, AllocError> {
    match read_lines(alloc, text) {
        Ok(lines) => Ok(lines),
        Err(WordsFault::Text(_)) => Ok(Vec::new(alloc)),
        Err(WordsFault::Memory) => Err(AllocError),
    }
}

/// The faults of the text with these lines, as they are found.
fn faults_of<'a>(alloc: Global, text: &[u8], lines: &'a [Line]) -> Result<Vec<Said<'a>>, AllocError>
    ensures { IfOk result (λ faults. map (λ said. said.0) faults.items ≡ first_faults MOST_FAULTS text.now) }
{
    let mut faults = Vec::new(alloc);
    let mut left = Vec::from_slice(alloc, text)?;
    let mut last = None;
    for _ in 0..MOST_FAULTS {
        let Some(fault) = next_fault(alloc, last, &left)? else {
            return Ok(faults);
        };
        left = without_line(alloc, &left, fault.line)?;
        last = Some(fault.line);
        let hint = hint_at(lines, &fault);
        faults.push((fault, hint))?;
    }
    Ok(faults)
}

/// What may help with the fault, by the words of its line.
fn hint_at<'a>(lines: &'a [Line], fault: &LocatedFault) -> Option<Hint<'a>> {
    match lines.iter().find(|line| line.number() == fault.line) {
        Some(line) => hint_for(&fault.cause, line.words(), lines),
        None => hint_for(&fault.cause, &[], lines),
    }
}

/// The fault of a text, unless it is at the line that was left out last.
fn next_fault(
    alloc: Global,
    last: Option<u32>,
    text: &[u8],
) -> Result<Option<LocatedFault>, AllocError>
    ensures { IfOk result (λ fault. fault ≡ next_fault last (checked_in text.now)) }
{
    match read_checked(alloc, text) {
        Ok(_) => Ok(None),
        Err(ConfigFault::Fault(fault)) => Ok(unless_at(last, fault)),
        Err(ConfigFault::Memory) => Err(AllocError),
    }
}

fn unless_at(last: Option<u32>, fault: LocatedFault) -> Option<LocatedFault>
    ensures { result ≡ next_fault last (Err fault) }
{
    if is_at(last, &fault) {
        None
    } else {
        Some(fault)
    }
}

fn is_at(line: Option<u32>, fault: &LocatedFault) -> bool
    ensures { result ≡ is_at line fault.now }
{
    match line {
        Some(line) => fault.line == line,
        None => false,
    }
}

/// The text without the bytes of the line with this number, counted from 1. The line's end stays.
fn without_line(alloc: Global, text: &[u8], line: u32) -> Result<Vec<u8>, AllocError>
    ensures { IfOk result (λ kept. kept.items ≡ without_line line text.now) }
{
    let mut kept = Vec::new(alloc);
    let mut now: usize = 1;
    for byte in text {
        if *byte == b'\n' {
            kept.push(b'\n')?;
            now += 1;
        } else if now != line as usize {
            kept.push(*byte)?;
        }
    }
    Ok(kept)
}

/// The lines of the faults with their hints, and how many these are.
fn faults_text(alloc: Global, faults: &[Said<'_>]) -> Result<Vec<u8>, AllocError>
    ensures { IfOk result (λ text. text.items ≡ faults_text faults.now) }
{
    let mut text = Vec::new(alloc);
    push_faults(alloc, &mut text, faults)?;
    push_count(alloc, &mut text, faults.len())?;
    Ok(text)
}

/// Appends the lines of the faults to the text, each with its hint.
fn push_faults(alloc: Global, text: &mut Vec<u8>, faults: &[Said<'_>]) -> Result<(), AllocError>
    ensures { OnOk result (text.new.items ≡ text.old.items ++ flat_map said_lines faults.now) }
{
    for said in faults {
        push_said(alloc, text, said)?;
    }
    Ok(())
}

fn push_said(alloc: Global, text: &mut Vec<u8>, said: &Said<'_>) -> Result<(), AllocError>
    ensures { OnOk result (text.new.items ≡ text.old.items ++ said_lines said.now) }
{
    let line = config_fault_line(alloc, &said.0)?;
    text.extend_from_slice(&line)?;
    push_hint(text, said.1)
}

/// Appends the line of the hint, if there is one.
fn push_hint(text: &mut Vec<u8>, hint: Option<Hint<'_>>) -> Result<(), AllocError>
    ensures { OnOk result (text.new.items ≡ text.old.items ++ hint_line hint.entry) }
{
    let Some(hint) = hint else {
        return Ok(());
    };
    text.extend_from_slice(b"  ")?;
    hint.push(text)?;
    text.extend_from_slice(b"\n")
}

/// Appends how many faults there are.
fn push_count(alloc: Global, text: &mut Vec<u8>, count: usize) -> Result<(), AllocError>
    ensures { OnOk result (text.new.items ≡ text.old.items ++ count_line count) }
{
    text.extend_from_slice(count.to_string(alloc)?.as_bytes())?;
    text.extend_from_slice(count_words(count))
}

fn count_words(count: usize) -> &'static [u8]
    ensures { result.now ≡ count_words count }
{
    if count == 1 {
        b" fault\n"
    } else if count < MOST_FAULTS {
        b" faults\n"
    } else {
        b" faults or more\n"
    }
}
