ghost use Rattle.std.specs.Prelude.{◌≡◌, ◌+◌, ◌≤◌, true, false, length, option_map, IfOk, OnOk, if◌then◌else◌};
ghost use Rattle.lb_replay_lines.specs.Lines.{is_end, lines_of, without_end};
ghost use Rattle.lb_replay_lines.specs.Readings.{AddsLine, AddsThroughEnd, AtEnd, IsReadWhole, ReadsLine, unread};

use std::alloc::Global;
use std::io;
use std::io::{BufRead, ErrorKind};
use std::marker::Model;

/// A script that is read line by line.
#[derive(Drop)]
pub struct ScriptLines<S: BufRead> {
    script: S,
    /// What was read last: a line, or the lines of a plan's text, with their ends.
    piece: Vec<u8>,
    first: u64,
    count: u64,
}

impl<S: BufRead> Model for ScriptLines<S> {
    ghost use Rattle.std.specs.Option.{option_map};
    ghost use Rattle.lb_replay_lines.specs.Lines.{lines_of};
    ghost use Rattle.lb_replay_lines.specs.Readings.{ReadingView};

    ghost Value = { ReadingView };

    ghost view = { λ l. record {
      left = option_map lines_of (S.remaining l.script);
      piece = l.piece.items;
      first = l.first;
      count = l.count;
    } };
}

impl<S: BufRead> ScriptLines<S> {
    /// The script before its first line. Allocates nothing.
    pub fn new(alloc: Global, script: S) -> Self
        ensures { result ≡ unread (option_map lines_of (S.remaining script)) }
    {
        ScriptLines {
            script,
            piece: Vec::new(alloc),
            first: 0,
            count: 0,
        }
    }

    /// Reads the next line, and returns whether there was one. What was read before is dropped, and its memory used again.
    pub fn next_line(&mut self) -> io::Result<bool>
        ensures line { IfOk result (λ has_line. has_line ≡ true → ReadsLine self.old self.new) }
        ensures end { IfOk result (λ has_line. has_line ≡ false → IsReadWhole self.old.left) }
    {
        self.piece.clear();
        if !self.add_line()? {
            return Ok(false);
        }
        self.first = self.count;
        Ok(true)
    }

    /// Reads the lines of a plan's text after its first one: through the line `end`, or all that are left if there is none.
    pub fn read_plan_text(&mut self) -> io::Result<()>
        ensures added { OnOk result (AddsThroughEnd self.old.left self.old self.new) }
        ensures first { OnOk result (self.new.first ≡ self.old.first) }
    {
        for _ in 0..u64::MAX {
            let start = self.piece.len();
            if !self.add_line()? {
                return Ok(());
            }
            if is_end(&self.piece[start..]) {
                return Ok(());
            }
        }
        Err(too_many_lines())
    }

    /// The number of the first line that was read last, from 1 on.
    pub fn number(&self) -> u64
        ensures { result ≡ self.now.first }
    {
        self.first
    }

    /// What was read last: a line, or the lines of a plan's text, with their ends.
    pub fn piece(&self) -> &[u8]
        ensures { result.now ≡ self.now.piece }
    {
        &self.piece
    }

    /// The line that was read last, without its end.
    pub fn line(&self) -> &[u8]
        ensures { result.now ≡ without_end self.now.piece }
    {
        match self.piece.split_last() {
            Some((&b'\n', line)) => line,
            _ => &self.piece,
        }
    }

    /// Adds the next line to what was read, and returns whether there was one.
    fn add_line(&mut self) -> io::Result<bool>
        ensures line { IfOk result (λ has_line. has_line ≡ true
            → AddsLine self.old.left self.old.piece self.new.piece self.new.left) }
        ensures count { IfOk result (λ has_line. self.new.count
            ≡ (if has_line then self.old.count + 1 else self.old.count)) }
        ensures end { IfOk result (λ has_line. has_line ≡ false
            → AtEnd self.old.left self.old.piece self.new.piece self.new.left) }
        ensures first { OnOk result (self.new.first ≡ self.old.first) }
        ensures grows { OnOk result (length self.old.piece ≤ length self.new.piece) }
    {
        let read = self.script.read_until(b'\n', &mut self.piece)?;
        if read == 0 {
            return Ok(false);
        }
        self.count = self.count.checked_add(1).ok_or_else(too_many_lines)?;
        Ok(true)
    }
}

/// Whether the line ends a plan's text.
fn is_end(line: &[u8]) -> bool
    ensures { result ≡ is_end line.now }
{
    line == b"end\n".as_slice()
}

/// More lines than can be counted.
fn too_many_lines() -> io::Error {
    io::Error::from(ErrorKind::FileTooLarge)
}
