//! The lines of a sweep, on their way to standard output.

ghost use Rattle.std.specs.Prelude.{◌≡◌, ◌<◌, ◌≤◌, false, is_some, length};

use crate::json_line::json_line;
use crate::line::Line;
use leastfault::{Failed, Sink};
use std::alloc::{AllocError, Global};
use std::io;
use std::io::{Stdout, Write};

/// Why a line wasn't written.
#[derive(Drop)]
pub(crate) enum Unwritten {
    Memory,
    Output(io::Error),
}

impl From<AllocError> for Unwritten {
    fn from(_error: AllocError) -> Unwritten {
        Unwritten::Memory
    }
}

/// The lines that were written, as they came, and where it is told how many of all there are.
#[derive(Drop)]
pub(crate) struct Kept<'a> {
    lines: Vec<u8>,
    line: &'a Line<'a>,
    done: u64,
    all: u64,
}

/// A sink that writes each line of a sweep to standard output as it is, or as a JSON object.
#[derive(Drop)]
pub(crate) struct Report<'a> {
    alloc: Global,
    output: Stdout,
    /// What varies, by name.
    names: &'a [String],
    json: bool,
    /// The line so far.
    line: Vec<u8>,
    /// The lines that were written, where they are kept.
    kept: Option<Kept<'a>>,
    /// Why a line wasn't written, where one wasn't.
    unwritten: Option<Unwritten>,
}

impl<'a> Kept<'a> {
    /// No lines yet, of so many.
    pub(crate) fn new(alloc: Global, line: &'a Line<'a>, all: u64) -> Kept<'a> {
        Kept {
            lines: Vec::new(alloc),
            line,
            done: 0,
            all,
        }
    }

    /// Keeps a line.
    fn put(&mut self, line: &[u8]) -> Result<(), AllocError> {
        self.lines.extend_from_slice(line)?;
        self.done = self.done.saturating_add(1);
        self.line.count(self.done, self.all);
        Ok(())
    }
}

impl<'a> Report<'a> {
    /// A sink to which nothing was written.
    pub(crate) fn new(
        alloc: Global,
        output: Stdout,
        names: &'a [String],
        json: bool,
        kept: Option<Kept<'a>>,
    ) -> Report<'a>
        ensures { ⟦<Report<'a> as Sink>⟧.has_failed result ≡ false }
    {
        Report {
            alloc,
            output,
            names,
            json,
            line: Vec::new(alloc),
            kept,
            unwritten: None,
        }
    }

    /// The lines that were written, where they are kept.
    pub(crate) fn kept(&self) -> &[u8] {
        match &self.kept {
            Some(kept) => kept.lines.as_slice(),
            None => &[],
        }
    }

    /// Why a line wasn't written, where one wasn't.
    pub(crate) fn unwritten(&self) -> Option<&Unwritten> {
        self.unwritten.as_ref()
    }

    /// Takes bytes of one line, and writes it where they end it.
    fn take(&mut self, bytes: &[u8]) -> Result<(), Unwritten>
        ensures { self.new.unwritten ≡ self.old.unwritten }
    {
        self.line.extend_from_slice(bytes)?;
        if self.line.as_slice().last() == Some(&b'\n') {
            let shown = shown(self.alloc, self.line.as_slice(), self.names, self.json)?;
            if let Some(kept) = &self.kept {
                kept.line.erase();
            }
            if let Err(error) = self.output.write_all(shown.as_slice()) {
                return Err(Unwritten::Output(error));
            }
            if let Some(kept) = &mut self.kept {
                kept.put(self.line.as_slice())?;
            }
            self.line.clear();
        }
        Ok(())
    }
}

impl Sink for Report<'_> {
    ghost has_failed = { λ report. is_some report.unwritten };

    fn write(&mut self, bytes: &[u8]) -> Result<usize, Failed> {
        let taken = first_line(bytes);
        match self.take(&bytes[..taken]) {
            Ok(()) => Ok(taken),
            Err(unwritten) => {
                self.unwritten = Some(unwritten);
                Err(Failed)
            }
        }
    }

    fn failed(&self) -> bool {
        self.unwritten.is_some()
    }
}

/// How many bytes there are up to the end of the first line, with its line feed, or to the end.
fn first_line(bytes: &[u8]) -> usize
    ensures fits { result ≤ length bytes.now }
    ensures some { 0 < length bytes.now → 0 < result }
{
    match bytes.iter().position(|byte| *byte == b'\n') {
        Some(place) => place + 1,
        None => bytes.len(),
    }
}

/// A line as it is written.
fn shown(alloc: Global, line: &[u8], names: &[String], json: bool) -> Result<Vec<u8>, AllocError> {
    if json {
        json_line(alloc, line, names)
    } else {
        Vec::from_slice(alloc, line)
    }
}
