//! The system's files, with standard input and output.

ghost use Rattle.std.specs.Prelude.{◌≡◌, ◌+◌, ◌≤◌, false, None, IfOk, length};

use crate::devices::{Input, name_of, opened_input, write_file};
use crate::line::Line;
use crate::stop::Stop;
use leastfault::{BytesFault, Failed, Files, FromRead, Place};
use lf_streams::{ReadFault, read_up_to};
use std::alloc::Global;
use std::io::Write;

/// The system's files, with standard input and output. Before anything is written the line on standard error is erased.
#[derive(Drop)]
pub(crate) struct Disk<'a> {
    rt: &'a HostRuntime,
    line: &'a Line<'a>,
    /// Whether a read has failed.
    read_failed: bool,
    /// Whether a write has failed.
    write_failed: bool,
    /// Why the last one that failed did.
    stop: Option<Stop>,
}

impl<'a> Disk<'a> {
    /// The files, of which nothing was read or written.
    pub(crate) fn new(rt: &'a HostRuntime, line: &'a Line<'a>) -> Disk<'a>
        ensures read { result.read_failed ≡ false }
        ensures written { result.write_failed ≡ false }
    {
        Disk {
            rt,
            line,
            read_failed: false,
            write_failed: false,
            stop: None,
        }
    }

    /// Why the program ends with this fault: with the device and the system's reason, where one failed.
    pub(crate) fn stopped(self, fault: BytesFault) -> Stop {
        match self.stop {
            Some(stop) => stop,
            None => Stop::from(fault),
        }
    }
}

impl Files for Disk<'_> {
    ghost desk = { λ disk. record {
      holds = λ _. None;
      reads = None;
      writes = None;
      read_failed = disk.read_failed;
      write_failed = disk.write_failed;
    } };

    fn read(
        &mut self,
        alloc: Global,
        place: Place<'_>,
        limit: usize,
    ) -> Result<Vec<u8>, ReadFault> {
        match text_of(self.rt, alloc, place, limit) {
            Ok(text) => Ok(text),
            Err(stop) if stop.is_memory() => Err(ReadFault::Memory),
            Err(stop) => {
                self.stop = Some(stop);
                self.read_failed = true;
                Err(ReadFault::Failed)
            }
        }
    }

    fn write(&mut self, place: Place<'_>, bytes: &[u8]) -> Result<(), Failed> {
        self.line.erase();
        let (name, written) = match place {
            Place::Standard => ("standard output", self.rt.stdout().write_all(bytes)),
            Place::File(file) => (file, write_file(self.rt, file, bytes)),
        };
        match written {
            Ok(()) => Ok(()),
            Err(error) => {
                self.stop = Some(Stop::at(self.rt.alloc(), BytesFault::Write, name, &error));
                self.write_failed = true;
                Err(Failed)
            }
        }
    }
}

/// What a file or standard input has, or as much of it as tells that it is longer than `limit`.
fn text_of(rt: &HostRuntime, alloc: Global, place: Place<'_>, limit: usize) -> Result<Vec<u8>, Stop>
    ensures { IfOk result (λ text. length text.items ≤ limit + 1) }
{
    let (name, input) = match place {
        Place::Standard => (name_of("-"), Input::Standard(rt.stdin())),
        Place::File(file) => (file, opened_input(rt, file)?),
    };
    let mut source = FromRead::new(input);
    match read_up_to(alloc, &mut source, limit) {
        Ok(text) => Ok(text),
        Err(ReadFault::Memory) => Err(Stop::from(BytesFault::Memory)),
        Err(ReadFault::Failed) => Err(match source.error() {
            Some(error) => Stop::at(alloc, BytesFault::Read, name, error),
            None => Stop::from(BytesFault::Read),
        }),
    }
}
