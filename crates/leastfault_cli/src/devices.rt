//! Files that are opened or made, and standard input and output.

use crate::stop::Stop;
use leastfault::BytesFault;
use std::fs::File;
use std::io;
use std::io::{Read, Stdin, Write};

/// What the program reads from.
#[derive(Drop)]
pub(crate) enum Input {
    /// Standard input.
    Standard(Stdin),
    /// A file.
    File(File),
}

impl Read for Input {
    fn read(&mut self, buf: &mut [u8]) -> io::Result<usize> {
        match self {
            Input::Standard(input) => input.read(buf),
            Input::File(file) => file.read(buf),
        }
    }
}

/// What the program calls the file that a word names: standard input is `-`.
pub(crate) fn name_of(file: &str) -> &str {
    if file == "-" { "standard input" } else { file }
}

/// A file that can be read.
pub(crate) fn opened_input(rt: &HostRuntime, file: &str) -> Result<Input, Stop> {
    match File::open(rt, file) {
        Ok(file) => Ok(Input::File(file)),
        Err(error) => Err(Stop::at(rt.alloc(), BytesFault::Read, file, &error)),
    }
}

/// Makes a file that has these bytes and no others.
pub(crate) fn write_file(rt: &HostRuntime, file: &str, bytes: &[u8]) -> io::Result<()> {
    File::create(rt, file)?.write_all(bytes)
}

/// Writes to standard output.
pub(crate) fn print(rt: &HostRuntime, reply: &str) -> Result<(), Stop> {
    match rt.stdout().write_all(reply.as_bytes()) {
        Ok(()) => Ok(()),
        Err(error) => Err(Stop::at(rt.alloc(), BytesFault::Write, "standard output", &error)),
    }
}
