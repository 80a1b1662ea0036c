//! Files in memory, for tests: they keep what was read and written, and fail at a given call.

ghost use Rattle.std.specs.Prelude.{◌≡◌, ◌+◌, false, true, map, take, Some, IfOk, is_some, string_bytes};
ghost use Rattle.std.specs.Option.{option_map};
ghost use Rattle.lf_streams.specs.Files.{Desk, name_of};
ghost use Rattle.lf_streams.specs.InMemory.{file_in, held_in, taken_of, written_of};

use crate::{Failed, Files, Place, ReadFault};
use std::alloc::{AllocError, Global};

/// A file in memory.
#[derive(Debug, Drop)]
pub struct Held {
    /// Its name.
    pub name: String,
    /// What it has.
    pub bytes: Vec<u8>,
}

/// That a text was read.
#[derive(Debug, Drop)]
pub struct Taken {
    /// Of which file, or of standard input.
    pub name: Option<String>,
    /// How long it was allowed to be, in bytes.
    pub limit: usize,
}

/// What was written.
#[derive(Debug, Drop)]
pub struct Written {
    /// Into which file, or to standard output.
    pub name: Option<String>,
    /// The bytes.
    pub bytes: Vec<u8>,
}

/// Files in memory, and standard input and output.
#[derive(Debug, Drop)]
pub struct InMemory {
    alloc: Global,
    /// The files that can be read: of two with one name the first.
    pub files: Vec<Held>,
    /// What standard input has.
    pub input: Vec<u8>,
    /// What was read so far, in this order.
    pub taken: Vec<Taken>,
    /// What was written so far, in this order.
    pub written: Vec<Written>,
    /// How many reads and writes are still done before each one fails.
    pub reads: usize,
    /// How many writes are still done before each one fails.
    pub writes: usize,
    /// Whether a read has failed.
    pub read_failed: bool,
    /// Whether a write has failed.
    pub write_failed: bool,
}

impl InMemory {
    /// No files, and nothing on standard input. So many reads and writes are done before each one fails.
    pub fn new(alloc: Global, reads: usize, writes: usize) -> InMemory
        ensures read { result.read_failed ≡ false }
        ensures written { result.write_failed ≡ false }
    {
        InMemory {
            alloc,
            files: Vec::new(alloc),
            input: Vec::new(alloc),
            taken: Vec::new(alloc),
            written: Vec::new(alloc),
            reads,
            writes,
            read_failed: false,
            write_failed: false,
        }
    }

    /// What a file or standard input has.
    fn text_of(&self, place: Place<'_>) -> Option<&[u8]>
        ensures { option_map (λ text. text.now) result ≡ held_in self.now.files.items self.now.input.items (name_of place.entry) }
    {
        match place {
            Place::Standard => Some(self.input.as_slice()),
            Place::File(name) => text_in(self.files.as_slice(), name),
        }
    }
}

/// What the first file of this name has.
fn text_in<'a>(files: &'a [Held], name: &str) -> Option<&'a [u8]>
    ensures { option_map (λ text. text.now) result ≡ file_in files.now name.now }
{
    let mut rest = files;
    while let Some((file, more)) = rest.split_first() {
        if file.name.as_str() == name {
            return Some(file.bytes.as_slice());
        }
        rest = more;
    }
    None
}

/// The first bytes of a text, one past the limit at the most.
fn front(text: &[u8], limit: usize) -> &[u8]
    ensures { result.now ≡ take (limit + 1) text.now }
{
    if limit < text.len() {
        &text[..limit + 1]
    } else {
        text
    }
}

/// The name of a file; none for standard input and output.
fn named(alloc: Global, place: Place<'_>) -> Result<Option<String>, AllocError>
    ensures { IfOk result (λ name. option_map string_bytes name ≡ name_of place.entry) }
{
    match place {
        Place::Standard => Ok(None),
        Place::File(name) => Ok(Some(String::from_str(alloc, name)?)),
    }
}

/// What is written where.
fn to_write(alloc: Global, place: Place<'_>, bytes: &[u8]) -> Result<Written, AllocError>
    ensures { IfOk result (λ one. written_of one ≡ (name_of place.entry, bytes.now)) }
{
    Ok(Written {
        name: named(alloc, place)?,
        bytes: Vec::from_slice(alloc, bytes)?,
    })
}

impl Files for InMemory {
    ghost desk = { λ memory. record {
      holds = held_in memory.files.items memory.input.items;
      reads = Some (map taken_of memory.taken.items);
      writes = Some (map written_of memory.written.items);
      read_failed = memory.read_failed;
      write_failed = memory.write_failed;
    } };

    fn read(
        &mut self,
        alloc: Global,
        place: Place<'_>,
        limit: usize,
    ) -> Result<Vec<u8>, ReadFault> {
        let text = match self.text_of(place) {
            Some(text) if self.reads > 0 => Vec::from_slice(alloc, front(text, limit))?,
            _ => {
                self.read_failed = true;
                return Err(ReadFault::Failed);
            }
        };
        let name = named(alloc, place)?;
        if self.taken.push(Taken { name, limit }).is_err() {
            return Err(ReadFault::Memory);
        }
        self.reads -= 1;
        Ok(text)
    }

    fn write(&mut self, place: Place<'_>, bytes: &[u8]) -> Result<(), Failed> {
        if self.writes > 0 {
            self.writes -= 1;
            if let Ok(one) = to_write(self.alloc, place, bytes) {
                if self.written.push(one).is_ok() {
                    return Ok(());
                }
            }
        }
        self.write_failed = true;
        Err(Failed)
    }
}
