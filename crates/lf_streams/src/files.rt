//! Files by their names, and standard input and output.

ghost use Rattle.std.specs.Prelude.{◌≡◌, false};
ghost use Rattle.lf_streams.specs.Files.{Desk, Reads, Writes, name_of};

use crate::{Failed, ReadFault};
use std::alloc::Global;

/// Where a text is read or written.
#[derive(Clone, Copy, Debug)]
pub enum Place<'a> {
    /// Standard input for what is read, and standard output for what is written.
    Standard,
    /// The file of this name, also where that is `-`.
    File(&'a str),
}

/// Files that are read and written by their names, and standard input and output.
pub trait Files {
    /// What is known of them.
    ghost desk: { Self → Desk };

    /// The text of a file or of standard input, or its first `limit + 1` bytes: so a text that is longer than `limit` is told by its
    /// length. No more of it is taken. What can be read stays as it was: nobody reads standard input twice.
    ///
    /// `Failed` where there is no such file or a read fails, and `Memory` where memory runs out. No read may have failed.
    fn read(&mut self, alloc: Global, place: Place<'_>, limit: usize) -> Result<Vec<u8>, ReadFault>
        requires { (desk self.old).read_failed ≡ false }
        ensures { Reads (name_of place.entry) limit (desk self.old) (desk self.new) result };

    /// Makes a file that has these bytes and no others, or writes them to standard output behind what was written there. No write may have
    /// failed.
    fn write(&mut self, place: Place<'_>, bytes: &[u8]) -> Result<(), Failed>
        requires { (desk self.old).write_failed ≡ false }
        ensures { Writes (name_of place.entry) bytes.now (desk self.old) (desk self.new) result };
}
