//! Whether names are of one file.

use std::fs::metadata;
use std::os::unix::fs::MetadataExt;

/// Whether both names are of one file that is there, however each is spelled and whichever links lead there. Where the system doesn't tell,
/// they aren't. Devices don't count: what is written to one replaces nothing.
pub(crate) fn is_same_file(rt: &HostRuntime, one: &str, other: &str) -> bool {
    match (metadata(rt, one), metadata(rt, other)) {
        (Ok(one), Ok(other)) => {
            one.is_file() && one.dev() == other.dev() && one.ino() == other.ino()
        }
        _ => false,
    }
}
