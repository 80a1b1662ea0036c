//! Memory for a worker's thread.

use std::alloc::{AllocError, Global};

/// How many bytes a worker has the allocator fetch: nearly 32 MiB, the most that glibc's takes from a thread's own memory.
const FETCHED: usize = 32_000_000;

/// Has the allocator fetch memory for this thread at once, if it can. It is given back before this returns, with nothing written there, so it
/// takes no memory until the allocator hands it out again.
///
/// glibc's allocator has memory for each thread, which it enlarges page by page otherwise. Each time is a call of the system that waits for the
/// page faults of all threads, and they for it. It takes so much from there only once such a size was given back: so it is asked twice.
pub(crate) fn fetch_memory(alloc: Global) {
    for _time in 0..2 {
        let _fetched: Result<Vec<u8>, AllocError> = Vec::with_capacity(alloc, FETCHED);
    }
}
