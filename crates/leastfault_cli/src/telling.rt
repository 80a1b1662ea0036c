//! What is said of words that ask for nothing, and on standard error.

use crate::devices::print;
use crate::stop::Stop;
use leastfault::BytesFault;
use leastfault_sweep::SweepUnasked;
use std::alloc::AllocError;

/// Tells why the words behind `sweep` or `doubt` ask for nothing: help on standard output, and anything else on standard error. The answer is the
/// status.
pub(crate) fn unasked_told(rt: &HostRuntime, unasked: &SweepUnasked) -> Result<u8, Stop> {
    if unasked.status() == 3 {
        return Err(Stop::from(BytesFault::Memory));
    }
    if unasked.is_error() {
        return told(rt, unasked.text());
    }
    print(rt, unasked.text())?;
    Ok(unasked.status())
}

/// Says on standard error what is wrong. The answer is the status.
pub(crate) fn told(rt: &HostRuntime, text: &str) -> Result<u8, Stop> {
    match eprint!(rt; "{text}") {
        Ok(()) => Ok(2),
        Err(_) => Err(Stop::from(BytesFault::Write)),
    }
}

/// Says on standard error what there is to say, as far as there is memory for it.
pub(crate) fn hinted(rt: &HostRuntime, words: Result<String, AllocError>) {
    if let Ok(words) = words {
        if !words.is_empty() {
            let _told = eprintln!(rt; "{words}").is_ok();
        }
    }
}
