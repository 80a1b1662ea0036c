//! Sources and sinks that give and take in pieces, fail at a call, or never end.

ghost use Rattle.std.specs.Prelude.{◌<◌, ◌≤◌};

use lf_streams::testing::{Chunks, Endless, FailsAfter};
use lf_streams::{Failed, FromRead, ReadFault, Sink, Source, ToWrite, read_up_to, write_all};
use std::alloc::{AllocError, Global};
use std::io::{self, ErrorKind, Read};
use std::process::Abort;

/// Seven bytes.
const DIGITS: [u8; 7] = [3, 1, 4, 1, 5, 9, 2];

/// What is looked at is so. Each comparison is this one: an assertion is dear to prove.
fn is_so(rt: &impl Abort, truth: bool, what: &str, number: usize) {
    assert!(rt; truth, "{what}: {number}");
}

/// Whether a source gives these bytes up to the limit, and none of its reads has failed.
fn gives<S: Source>(alloc: Global, source: &mut S, limit: usize, wanted: &[u8]) -> bool {
    if source.failed() {
        return false;
    }
    match read_up_to(alloc, source, limit) {
        Ok(bytes) => bytes.as_slice() == wanted && !source.failed(),
        Err(_) => false,
    }
}

/// Whether a source of so many bytes a call is read to its end.
fn is_read(alloc: Global, held: &[u8], most: usize, limit: usize) -> bool {
    let mut source = Chunks {
        inner: FromRead::new(held),
        most,
    };
    gives(alloc, &mut source, limit, held)
}

#[test]
fn a_short_read_is_not_the_end(rt: HostRuntime) {
    for most in 0..9 {
        for limit in [6, 7, 100] {
            let is_whole = is_read(rt.alloc(), &DIGITS, most, limit);
            is_so(&rt, is_whole, "read to the end in pieces of", most);
        }
    }
}

/// Whether a byte past the limit is taken, and the rest is left.
fn takes_one_more(alloc: Global, limit: usize) -> bool
    requires { limit < 7 }
{
    let mut source = FromRead::new(DIGITS.as_slice());
    gives(alloc, &mut source, limit, &DIGITS[..limit + 1])
        && gives(alloc, &mut source, 100, &DIGITS[limit + 1..])
}

#[test]
fn one_byte_past_the_limit_is_taken_and_no_more(rt: HostRuntime) {
    for limit in 0..7 {
        let takes = takes_one_more(rt.alloc(), limit);
        is_so(&rt, takes, "one byte more than", limit);
    }
}

/// So many bytes, of which none is like the one before it.
fn many(alloc: Global, count: u32) -> Result<Vec<u8>, AllocError> {
    let mut bytes = Vec::new(alloc);
    for i in 0..count {
        bytes.push((i % 251) as u8)?;
    }
    Ok(bytes)
}

/// Whether a source of so many bytes is read to its end.
fn is_long_read(alloc: Global, count: u32) -> bool {
    match many(alloc, count) {
        Ok(held) => is_read(alloc, held.as_slice(), 4999, 1_000_000),
        Err(_) => false,
    }
}

#[test]
fn a_long_source_is_read_in_order(rt: HostRuntime) {
    let is_whole = is_long_read(rt.alloc(), 10_000);
    is_so(&rt, is_whole, "bytes in order", 10_000);
}

/// Whether a source that fails after so many calls is read to its end, or is told to have failed where they are too few.
fn is_read_after(alloc: Global, calls: usize) -> bool {
    let pieces = Chunks {
        inner: FromRead::new(DIGITS.as_slice()),
        most: 3,
    };
    let mut source = FailsAfter::new(pieces, calls);
    match read_up_to(alloc, &mut source, 100) {
        // Three reads bring the bytes, and one the end.
        Ok(bytes) => 4 <= calls && bytes.as_slice() == DIGITS.as_slice() && !source.failed(),
        Err(fault) => calls < 4 && fault == ReadFault::Failed && source.failed(),
    }
}

#[test]
fn a_source_that_fails_at_any_call_is_told(rt: HostRuntime) {
    for calls in 0..20 {
        let is_told = is_read_after(rt.alloc(), calls);
        is_so(&rt, is_told, "calls before a read fails", calls);
    }
}

/// Whether a source without end is left at the limit.
fn is_left(alloc: Global, limit: usize) -> bool
    requires { limit ≤ 10000 }
{
    let mut source = Endless { taken: 0 };
    match read_up_to(alloc, &mut source, limit) {
        Ok(bytes) => {
            bytes.len() == limit + 1 && source.taken == limit as u64 + 1 && !source.failed()
        }
        Err(_) => false,
    }
}

#[test]
fn a_source_without_end_is_left_at_the_limit(rt: HostRuntime) {
    for limit in [0, 1, 4095, 4096, 10_000] {
        let is_left = is_left(rt.alloc(), limit);
        is_so(&rt, is_left, "a source without end, up to", limit);
    }
}

/// Whether all bytes come to a sink. None where what is answered is not what the sink says of itself.
fn takes<K: Sink>(sink: &mut K) -> Option<bool> {
    if sink.failed() {
        return None;
    }
    let is_well = write_all(sink, &DIGITS).is_ok();
    if sink.failed() != is_well {
        Some(is_well)
    } else {
        None
    }
}

/// Whether all bytes come behind one that is there, where the sink takes so many a call.
fn is_written(alloc: Global, most: usize) -> bool {
    let mut out = Vec::new(alloc);
    if out.push(8).is_err() {
        return false;
    }
    let mut sink = Chunks {
        inner: ToWrite::new(&mut out),
        most,
    };
    let all = [8, 3, 1, 4, 1, 5, 9, 2];
    takes(&mut sink) == Some(true) && out.as_slice() == all.as_slice()
}

#[test]
fn a_short_write_is_gone_on_with(rt: HostRuntime) {
    for most in 0..9 {
        let is_written = is_written(rt.alloc(), most);
        is_so(&rt, is_written, "written in pieces of", most);
    }
}

/// Whether a sink that fails after so many calls has the bytes of these calls, and is told to have failed where they are too few.
fn is_written_after(alloc: Global, calls: usize) -> bool
    requires { calls < 20 }
{
    let mut out = Vec::new(alloc);
    let pieces = Chunks {
        inner: ToWrite::new(&mut out),
        most: 3,
    };
    let mut sink = FailsAfter::new(pieces, calls);
    let count = (3 * calls).min(7);
    takes(&mut sink) == Some(3 <= calls) && out.as_slice() == &DIGITS[..count]
}

#[test]
fn a_sink_that_fails_at_any_call_has_a_part_from_the_front(rt: HostRuntime) {
    for calls in 0..20 {
        let is_part = is_written_after(rt.alloc(), calls);
        is_so(&rt, is_part, "calls before a write fails", calls);
    }
}

/// Whether no bytes go into no room, and seven do not.
fn is_full_at_once() -> bool {
    let mut none: [u8; 0] = [];
    let mut sink = ToWrite::new(none.as_mut_slice());
    write_all(&mut sink, &[]).is_ok()
        && !sink.failed()
        && write_all(&mut sink, &DIGITS).is_err()
        && sink.failed()
}

/// Whether of seven bytes five go into room for five.
fn is_full_later() -> bool {
    let mut room = [0; 5];
    let mut sink = ToWrite::new(room.as_mut_slice());
    let is_full = write_all(&mut sink, &DIGITS).is_err() && sink.failed();
    is_full && room.as_slice() == &DIGITS[..5]
}

#[test]
fn a_sink_with_no_room_fails_at_the_first_byte(rt: HostRuntime) {
    is_so(
        &rt,
        is_full_at_once(),
        "none and seven bytes, into room for",
        0,
    );
    is_so(&rt, is_full_later(), "seven bytes, into room for", 5);
}

/// A reader that a signal interrupts at each read but the second.
#[derive(Drop)]
struct Interrupted {
    reads: u32,
}

impl Read for Interrupted {
    fn read(&mut self, _buf: &mut [u8]) -> io::Result<usize> {
        self.reads = self.reads.saturating_add(1);
        if self.reads == 2 {
            Ok(0)
        } else {
            Err(io::Error::from(ErrorKind::Interrupted))
        }
    }
}

/// Whether an interrupted read is a failure, which the source remembers at a read that is none.
fn is_remembered() -> bool {
    let mut source = FromRead::new(Interrupted { reads: 0 });
    let mut buf = [0; 4];
    let is_well = !source.failed();
    let is_told = source.read(&mut buf) == Err(Failed) && source.failed();
    let is_kept = source.read(&mut buf) == Ok(0) && source.failed();
    is_well && is_told && is_kept
}

/// Whether the source is told to have failed where it is read up to a limit.
fn is_told(alloc: Global) -> bool {
    let mut source = FromRead::new(Interrupted { reads: 0 });
    match read_up_to(alloc, &mut source, 9) {
        Ok(_) => false,
        Err(fault) => fault == ReadFault::Failed,
    }
}

#[test]
fn an_interrupted_read_is_a_failure_and_is_remembered(rt: HostRuntime) {
    is_so(&rt, is_remembered(), "reads of it", 2);
    is_so(&rt, is_told(rt.alloc()), "bytes at most", 9);
}

/// Whether a failure and two faults have these words.
fn are_words(alloc: Global, wanted: &str) -> bool {
    match format!(in alloc; "{}, {}, {}", Failed, ReadFault::Failed, ReadFault::Memory) {
        Ok(words) => words.as_str() == wanted,
        Err(_) => false,
    }
}

#[test]
fn faults_are_told_in_words(rt: HostRuntime) {
    let wanted = "a device failed, the source failed, out of memory";
    is_so(&rt, are_words(rt.alloc(), wanted), "words", 3);
}
