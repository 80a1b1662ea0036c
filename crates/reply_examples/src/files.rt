//! Which files a command line reads and writes, and in which order.

ghost use Rattle.std.specs.Prelude.{◌≡◌, false, IfOk};

use crate::asking::{LOST, Texts, done_with, files_of};
use crate::texts::{ONCE, agrees, columns};
use leastfault::{BytesFault, Executed, NoWatch};
use lf_streams::in_memory::InMemory;
use std::alloc::{AllocError, Global};
use std::rt::Clock;
use std::sync::Wait;
use std::thread::Threads;

/// The name of a file, and `*` for standard input and output.
fn shown(name: &Option<String>) -> &str {
    match name {
        Some(name) => name.as_str(),
        None => "*",
    }
}

/// What a command came to: its status, or the device that failed.
fn ended(done: Option<Result<Executed, BytesFault>>) -> &'static str {
    match done {
        Some(Ok(done)) => match done.reply.value.status {
            0 => "0",
            1 => "1",
            _ => "2",
        },
        Some(Err(BytesFault::Read)) => "read",
        Some(Err(BytesFault::Write)) => "write",
        Some(Err(_)) => "other",
        None => "none",
    }
}

/// What was read, up to which limit, and what was written, and how many bytes.
fn told(alloc: Global, end: &str, files: &InMemory) -> Result<String, AllocError> {
    let mut text = String::from_str(alloc, end)?;
    for taken in files.taken.as_slice() {
        write!(text, " <{} {}", shown(&taken.name), taken.limit)?;
    }
    for written in files.written.as_slice() {
        write!(text, " >{} {}", shown(&written.name), written.bytes.len())?;
    }
    Ok(text)
}

/// Whether the words of a row read and write what stands behind them, where so many reads and writes are done before each one fails.
fn row_is_so(rt: &(impl Threads + Wait + Clock + Sync), alloc: Global, row: &str) -> bool {
    let (line, rest) = columns(row);
    let (reads, rest) = columns(rest);
    let (writes, wanted) = columns(rest);
    let (Ok(reads), Ok(writes)) = (reads.parse::<usize>(), writes.parse::<usize>()) else {
        return false;
    };
    let texts = Texts {
        protocol: "name =",
        scenario: ONCE,
        tree: LOST,
    };
    let Ok(mut files) = files_of(alloc, texts, reads, writes) else {
        return false;
    };
    let end = ended(done_with(rt, alloc, line, &mut files, &NoWatch));
    match told(alloc, end, &files) {
        Ok(told) => told.as_str() == wanted,
        Err(_) => false,
    }
}

/// Words, how many reads and writes are done, and what they come to.
const ROWS: &str = concat!(
    // one text, and the reply
    "search+s|3|2|1 <s 65536 >* 20\n",
    "search+-|3|2|1 <* 65536 >* 20\n",
    "run+s+,|3|2|2 <s 65536 >* 15\n",
    "protocol+p|3|2|2 <p 65536 >* 19\n",
    // the certificate comes first, into its own file, also where that is `-`
    "search+s+--tree+c|3|2|1 <s 65536 >c 141 >* 20\n",
    "search+-+--tree+-|3|2|1 <* 65536 >- 141 >* 20\n",
    // of a check two texts are read, and with a protocol three, before anything is refused
    "check+s+t|3|2|0 <s 65536 <t 16777216 >* 4\n",
    "check+-+t|3|2|0 <* 65536 <t 16777216 >* 4\n",
    "check+s+-|3|2|2 <s 65536 <* 16777216 >* 15\n",
    "check+s+t+--protocol+p|3|2|2 <p 65536 <s 65536 <t 16777216 >* 19\n",
    // where there is no answer there is no certificate
    "search+p+--tree+c|3|2|2 <p 65536 >* 10\n",
    "search+s+--tree+c+--protocol+p|3|2|2 <p 65536 <s 65536 >* 19\n",
    // a file that isn't there, and a read that fails: nothing is written
    "search+n+--tree+c|3|2|read\n",
    "check+s+n|3|2|read <s 65536\n",
    "search+s+--protocol+-|3|2|read\n",
    "check+s+t|0|2|read\n",
    "check+s+t|1|2|read <s 65536\n",
    // a certificate that can't be written leaves standard output as it was, and the reply comes behind it
    "search+s+--tree+c|3|0|write <s 65536\n",
    "search+s+--tree+c|3|1|write <s 65536 >c 141\n",
    "search+s|3|0|write <s 65536\n",
);

#[test]
fn words_read_and_write_the_files_that_they_name(rt: HostRuntime) {
    for row in ROWS.lines() {
        agrees(&rt, row_is_so(&rt, rt.alloc(), row), row);
    }
}
