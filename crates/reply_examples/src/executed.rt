//! Sweeps, by their words, with files in memory: which texts are read, and what comes of them.

ghost use Rattle.std.specs.Prelude.{◌≡◌, false, IfOk};

use leastfault::BytesFault;
use leastfault_sweep::{Ended, SweepExecuted, execute, sweep_asked};
use lf_streams::ToWrite;
use lf_streams::in_memory::{Held, InMemory};
use std::alloc::{AllocError, Global};
use std::process::Abort;
use std::thread::Threads;

/// Three nodes that commit, of which one may crash.
const COMMIT: &str = concat!(
    "nodes = 3\nhorizon = 5\nlast_omission = 0\ncrashes = 1\nbudget = 1\n",
    "protocol = \"two_phase\"\npatience = 3\nvotes = [true, true]\noutcome = \"unblocked\"\n"
);

/// What is found is what is wanted. Each comparison ends here: an assertion is dear to prove.
fn agrees(rt: &impl Abort, truth: bool, what: &str) {
    assert!(rt; truth, "at {what}");
}

/// The file `s`, which has the scenario, the file `p`, which is no protocol, and standard input, which has none. So many reads are done before one fails.
fn files_of(alloc: Global, reads: usize) -> Result<InMemory, AllocError>
    ensures { IfOk result (λ files. files.read_failed ≡ false) }
{
    let mut files = InMemory::new(alloc, reads, 0);
    files.input = Vec::from_slice(alloc, b"nodes =")?;
    files.files.push(held(alloc, "s", COMMIT)?)?;
    files.files.push(held(alloc, "p", "name = 1\n")?)?;
    Ok(files)
}

/// A file.
fn held(alloc: Global, name: &str, text: &str) -> Result<Held, AllocError> {
    Ok(Held {
        name: String::from_str(alloc, name)?,
        bytes: Vec::from_slice(alloc, text.as_bytes())?,
    })
}

/// The words of a line.
fn words_of(alloc: Global, line: &str) -> Result<Vec<String>, AllocError> {
    let mut words = Vec::new(alloc);
    for word in line.split(' ') {
        words.push(String::from_str(alloc, word)?)?;
    }
    Ok(words)
}

/// What the words of a line come to with these files, and the lines in `out`. None where they ask for nothing.
fn done_with(
    rt: &(impl Threads + Sync),
    alloc: Global,
    line: &str,
    files: &mut InMemory,
    out: &mut Vec<u8>,
) -> Option<Result<SweepExecuted, BytesFault>>
    requires { files.old.read_failed ≡ false }
{
    let words = words_of(alloc, line).ok()?;
    let asked = sweep_asked(alloc, words.as_slice()).ok()?;
    let mut sink = ToWrite::new(out);
    Some(execute(rt, alloc, &asked, files, &mut sink))
}

/// What a sweep came to: what was read, the status, and the line of a refusal, or the fault; then the lines.
fn told(
    alloc: Global,
    files: &InMemory,
    done: &Result<SweepExecuted, BytesFault>,
    out: &[u8],
) -> Result<String, AllocError> {
    let mut text = String::new(alloc);
    for taken in files.taken.as_slice() {
        text.push_str(taken.name.as_deref().unwrap_or("-"))?;
        text.push(' ')?;
    }
    match done {
        Ok(done) => text.push_str(end_of(&done.ended))?,
        Err(BytesFault::Read) => text.push_str("read\n")?,
        Err(_) => text.push_str("another fault\n")?,
    }
    text.push_str(std::str::from_utf8(out).unwrap_or("no text"))?;
    Ok(text)
}

/// What a sweep ended with.
fn end_of(ended: &Ended) -> &str {
    match ended {
        Ended::Swept(counts) if counts.status() == 0 => "0\n",
        Ended::Swept(_) => "1\n",
        Ended::Refused(line) => line.as_str(),
        Ended::Undated => "undated\n",
    }
}

/// Whether the words of a line come to this, where so many reads are done before one fails.
fn comes_to(
    rt: &(impl Threads + Sync),
    alloc: Global,
    line: &str,
    reads: usize,
    wanted: &str,
) -> bool {
    let Ok(mut files) = files_of(alloc, reads) else {
        return false;
    };
    let mut out = Vec::new(alloc);
    let Some(done) = done_with(rt, alloc, line, &mut files, &mut out) else {
        return false;
    };
    match told(alloc, &files, &done, out.as_slice()) {
        Ok(text) => text.as_str() == wanted,
        Err(_) => false,
    }
}

#[test]
fn the_files_that_the_words_name_are_read(rt: HostRuntime) {
    let swept = concat!("s 1\n", "0\tnone 1\n", "1\tleast 1\tcrash 0 @2\n",);
    let rows = [
        ("s --vary crashes=0,1", 2, swept),
        ("s --vary crashes=0,1 --workers 2", 2, swept),
        ("s --vary crashes=0", 1, "s 0\n0\tnone 1\n"),
        ("- --vary crashes=0", 2, "- refused 2\n"),
        (
            "- --vary crashes=0 --protocol p",
            2,
            "p - refused protocol 5 name\n",
        ),
        ("x --vary crashes=0", 2, "read\n"),
        ("s --vary crashes=0", 0, "read\n"),
        ("s --vary crashes=0 --protocol p", 1, "p read\n"),
    ];
    for (line, reads, wanted) in rows {
        agrees(&rt, comes_to(&rt, rt.alloc(), line, reads, wanted), line);
    }
}
