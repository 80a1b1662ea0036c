//! Which files the words of a command line name, and how many workers may search.

use crate::asking::{LOST, words_of};
use crate::texts::{agrees, behind, columns, is_reply, text_of};
use leastfault::{
    Asked, BytesFault, Certified, Executed, NoWatch, Reply, asked, certificate_file, execute,
    tree_file,
};
use lf_streams::in_memory::InMemory;
use std::alloc::Global;
use std::rt::Clock;
use std::sync::Wait;
use std::thread::Threads;

/// What the words of a line ask for, where they ask for something.
fn asked_in(alloc: Global, line: &str) -> Option<Asked> {
    match words_of(alloc, line) {
        Ok(words) => asked(alloc, words.as_slice()).ok(),
        Err(_) => None,
    }
}

/// Whether a reply, its status and whether it has that certificate are those of a row.
fn is_done(done: &Reply<Certified>, wanted: &str) -> bool {
    let (kind, reply) = columns(wanted);
    let is_right = match &done.value.certificate {
        Some(text) => kind == "certified" && text.as_slice() == LOST.as_bytes(),
        None => kind == "plain",
    };
    is_right && is_reply(done.text.as_bytes(), done.value.status, reply)
}

/// Whether the words of a row name these files: the scenario's, the certificate's that is judged and the one's that is written, and `/` for
/// none.
fn files_are_named(alloc: Global, row: &str) -> bool {
    let (words, names) = columns(row);
    let Some(asked) = asked_in(alloc, words) else {
        return false;
    };
    let tree = tree_file(&asked).unwrap_or("/");
    let certificate = certificate_file(&asked).unwrap_or("/");
    match format!(in alloc; "{} {tree} {certificate}", asked.file()) {
        Ok(found) => found.as_str() == names,
        Err(_) => false,
    }
}

/// Words, and the files that they name.
const NAMED: &str = concat!(
    "search+s|s / /\n",
    "search+s+--tree+t|s / t\n",
    "search+-+--tree+-|- / -\n",
    "run+s+t|s / /\n",
    "answer+s|s / /\n",
    "answer+s+--every-delay|s / /\n",
    "run+s+t+--delays+d|s / /\n",
    "why+s|s / /\n",
    "protocol+p|p / /\n",
    "check+s+t|s t /\n",
    "check+-+t|- t /\n",
);

#[test]
fn words_name_files(rt: HostRuntime) {
    for row in NAMED.lines() {
        agrees(&rt, files_are_named(rt.alloc(), row), row);
    }
}

/// What a search by so many workers comes to, with its certificate. Words ask for no number of workers out of range, but a caller may.
fn searched(
    rt: &(impl Threads + Wait + Clock + Sync),
    alloc: Global,
    workers: u32,
    text: &str,
) -> Result<Executed, BytesFault> {
    let mut files = InMemory::new(alloc, 1, 2);
    files.input = Vec::from_slice(alloc, text.as_bytes())?;
    let asked = Asked::Search {
        file: String::from_str(alloc, "-")?,
        tree: Some(String::from_str(alloc, "c")?),
        all: false,
        workers,
        quiet: true,
        protocol: None,
    };
    execute(rt, alloc, &asked, &mut files, &NoWatch)
}

/// Whether a number of workers out of range is told where the scenario isn't refused.
fn is_out_of_range(rt: &(impl Threads + Wait + Clock + Sync), alloc: Global, row: &str) -> bool {
    let (workers, rest) = columns(row);
    let (Ok(workers), Ok(text)) = (workers.parse::<u32>(), text_of(alloc, rest)) else {
        return false;
    };
    match searched(rt, alloc, workers, text.as_str()) {
        Ok(done) => is_done(&done.reply, behind(rest)),
        Err(fault) => behind(rest) == "pool" && fault == BytesFault::Pool(1),
    }
}

/// Numbers of workers, scenarios, and what they come to.
const OUT_OF_RANGE: &str = concat!(
    "0|3 4 3 0 2|protocol = \"retry\";tries = 1;outcome = \"delivered\"|pool\n",
    "33|3 4 3 0 2|protocol = \"retry\";tries = 1;outcome = \"delivered\"|pool\n",
    "33|3 4 3 0 2|protocol = \"retry\";tries = 1;outcome = \"agreement\"|plain|2|refused 10 outcome\n",
    "32|3 4 3 0 2|protocol = \"retry\";tries = 1;outcome = \"delivered\"|certified|1|least 1;omit 0>1 @1\n",
);

#[test]
fn so_many_workers_may_search(rt: HostRuntime) {
    for row in OUT_OF_RANGE.lines() {
        agrees(&rt, is_out_of_range(&rt, rt.alloc(), row), row);
    }
}
