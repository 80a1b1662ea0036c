//! Searches by several workers: they reply as one thread does.

use crate::texts::{agrees, behind, columns, text_of};
use leastfault::{BytesFault, Searched, all_bytes, all_shared, search_bytes, search_shared};
use lf_streams::{FromRead, ToWrite};
use lf_tree::to_text;
use std::alloc::Global;
use std::rt::Clock;
use std::sync::Wait;
use std::thread::Threads;

/// A number that stands for no cause of the workers.
const OTHER: u32 = 1000;

/// Adds the status of a search to its reply, and the text of its tree. It answers 0, or the number of the cause why workers gave no answer,
/// or `OTHER`.
fn add_rest(alloc: Global, out: &mut Vec<u8>, searched: Result<Searched, BytesFault>) -> u32 {
    let found = match searched {
        Ok(found) => found,
        Err(BytesFault::Pool(number)) => return number,
        Err(_) => return OTHER,
    };
    let mut is_added = out.push(found.status).is_ok();
    if let Some(tree) = &found.tree {
        is_added &= match to_text(alloc, tree) {
            Ok(text) => out.extend_from_slice(text.as_slice()).is_ok(),
            Err(_) => false,
        };
    }
    if is_added { 0 } else { OTHER }
}

/// The reply of a search for the answer, or for all least sets, with its status and its tree, and what `add_rest` answers. It is made by so
/// many workers, or in one thread where no number is given.
fn replied(
    rt: &(impl Threads + Wait + Clock + Sync),
    alloc: Global,
    text: &[u8],
    all: bool,
    workers: Option<u32>,
) -> (Vec<u8>, u32) {
    let mut out = Vec::new(alloc);
    let mut source = FromRead::new(text);
    let mut sink = ToWrite::new(&mut out);
    let searched = match workers {
        None if all => all_bytes(alloc, &mut source, &mut sink),
        None => search_bytes(alloc, &mut source, &mut sink),
        Some(count) if all => all_shared(rt, alloc, &mut source, &mut sink, count),
        Some(count) => search_shared(rt, alloc, &mut source, &mut sink, count),
    };
    let number = add_rest(alloc, &mut out, searched);
    (out, number)
}

/// Whether so many workers reply to the text of a row as one thread does.
fn workers_reply(
    rt: &(impl Threads + Wait + Clock + Sync),
    alloc: Global,
    row: &str,
    all: bool,
    workers: u32,
) -> bool {
    let Ok(text) = text_of(alloc, row) else {
        return false;
    };
    let (alone, of_one) = replied(rt, alloc, text.as_bytes(), all, None);
    let (out, of_several) = replied(rt, alloc, text.as_bytes(), all, Some(workers));
    out == alone && of_one == 0 && of_several == 0
}

/// Scenarios with an answer, with none, with a level that is too full, and one that is refused.
const SEARCHED: &str = concat!(
    "3 4 3 0 2|protocol = \"retry\";tries = 1;outcome = \"delivered\"\n",
    "3 4 2 0 6|protocol = \"retry\";tries = 3;outcome = \"delivered\"\n",
    "3 4 3 0 3|protocol = \"retry\";tries = 3;outcome = \"delivered\"\n",
    "3 4 1 1 3|protocol = \"redundant\";tries = 4;outcome = \"delivered\"\n",
    "2 1 0 0 0|protocol = \"retry\";tries = 1;outcome = \"delivered\"\n",
    "3 6 0 1 1|protocol = \"two_phase\";patience = 4;outcome = \"unblocked\"\n",
    "3 10 0 2 2|protocol = \"three_phase\";patience = 3;outcome = \"agreement\"\n",
    "3 6 0 2 2|protocol = \"primary_backup\";patience = 3;outcome = \"durable\"\n",
    "3 6 0 0 1|pauses = 1;pause_length = 2;protocol = \"primary_backup\";patience = 3;outcome = \"one_primary\"\n",
    "3 4 3 0 3|protocol = \"retry\";tries = 3;outcome = \"delivered\";max_sets = 14\n",
    "3 4 3 0 3|protocol = \"retry\";tries = 3;outcome = \"agreement\"\n",
);

#[test]
fn workers_reply_as_one_thread_does(rt: HostRuntime) {
    for row in SEARCHED.lines() {
        for workers in [1, 2, 3, 32] {
            let is_answer = workers_reply(&rt, rt.alloc(), row, false, workers);
            let are_all = workers_reply(&rt, rt.alloc(), row, true, workers);
            agrees(&rt, is_answer && are_all, row);
        }
    }
}

/// A scenario, so many workers, how long their reply is with its status, and why they give none.
const REFUSED: &str = concat!(
    "3 4 3 0 2|protocol = \"retry\";tries = 1;outcome = \"delivered\"|0|0 1\n",
    "3 4 3 0 2|protocol = \"retry\";tries = 1;outcome = \"delivered\"|33|0 1\n",
    "3 4 3 0 2|protocol = \"retry\";tries = 1;outcome = \"agreement\"|33|20 0\n",
);

/// Whether the workers of a row reply as it says.
fn row_is_refused(rt: &(impl Threads + Wait + Clock + Sync), alloc: Global, row: &str) -> bool {
    let (workers, wanted) = columns(behind(row));
    let Ok(text) = text_of(alloc, row) else {
        return false;
    };
    let count = workers.parse::<u32>().ok();
    let (out, number) = replied(rt, alloc, text.as_bytes(), false, count);
    match format!(in alloc; "{} {number}", out.len()) {
        Ok(found) => found.as_str() == wanted,
        Err(_) => false,
    }
}

#[test]
fn a_scenario_is_refused_before_the_number_of_workers(rt: HostRuntime) {
    for row in REFUSED.lines() {
        agrees(&rt, row_is_refused(&rt, rt.alloc(), row), row);
    }
}
