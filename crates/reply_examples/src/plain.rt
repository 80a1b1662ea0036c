//! Searches beside a run of each allowed set.

use crate::texts::{agrees, text_of};
use leastfault::{
    NoWatch, Searched, all_bytes, all_report, answer_reply, check_bytes, check_bytes_rows,
    plain_all, plain_answer, report, search_bytes,
};
use lf_outcome::Scenario;
use lf_scenario::read;
use lf_streams::{FromRead, ToWrite};
use lf_tree::to_text;
use std::alloc::{AllocError, Global};
use std::thread::Threads;

/// Scenarios, whose replies stand in `examples/cases/searches/answers.txt`.
const SCENARIOS: &str = concat!(
    // one lost note is enough
    "3 4 3 0 2|protocol = \"retry\";tries = 1;outcome = \"delivered\"\n",
    // retries past the last omission arrive
    "3 4 2 0 6|protocol = \"retry\";tries = 3;outcome = \"delivered\"\n",
    // all three tries may be lost, where the search may keep all sets of a level: 6 of one fault, 15 of two, and 20 of three
    "3 4 3 0 3|protocol = \"retry\";tries = 3;outcome = \"delivered\"\n",
    "3 4 3 0 3|protocol = \"retry\";tries = 3;outcome = \"delivered\";max_sets = 20\n",
    // a crash and a lost note
    "3 4 1 1 2|protocol = \"retry\";tries = 3;outcome = \"delivered\"\n",
    "3 4 1 1 3|protocol = \"redundant\";tries = 4;outcome = \"delivered\"\n",
    // a second try comes too late
    "3 2 1 0 1|protocol = \"redundant\";tries = 2;outcome = \"delivered\"\n",
    // no fault is needed
    "2 1 0 0 0|protocol = \"retry\";tries = 1;outcome = \"delivered\"\n",
    // delays of a seed
    "2 3 2 0 1|protocol = \"retry\";tries = 2;outcome = \"delivered\";spread = 3;",
    "seed = \"0000000000000000000000000000000000000000000000000000000000000000\"\n",
    "2 3 2 0 1|protocol = \"retry\";tries = 2;outcome = \"delivered\";spread = 1\n",
    // a slow link
    "3 4 3 0 2|protocol = \"retry\";tries = 1;outcome = \"delivered\";[[links]];from = 0;to = 2;least = 4\n",
    "3 4 3 0 2|protocol = \"retry\";tries = 1;outcome = \"delivered\";[[links]];from = 0;to = 2;least = 3\n",
    // pauses defeat delivery
    "2 3 0 0 1|protocol = \"retry\";tries = 1;outcome = \"delivered\";pauses = 1\n",
    "2 3 0 0 1|protocol = \"redundant\";tries = 1;outcome = \"delivered\";pauses = 1\n",
    // what is not heard of is not searched, where two sets are kept
    "2 3 0 1 1|protocol = \"retry\";tries = 2;spread = 3;outcome = [\"shows\", 1, 2, \"lacks\"];max_sets = 2\n",
    // no part misses, and no part reaches
    "3 4 3 0 2|protocol = \"retry\";tries = 1;outcome = [\"all\"]\n",
    "3 4 3 0 2|protocol = \"retry\";tries = 1;outcome = [\"any\"]\n",
    // the fact of one node is missed
    "3 4 3 0 2|protocol = \"retry\";tries = 1;outcome = [\"shows\", 2, 2, \"has\"]\n",
    // a node that is down is excused
    "3 4 3 0 2|protocol = \"retry\";tries = 1;outcome = [\"any\", [\"down\", 1, 2], [\"shows\", 1, 2, \"has\"]]\n",
    // a crash undoes what a node lacks
    "2 3 0 1 1|protocol = \"retry\";tries = 2;spread = 3;outcome = [\"shows\", 1, 2, \"lacks\"]\n",
    // a claim takes two lost beats
    "3 6 2 0 2|protocol = \"primary_backup\";patience = 3;outcome = [\"shows\", 2, 6, \"unclaimed\"]\n",
    // pauses split the primary
    "3 6 0 0 1|pauses = 1;pause_length = 2;protocol = \"primary_backup\";patience = 3;outcome = \"one_primary\"\n",
    "3 6 0 0 1|pauses = 1;pause_length = 1;protocol = \"primary_backup\";patience = 3;outcome = \"one_primary\"\n",
    // a crash blocks two_phase
    "3 6 0 1 1|protocol = \"two_phase\";patience = 4;outcome = \"unblocked\"\n",
    // one lost note splits three_phase
    "3 10 3 0 2|protocol = \"three_phase\";patience = 3;outcome = \"agreement\"\n",
    "3 10 0 2 2|protocol = \"three_phase\";patience = 3;outcome = \"agreement\"\n",
    // a backup takes over too early
    "3 6 2 0 2|protocol = \"primary_backup\";patience = 3;outcome = \"one_primary\"\n",
    // a write that was done is lost
    "3 6 0 2 2|protocol = \"primary_backup\";patience = 3;outcome = \"durable\"\n",
    // a crash while the votes are on their way blocks all
    "3 5 0 1 1|protocol = \"two_phase\";patience = 3;votes = [true, true];outcome = \"unblocked\"\n",
);

/// What is reported of the fewest faults, which are found by a run of each allowed set.
fn plain_report(alloc: Global, asked: &Scenario) -> Result<String, AllocError> {
    let answer = plain_answer(alloc, asked)?;
    report(alloc, asked.setting().spec.budget(), &answer)
}

/// The same of all sets with as few faults.
fn plain_report_of_all(alloc: Global, asked: &Scenario) -> Result<String, AllocError> {
    let sets = plain_all(alloc, asked)?;
    all_report(alloc, asked.setting().spec.budget(), sets.as_slice())
}

/// Whether a check of the certificate says yes, in one thread.
fn is_right(alloc: Global, text: &[u8], certificate: &[u8]) -> bool {
    let mut out = Vec::new(alloc);
    let mut source = FromRead::new(text);
    let mut tree = FromRead::new(certificate);
    let mut sink = ToWrite::new(&mut out);
    let checked = check_bytes(alloc, &mut source, &mut tree, &mut sink);
    checked == Ok(0) && out.as_slice() == b"yes\n".as_slice()
}

/// The same in several threads.
fn is_right_by_rows(
    rt: &(impl Threads + Sync),
    alloc: Global,
    text: &[u8],
    certificate: &[u8],
) -> bool {
    let mut out = Vec::new(alloc);
    let mut source = FromRead::new(text);
    let mut tree = FromRead::new(certificate);
    let mut sink = ToWrite::new(&mut out);
    let checked = check_bytes_rows(rt, alloc, &mut source, &mut tree, &mut sink);
    checked == Ok(0) && out.as_slice() == b"yes\n".as_slice()
}

/// Whether what a search found has a certificate that is right.
fn is_certified(rt: &(impl Threads + Sync), alloc: Global, text: &[u8], found: &Searched) -> bool {
    let Some(tree) = &found.tree else {
        return false;
    };
    match to_text(alloc, tree) {
        Ok(certificate) => {
            is_right(alloc, text, certificate.as_slice())
                && is_right_by_rows(rt, alloc, text, certificate.as_slice())
        }
        Err(_) => false,
    }
}

/// Whether the search of a text, or the one for all least sets, reports so and has a certificate.
fn search_reports(
    rt: &(impl Threads + Sync),
    alloc: Global,
    text: &[u8],
    all: bool,
    wanted: &str,
) -> bool {
    let mut out = Vec::new(alloc);
    let mut source = FromRead::new(text);
    let mut sink = ToWrite::new(&mut out);
    let searched = if all {
        all_bytes(alloc, &mut source, &mut sink)
    } else {
        search_bytes(alloc, &mut source, &mut sink)
    };
    match searched {
        Ok(found) => {
            out.as_slice() == wanted.as_bytes() && is_certified(rt, alloc, text, &found)
        }
        Err(_) => false,
    }
}

/// Whether what tells the answer alone reports so.
fn answer_reports(alloc: Global, text: &[u8], wanted: &str) -> bool {
    match answer_reply(alloc, None, text, &NoWatch) {
        Ok(reply) => reply.text.as_str() == wanted,
        Err(_) => false,
    }
}

/// Whether the search and the answer report what is found plainly.
fn is_plain(rt: &(impl Threads + Sync), alloc: Global, text: &[u8], asked: &Scenario) -> bool {
    match plain_report(alloc, asked) {
        Ok(wanted) => {
            search_reports(rt, alloc, text, false, wanted.as_str())
                && answer_reports(alloc, text, wanted.as_str())
        }
        Err(_) => false,
    }
}

/// Whether the search for all least sets reports what is found plainly.
fn are_plain(rt: &(impl Threads + Sync), alloc: Global, text: &[u8], asked: &Scenario) -> bool {
    match plain_report_of_all(alloc, asked) {
        Ok(wanted) => search_reports(rt, alloc, text, true, wanted.as_str()),
        Err(_) => false,
    }
}

/// Both of a row's scenario.
fn row_is_plain(rt: &(impl Threads + Sync), alloc: Global, row: &str) -> bool {
    let Ok(text) = text_of(alloc, row) else {
        return false;
    };
    match read(alloc, text.as_bytes()) {
        Ok(asked) => {
            is_plain(rt, alloc, text.as_bytes(), &asked)
                && are_plain(rt, alloc, text.as_bytes(), &asked)
        }
        Err(_) => false,
    }
}

#[test]
fn searches_find_what_a_run_of_each_set_finds(rt: HostRuntime) {
    for row in SCENARIOS.lines() {
        agrees(&rt, row_is_plain(&rt, rt.alloc(), row), row);
    }
}
