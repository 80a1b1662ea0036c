//! Books driven through lists of events.

use crate::texts::{agrees, begun, columns, counts_text, driven, events, is_text, scenario};
use lf_book::{Counts, Event, Reply};
use lf_outcome::Scenario;
use lf_tree::{Tree, to_text};
use std::alloc::Global;
use std::sync::Arc;

/// Whether a reply and the counts after it have this text.
fn is_said(alloc: Global, reply: &Reply, counts: &Counts, wanted: &str) -> bool {
    match counts_text(alloc, counts) {
        Ok(counts) => is_text(format!(in alloc; "{reply:?} {counts}"), wanted),
        Err(_) => false,
    }
}

/// Whether a new book replies this last to events, and has these counts after them.
fn replies_last(alloc: Global, scenario: &Arc<Scenario>, events: &[Event], wanted: &str) -> bool {
    let Some(mut book) = begun(alloc, scenario) else {
        return false;
    };
    let Ok(replies) = book.drive(events) else {
        return false;
    };
    match replies.as_slice().last() {
        Some(reply) => is_said(alloc, reply, &book.counts(), wanted),
        None => false,
    }
}

/// Whether these are the replies to events, one after another, each with the counts after it.
fn are_replied(alloc: Global, scenario: &Arc<Scenario>, events: &[Event], wanted: &str) -> bool {
    let mut count = 0_usize;
    for reply in wanted.split("; ") {
        count = count.saturating_add(1);
        if count > events.len() || !replies_last(alloc, scenario, &events[..count], reply) {
            return false;
        }
    }
    count == events.len()
}

/// Whether a book has this text at its end: its level, how many sets it answered, and its tree.
fn is_ended(alloc: Global, level: u32, answered: u64, tree: &Tree, wanted: &str) -> bool {
    let Ok(text) = to_text(alloc, tree) else {
        return false;
    };
    match str::from_utf8(text.as_slice()) {
        Ok(tree) => is_text(format!(in alloc; "{level} {answered} {tree}"), wanted),
        Err(_) => false,
    }
}

/// Whether a new book has this end after events: its level, how many sets it answered, and its tree if the search has ended.
fn ends(alloc: Global, scenario: &Arc<Scenario>, events: &[Event], wanted: &str) -> bool {
    let Some(book) = driven(alloc, scenario, events) else {
        return false;
    };
    let (level, answered) = (book.level(), book.answered());
    match book.into_tree() {
        Ok(tree) => is_ended(alloc, level, answered, &tree, wanted),
        Err((unfinished, book)) => {
            let (level, answered) = (book.level(), book.answered());
            is_text(
                format!(in alloc; "{level} {answered} {unfinished:?}"),
                wanted,
            )
        }
    }
}

/// Whether the events of a row have its replies with their counts, and its end.
fn row_is_driven(alloc: Global, row: &str) -> bool {
    let (numbers, rest) = columns(row);
    let (lines, rest) = columns(rest);
    let (words, rest) = columns(rest);
    let (replies, end) = columns(rest);
    let Some(scenario) = scenario(alloc, numbers, lines) else {
        return false;
    };
    let Some(events) = events(alloc, words) else {
        return false;
    };
    let events = events.as_slice();
    are_replied(alloc, &scenario, events, replies) && ends(alloc, &scenario, events, end)
}

/// For each row the bounds, the further lines, the events, the reply to each with the counts after it, and the end.
const DRIVES: &str = concat!(
    r#"3 4 3 0 2|protocol = "retry";tries = 1;outcome = "delivered"|t f:0 d t t f:1 g:0 t f:0 d|"#,
    "Took(1) 0 1 0 0; Filed 0 0 1 2; Deepened(Down) 2 0 1 0; Took(2) 1 1 1 0; Took(3) 0 2 1 0; Filed 0 1 2 0; GaveBack 1 0 2 0; ",
    "Took(4) 0 1 2 0; Filed 0 0 3 0; Deepened(Answer) 0 0 3 0|",
    r#"1 3 {"answer":["omit 0>1 @1"],"format":1,"root":{"edges":["omit 0>1 @1","omit 0>2 @1"],"#,
    r#""kids":[{"misses":true},{"misses":true}],"reach":[4,4,4]}}"#,
    "\n",
    r#"3 4 3 0 2|protocol = "retry";tries = 1;outcome = "delivered"|t f:1 g:1 f:0 f:0 g:0 t d|"#,
    "Took(1) 0 1 0 0; NoJob 0 1 0 0; NoJob 0 1 0 0; Filed 0 0 1 2; NoJob 0 0 1 2; NoJob 0 0 1 2; LevelDone 0 0 1 2; ",
    "Deepened(Down) 2 0 1 0|1 1 Unfinished\n",
    r#"3 4 3 0 2|protocol = "retry";tries = 1;outcome = "delivered"|t r d t f:0 t f:1 g:0 f:0|"#,
    "Took(1) 0 1 0 0; Reclaimed 1 0 0 0; Deepened(NotDone) 1 0 0 0; Took(2) 0 1 0 0; Refused(1) 0 1 0 0; Busy 0 1 0 0; ",
    "NoJob 0 1 0 0; GaveBack 1 0 0 0; NoJob 1 0 0 0|0 0 Unfinished\n",
    r#"3 4 3 0 2|protocol = "retry";tries = 1;outcome = "delivered"|t r t g:0 f:0 t d t r|"#,
    "Took(1) 0 1 0 0; Reclaimed 1 0 0 0; Took(2) 0 1 0 0; NotGiven 0 1 0 0; Filed 0 0 1 2; LevelDone 0 0 1 2; ",
    "Deepened(Down) 2 0 1 0; Took(3) 1 1 1 0; Reclaimed 2 0 1 0|1 1 Unfinished\n",
    r#"2 1 0 0 0|protocol = "retry";tries = 1;outcome = "delivered"|d t d f:0 t d t d|"#,
    "Deepened(NotDone) 1 0 0 0; Took(1) 0 1 0 0; Deepened(NotDone) 0 1 0 0; Filed 0 0 1 0; LevelDone 0 0 1 0; ",
    "Deepened(Answer) 0 0 1 0; Finished 0 0 1 0; Deepened(Answer) 0 0 1 0|",
    r#"0 1 {"answer":[],"format":1,"root":{"misses":true}}"#,
    "\n",
    r#"3 4 3 0 3|protocol = "retry";tries = 3;outcome = "delivered";max_sets = 5|t f:0 d d t|"#,
    "Took(1) 0 1 0 0; Filed 0 0 1 6; Deepened(Full { count: 6 }) 0 0 1 6; Deepened(Full { count: 6 }) 0 0 1 6; ",
    "LevelDone 0 0 1 6|0 1 Unfinished\n",
    r#"2 3 0 1 1|protocol = "retry";tries = 2;spread = 3;outcome = ["shows", 1, 2, "lacks"];max_sets = 2|t f:0 d t t f:0 f:0 d d|"#,
    "Took(1) 0 1 0 0; Filed 0 0 1 2; Deepened(Down) 2 0 1 0; Took(2) 1 1 1 0; Took(3) 0 2 1 0; Filed 0 1 2 0; Filed 0 0 3 0; ",
    "Deepened(Answer) 0 0 3 0; Deepened(Answer) 0 0 3 0|",
    r#"1 3 {"answer":["crash 1 @1"],"format":1,"root":{"edges":["crash 1 @1","crash 1 @2"],"#,
    r#""kids":[{"misses":true},{"misses":true}],"reach":[0,2]}}"#,
    "\n",
);

#[test]
fn events_have_their_replies(rt: HostRuntime) {
    for row in DRIVES.lines() {
        agrees(&rt, row_is_driven(rt.alloc(), row), row);
    }
}
