//! The words of `sweep`, and what they ask for.
//!
//! In a table each line is the words, `|`, and what they ask for. Before each word stands `;`.

use lf_sweep_words::{By, SweepAsked, SweepUnasked, names_of, sweep_asked};
use std::alloc::{AllocError, Global};

/// Adds the words as they come from the system. Says whether there was memory.
pub(crate) fn add_words(alloc: Global, owned: &mut Vec<String>, words: &str) -> bool {
    for word in words.split(';').skip(1) {
        let Ok(word) = String::from_str(alloc, word) else {
            return false;
        };
        if owned.push(word).is_err() {
            return false;
        }
    }
    true
}

/// What is asked for: the file, what varies, how many combinations there are, who replies, how many workers there are, the numbers of the
/// first two combinations that are asked of, and the rest.
fn told(alloc: Global, asked: &SweepAsked) -> Result<String, AllocError> {
    let mut told = String::from_str(alloc, asked.file.as_str())?;
    add_names(alloc, &mut told, asked)?;
    let by = match asked.by {
        By::Answer => "answer",
        By::Search => "search",
    };
    let (first, second) = (asked.part.number(0), asked.part.number(1));
    write!(
        told,
        " {} {by} {} {first} {second}",
        asked.plan.count(),
        asked.workers
    )?;
    add_rest(&mut told, asked)?;
    Ok(told)
}

/// Adds the names of what varies.
fn add_names(alloc: Global, told: &mut String, asked: &SweepAsked) -> Result<(), AllocError> {
    let names = names_of(alloc, asked.plan.varied())?;
    for name in names.as_slice() {
        told.push(' ')?;
        told.push_str(name.as_str())?;
    }
    Ok(())
}

/// Adds the flags, and the file of the protocol.
fn add_rest(told: &mut String, asked: &SweepAsked) -> Result<(), AllocError> {
    if asked.json {
        told.push_str(" json")?;
    }
    if asked.quiet {
        told.push_str(" quiet")?;
    }
    if let Some(protocol) = &asked.protocol {
        told.push_str(" of ")?;
        told.push_str(protocol.as_str())?;
    }
    Ok(())
}

/// Whether a refusal is the one that a row says: `help`, which shows this usage, or the front of a text on standard error.
pub(crate) fn is_refused(unasked: &SweepUnasked, usage: &str, wanted: &str) -> bool {
    let text = unasked.text();
    match (unasked.status(), unasked.is_error()) {
        (0, false) => wanted == "help" && text.contains(usage),
        (2, true) => wanted != "help" && text.starts_with(wanted) && text.ends_with("\n"),
        _ => false,
    }
}

/// Whether the words ask for what a row says.
fn is_asked(alloc: Global, words: &[String], wanted: &str) -> bool {
    match sweep_asked(alloc, words) {
        Ok(asked) => match told(alloc, &asked) {
            Ok(told) => told.as_str() == wanted,
            Err(_) => false,
        },
        Err(unasked) => is_refused(&unasked, "Usage: leastfault sweep ", wanted),
    }
}

/// Whether a row of a table is as it says.
fn is_right(alloc: Global, row: &str) -> bool {
    let (words, wanted) = row.split_once('|').unwrap_or((row, ""));
    let mut owned = Vec::new(alloc);
    add_words(alloc, &mut owned, words) && is_asked(alloc, owned.as_slice(), wanted)
}

/// Words that ask for a sweep.
const ASKED: &str = concat!(
    ";a.toml;--vary;budget=1..3|a.toml budget 3 answer 1 0 1\n",
    ";-;--vary;a=1,2;--vary;given.b=true,false|- a given.b 4 answer 1 0 1\n",
    ";--vary;b=1;x;--vary;a=1;--by;search|x b a 1 search 1 0 1\n",
    ";x;--vary;a=1;--by;answer;--workers;32|x a 1 answer 32 0 1\n",
    ";x;--vary=a=1;--workers=+7|x a 1 answer 7 0 1\n",
    ";x;--vary;a=1;--part;2/3|x a 1 answer 1 1 4\n",
    ";x;--vary;a=1;--part;+1/1000000;--json;--quiet|x a 1 answer 1 0 1000000 json quiet\n",
    ";x;--vary;a=1;--quiet;--protocol;-|x a 1 answer 1 0 1 quiet of -\n",
);

/// Words that ask for none, and the front of what is told of them.
const REFUSED: &str = concat!(
    ";--help|help\n",
    ";-h|help\n",
    ";x;--vary;a;--help|help\n",
    "|error: \n",
    ";x|error: \n",
    ";--vary;a=1|error: \n",
    ";x;y;--vary;a=1|error: \n",
    ";x;--vary;a=1;--by;search;--by;search|error: \n",
    ";x;--vary;a=1;--json=true|error: \n",
    ";x;--vary;a=1;--by;both;--workers;0|--by: it takes answer or search\n",
    ";x;--vary;a=1;--by;|--by: it takes answer or search\n",
    ";x;--vary;a;--workers;0|--workers: it takes a whole number from 1 to 32\n",
    ";x;--vary;a=1;--workers;33|--workers: it takes a whole number from 1 to 32\n",
    ";x;--vary;a=1;--workers;two|--workers: it takes a whole number from 1 to 32\n",
    ";x;--vary;a=1;--part;4/3|--part: it takes I/N, as in 2/3\n",
    ";x;--vary;a=1;--part;0/3|--part: it takes I/N, as in 2/3\n",
    ";x;--vary;a=1;--part;1/1000001|--part: it takes I/N, as in 2/3\n",
    ";x;--vary;a=1;--part;1|--part: it takes I/N, as in 2/3\n",
    ";x;--vary;a=1;--part;1/2/3|--part: it takes I/N, as in 2/3\n",
    ";x;--vary;a|--vary a: it takes KEY=VALUES, as in patience=1..8\n",
    ";x;--vary;a=1;--vary;b=|--vary b=: value 1 is missing\n",
    ";x;--vary;a=1\t2|--vary: a value has a tab, a line feed or another control character\n",
    ";x;--vary;a=1;--vary;b=1;--vary;a=2|--vary: the key a is there twice; give all its values in one --vary\n",
    ";x;--vary;a.b=1;--vary;a=1|--vary: the key a.b stands within a; vary one of them\n",
    ";x;--vary;given=1;--vary;given.a=1|--vary: the key given.a stands within given; vary one of them\n",
    ";x;--vary;a=1..100000;--vary;b=1..100000|--vary: there are more than 1000000000 combinations\n",
);

#[test]
fn words_of_sweep_ask_for_what_they_say(rt: HostRuntime) {
    for row in ASKED.lines() {
        let is_right = is_right(rt.alloc(), row);
        assert!(&rt; is_right, "at {row}");
    }
}

#[test]
fn words_that_ask_for_no_sweep_are_refused(rt: HostRuntime) {
    for row in REFUSED.lines() {
        let is_right = is_right(rt.alloc(), row);
        assert!(&rt; is_right, "at {row}");
    }
}
