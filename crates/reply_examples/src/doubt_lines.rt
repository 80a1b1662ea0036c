//! The words of `doubt`, and what they ask for.
//!
//! In a table each line is the words, `|`, and what they ask for. Before each word stands `;`.

use crate::sweep_lines::{add_words, is_refused};
use lf_doubt_words::{DoubtAsked, doubt_asked};
use std::alloc::{AllocError, Global};

/// What is asked for: the file, how many workers there are, the numbers of the first two questions that are asked, and the rest.
fn told(alloc: Global, asked: &DoubtAsked) -> Result<String, AllocError> {
    let (first, second) = (asked.part.number(0), asked.part.number(1));
    let mut told = format!(in alloc; "{} {} {first} {second}", asked.file, asked.workers)?;
    if let Some(seconds) = asked.seconds {
        write!(told, " within {seconds}")?;
    }
    add_flags(&mut told, asked)?;
    if let Some(protocol) = &asked.protocol {
        write!(told, " of {protocol}")?;
    }
    Ok(told)
}

/// Adds the flags.
fn add_flags(told: &mut String, asked: &DoubtAsked) -> Result<(), AllocError> {
    if asked.deep {
        told.push_str(" deep")?;
    }
    if asked.json {
        told.push_str(" json")?;
    }
    if asked.quiet {
        told.push_str(" quiet")?;
    }
    Ok(())
}

/// Whether the words ask for what a row says.
fn is_asked(alloc: Global, words: &[String], wanted: &str) -> bool {
    match doubt_asked(alloc, words) {
        Ok(asked) => match told(alloc, &asked) {
            Ok(told) => told.as_str() == wanted,
            Err(_) => false,
        },
        Err(unasked) => is_refused(&unasked, "Usage: leastfault doubt ", wanted),
    }
}

/// Whether a row of a table is as it says.
fn is_right(alloc: Global, row: &str) -> bool {
    let (words, wanted) = row.split_once('|').unwrap_or((row, ""));
    let mut owned = Vec::new(alloc);
    add_words(alloc, &mut owned, words) && is_asked(alloc, owned.as_slice(), wanted)
}

/// Words that ask for something.
const ASKED: &str = concat!(
    ";a.toml|a.toml 1 0 1\n",
    ";-;--protocol;-|- 1 0 1 of -\n",
    ";--deep;x|x 1 0 1 deep\n",
    ";x;--seconds;1|x 1 0 1 within 1\n",
    ";x;--seconds=+86400;--workers;32|x 32 0 1 within 86400\n",
    ";x;--workers;2;--seconds;3;--part;2/3|x 2 1 4 within 3\n",
    ";x;--part;+1/1000000;--json;--quiet|x 1 0 1000000 json quiet\n",
    ";--quiet;--deep;--protocol=p.toml;--;--json|--json 1 0 1 deep quiet of p.toml\n",
);

/// Words that ask for nothing, and the front of what is told of them.
const REFUSED: &str = concat!(
    ";--help|help\n",
    ";-h|help\n",
    ";x;--seconds;0;--help|help\n",
    "|error: \n",
    ";--deep|error: \n",
    ";x;y|error: \n",
    ";x;--deep;--deep|error: \n",
    ";x;--deep=true|error: \n",
    ";x;--seconds|error: \n",
    ";x;--seconds;1;--seconds;1|error: \n",
    ";x;--seconds;-1|error: \n",
    ";x;--vary;a=1|error: \n",
    ";x;--by;search|error: \n",
    ";x;--seconds;0;--workers;0|--seconds: it takes a whole number from 1 to 86400\n",
    ";x;--seconds;86401|--seconds: it takes a whole number from 1 to 86400\n",
    ";x;--seconds;4294967297|--seconds: it takes a whole number from 1 to 86400\n",
    ";x;--seconds;|--seconds: it takes a whole number from 1 to 86400\n",
    ";x;--seconds;1.5|--seconds: it takes a whole number from 1 to 86400\n",
    ";x;--part;0/1;--workers;33|--workers: it takes a whole number from 1 to 32\n",
    ";x;--part;4/3|--part: it takes I/N, as in 2/3\n",
);

#[test]
fn words_of_doubt_ask_for_what_they_say(rt: HostRuntime) {
    for row in ASKED.lines() {
        let is_right = is_right(rt.alloc(), row);
        assert!(&rt; is_right, "at {row}");
    }
}

#[test]
fn words_that_ask_for_no_doubt_are_refused(rt: HostRuntime) {
    for row in REFUSED.lines() {
        let is_right = is_right(rt.alloc(), row);
        assert!(&rt; is_right, "at {row}");
    }
}
