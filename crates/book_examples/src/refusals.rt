//! Findings of other books, what errors say, and a take with its steps counted.

ghost use Rattle.std.specs.Prelude.{◌≡◌, ◌<◌};

use crate::searches::refusal_number;
use crate::texts::{agrees, columns, counts_text, driven, events, is_text, scenario};
use lf_book::{Book, Job, Refusal, Steps, Taken, Unfinished};
use lf_outcome::Scenario;
use std::alloc::Global;
use std::error::Error;
use std::marker::Brand;
use std::sync::Arc;
use std::sync::ledger::{Blank, Ledger};

/// Three nodes, of which node 0 sends the value so many times.
fn tries_of(alloc: Global, tries: &str) -> Option<Arc<Scenario>> {
    match format!(in alloc; "protocol = \"retry\";tries = {tries};outcome = \"delivered\"") {
        Ok(lines) => scenario(alloc, "3 4 3 0 2", lines.as_str()),
        Err(_) => None,
    }
}

/// A new book with so many tries after events.
fn driven_by(alloc: Global, tries: &str, words: &str) -> Option<Book> {
    let events = events(alloc, words)?;
    driven(alloc, &tries_of(alloc, tries)?, events.as_slice())
}

/// The same after a take, with the job taken.
fn taken(alloc: Global, tries: &str, words: &str) -> Option<(Book, Job)> {
    let mut book = driven_by(alloc, tries, words)?;
    match book.take() {
        Ok(Taken::Job(job)) => Some((book, job)),
        _ => None,
    }
}

/// Whether a book says this of the finding of a job, that it is filed, or the number of the refusal and the ticket of the finding that is
/// handed back, and has these counts afterwards.
fn says(alloc: Global, book: &mut Book, job: &Job, wanted: &str) -> bool {
    let (said, counts) = wanted.split_once(", ").unwrap_or((wanted, ""));
    let is_said = match refusal_number(book, job) {
        Some(0) => said == "filed",
        Some(number) => is_text(format!(in alloc; "{number} {}", job.ticket()), said),
        None => false,
    };
    is_said && is_text(counts_text(alloc, &book.counts()), counts)
}

/// Of each row: the events of a book with one try, after which it takes a set; whether the finding is of a book with one try or with
/// three; the events of that book, after which it takes the set of the finding; and what is said to the finding, twice.
const FINDINGS: &str = concat!(
    "|1||filed, 0 0 1 2|1 1, 0 0 1 2\n",
    "|3||2 1, 0 1 0 0|2 1, 0 1 0 0\n",
    "t f:0 d|1|t g:0|3 2, 1 1 1 0|3 2, 1 1 1 0\n",
    "t f:0 d|1|t f:0 d|filed, 1 0 2 0|1 2, 1 0 2 0\n",
    "t f:0 d|3|t f:0 d|2 2, 1 1 1 0|2 2, 1 1 1 0\n",
    "t f:0 d|1|t f:0 d t f:0|1 3, 1 1 1 0|1 3, 1 1 1 0\n",
    "t f:0 d t|1|t f:0 d t g:0|3 3, 0 2 1 0|3 3, 0 2 1 0\n",
    "t f:0 d t g:0|1|t f:0 d t g:0|filed, 1 0 2 0|1 3, 1 0 2 0\n",
    "t f:0 d|3|t g:0 t g:0|1 3, 1 1 1 0|1 3, 1 1 1 0\n",
);

/// Whether a book with one try, after events and a take, says to the finding of a job what it is to say, twice.
fn is_said_twice(alloc: Global, words: &str, job: &Job, wanted: &str) -> bool {
    let (first, second) = columns(wanted);
    match taken(alloc, "1", words) {
        Some((mut book, _own)) => {
            says(alloc, &mut book, job, first) && says(alloc, &mut book, job, second)
        }
        None => false,
    }
}

/// Whether a row's book says to a finding what it is to say, twice.
fn row_is_said(alloc: Global, row: &str) -> bool {
    let (own, rest) = columns(row);
    let (tries, rest) = columns(rest);
    let (others, wanted) = columns(rest);
    match taken(alloc, tries, others) {
        Some((_other, job)) => is_said_twice(alloc, own, &job, wanted),
        None => false,
    }
}

#[test]
fn findings_of_other_books(rt: HostRuntime) {
    for row in FINDINGS.lines() {
        agrees(&rt, row_is_said(rt.alloc(), row), row);
    }
}

/// Whether an error says this to people.
fn tells<E: Error>(alloc: Global, error: &E, wanted: &str) -> bool {
    is_text(format!(in alloc; "{error}"), wanted)
}

#[test]
fn errors_have_messages(rt: HostRuntime) {
    let alloc = rt.alloc();
    let other_set =
        "the finding is of another set than its ticket claims, or of another path to it, or excludes other faults";
    let are_told = tells(
        alloc,
        &Refusal::NoClaim,
        "no set is claimed by the ticket of the finding",
    ) && tells(
        alloc,
        &Refusal::OtherScenario,
        "the finding is of another scenario",
    ) && tells(alloc, &Refusal::OtherSet, other_set)
        && tells(alloc, &Unfinished, "the search hasn't ended");
    agrees(&rt, are_told, "the errors of a book");
}

/// Takes the first set of a book with its steps counted, and tells whether a job of the empty set is given.
fn takes_the_root<L: Ledger>(alloc: Global, blank: Blank) -> bool
    requires name { blank.name ≡ L.name }
    requires parts { blank.parts ≡ L.parts }
    requires some { 0 < blank.parts }
{
    let Some(mut book) = driven_by(alloc, "1", "") else {
        return false;
    };
    let mut steps = Steps::<L>::new(blank);
    match book.take_counted(&mut steps) {
        Ok(Taken::Job(job)) => job.ticket() == 1 && job.set().is_empty(),
        _ => false,
    }
}

#[test]
fn takes_with_counted_steps(rt: HostRuntime) {
    let took = takes_the_root::<Brand>(rt.alloc(), Blank::new(1));
    agrees(&rt, took, "the first take");
}
