//! The texts of examples, and how they are compared.

use lf_book::{Book, Counts, Event};
use lf_faults::{FaultSet, fault_text};
use lf_outcome::Scenario;
use lf_scenario::read;
use std::alloc::{AllocError, Global};
use std::process::Abort;
use std::sync::Arc;

/// The keys that each scenario of a table has first.
const BOUNDS: &str = "nodes horizon last_omission crashes budget";

/// What is found at the row is what it says. Each comparison ends here: an assertion is dear to prove.
pub(crate) fn agrees(rt: &impl Abort, truth: bool, row: &str) {
    assert!(rt; truth, "at {row}");
}

/// Whether a text is made, and is the wanted one.
pub(crate) fn is_text(made: Result<String, AllocError>, wanted: &str) -> bool {
    match made {
        Ok(text) => text.as_str() == wanted,
        Err(_) => false,
    }
}

/// The columns before and behind the first `|`.
pub(crate) fn columns(line: &str) -> (&str, &str) {
    line.split_once('|').unwrap_or((line, ""))
}

/// Adds a line for each bound, and further lines, of which all but the last end with `;`.
fn push_lines(text: &mut String, numbers: &str, lines: &str) -> Result<(), AllocError> {
    for (key, number) in BOUNDS.split(' ').zip(numbers.split(' ')) {
        write!(text, "{key} = {number}\n")?;
    }
    for c in lines.chars() {
        text.push(if c == ';' { '\n' } else { c })?;
    }
    text.push('\n')
}

/// The scenario of the numbers of its bounds and further lines. None where it is refused.
pub(crate) fn scenario(alloc: Global, numbers: &str, lines: &str) -> Option<Arc<Scenario>> {
    let mut text = String::new(alloc);
    if push_lines(&mut text, numbers, lines).is_err() {
        return None;
    }
    match read(alloc, text.as_bytes()) {
        Ok(scenario) => Arc::new(alloc, scenario).ok(),
        Err(_) => None,
    }
}

/// A new book of a scenario.
pub(crate) fn begun(alloc: Global, scenario: &Arc<Scenario>) -> Option<Book> {
    match Arc::try_clone(scenario) {
        Ok(scenario) => Book::begin(alloc, scenario).ok(),
        Err(_) => None,
    }
}

/// A new book of a scenario after events.
pub(crate) fn driven(alloc: Global, scenario: &Arc<Scenario>, events: &[Event]) -> Option<Book> {
    let mut book = begun(alloc, scenario)?;
    match book.drive(events) {
        Ok(_) => Some(book),
        Err(_) => None,
    }
}

/// The event of a word: `t` takes, `f:0` files the first job, `g:0` gives it back, `d` deepens, `r` reclaims.
fn event(word: &str) -> Option<Event> {
    let (_, place) = word.split_once(':').unwrap_or((word, "0"));
    let Ok(place) = place.parse::<usize>() else {
        return None;
    };
    match word.chars().next() {
        Some('t') => Some(Event::Take),
        Some('f') => Some(Event::File(place)),
        Some('g') => Some(Event::GiveBack(place)),
        Some('d') => Some(Event::Deepen),
        Some('r') => Some(Event::Reclaim),
        _ => None,
    }
}

/// The events of the words of a text. None where a word is of no event.
pub(crate) fn events(alloc: Global, text: &str) -> Option<Vec<Event>> {
    let mut events = Vec::new(alloc);
    for word in text.split_whitespace() {
        if events.push(event(word)?).is_err() {
            return None;
        }
    }
    Some(events)
}

/// How many sets of a book are open, claimed, answered, and wait.
pub(crate) fn counts_text(alloc: Global, counts: &Counts) -> Result<String, AllocError> {
    format!(in alloc;
        "{} {} {} {}",
        counts.ready, counts.claimed, counts.answered, counts.waiting
    )
}

/// Adds the faults of a set, joined by commas. Of the empty set it adds `-`.
pub(crate) fn push_set(alloc: Global, text: &mut String, set: &FaultSet) -> Result<(), AllocError> {
    if set.is_empty() {
        return text.push('-');
    }
    let mut gap = "";
    for fault in set.items() {
        let fault = fault_text(alloc, fault)?;
        write!(text, "{gap}{fault}")?;
        gap = ",";
    }
    Ok(())
}
