//! Lines of a file at which texts are at fault.

use crate::found::{found_at, text_of};
use crate::hint::Hint;
use crate::place::Place;
use std::alloc::{AllocError, Global};
use toml::Value;

/// What is told of a text: a line, and where in the text it is at fault.
#[derive(Drop)]
pub struct Told {
    pub hint: Hint,
    /// How many bytes stand before the fault.
    pub before: usize,
    /// How many characters the fault takes.
    pub length: usize,
}

/// How many bytes are read anew at most to find where a text stands: a file is read once for each place that is tried.
const MOST_READ: usize = 8_000_000;

/// What may stand before and behind a text. A text between three quotes may begin in the line behind them.
const QUOTES: [(&str, &str); 4] = [("\"", "\""), ("'", "'"), ("\"\n", "\""), ("'\n", "'")];

/// How many bytes of a line are shown at most before and behind where a fault begins.
const LONGEST_SIDE: usize = 60;

/// What is told of the text at a place of a file, and under it the line of the text with its fault marked. The error, also below, is that memory
/// has run out.
pub fn with_line(
    alloc: Global,
    source: &[u8],
    place: &Place<'_>,
    text: &str,
    told: &Told,
) -> Result<String, AllocError> {
    let Some((front, rest)) = text.split_at_checked(told.before) else {
        return String::from_str(alloc, told.hint.as_str());
    };
    let gutter = match number_of(alloc, source, place, text)? {
        Some(first) => {
            let number = first.saturating_add(line_feeds(front));
            format!(in alloc; "line {number} | ")?
        }
        None => String::from_str(alloc, "| ")?,
    };
    let front = last_of(last_line(front));
    let rest = first_of(first_line(rest));
    let mut shown = format!(in alloc;
        "{}\n{}{front}{rest}\n",
        told.hint.as_str(),
        gutter.as_str()
    )?;
    for c in gutter.as_str().chars() {
        shown.push(if c == '|' { '|' } else { ' ' })?;
    }
    for _ in front.chars() {
        shown.push(' ')?;
    }
    shown.push('^')?;
    for _ in rest.chars().take(told.length).skip(1) {
        shown.push('^')?;
    }
    Ok(shown)
}

/// The last line of a text.
fn last_line(text: &str) -> &str {
    match text.rsplit_once('\n') {
        Some((_lines, last)) => last,
        None => text,
    }
}

/// The first line of a text.
fn first_line(text: &str) -> &str {
    match text.split_once('\n') {
        Some((first, _lines)) => first.trim_end(),
        None => text,
    }
}

/// The end of a line.
fn last_of(line: &str) -> &str {
    let cut = line.floor_char_boundary(line.len().saturating_sub(LONGEST_SIDE));
    match line.split_at_checked(cut) {
        Some((_front, end)) => end,
        None => line,
    }
}

/// The beginning of a line.
fn first_of(line: &str) -> &str {
    match line.split_at_checked(line.floor_char_boundary(LONGEST_SIDE)) {
        Some((front, _end)) => front,
        None => line,
    }
}

/// How many line feeds a text has.
fn line_feeds(text: &str) -> usize {
    text.bytes().filter(is_line_feed).count()
}

/// Whether a byte is a line feed.
fn is_line_feed(byte: &u8) -> bool {
    *byte == b'\n'
}

/// The number of the line of a file, from 1, in which the text at a place begins, where the file has the text as it is between quotes.
fn number_of(
    alloc: Global,
    source: &[u8],
    place: &Place<'_>,
    text: &str,
) -> Result<Option<usize>, AllocError> {
    let Ok(source) = str::from_utf8(source) else {
        return Ok(None);
    };
    let most_tried = MOST_READ.checked_div(source.len()).unwrap_or(0);
    for (before, behind) in QUOTES {
        let quoted = format!(in alloc; "{before}{text}{behind}")?;
        for (at, _quoted) in source.match_indices(quoted.as_str()).take(most_tried) {
            let begin = at.saturating_add(before.len());
            if let Some((front, rest)) = source.split_at_checked(begin) {
                if is_changed(alloc, front, rest, place, text)? {
                    return Ok(Some(line_feeds(front).saturating_add(1)));
                }
            }
        }
    }
    Ok(None)
}

/// Whether the text at a place is another one if the file has one more character between two parts of it.
fn is_changed(
    alloc: Global,
    front: &str,
    rest: &str,
    place: &Place<'_>,
    text: &str,
) -> Result<bool, AllocError> {
    let changed = format!(in alloc; "{front}x{rest}")?;
    let Ok(table) = toml::table_from_slice(alloc, changed.as_str().as_bytes()) else {
        return Ok(false);
    };
    match found_at(&table, place) {
        Some(found) => match found.value {
            Value::String(_) => Ok(text_of(found.value) != text),
            _ => Ok(false),
        },
        None => Ok(false),
    }
}
