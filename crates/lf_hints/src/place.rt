//! Places in a text.

use crate::hint::Hint;

/// What is told of the place behind the first `offset` bytes: its line and its character in that line, both from 1.
pub(crate) fn said_at(text: &[u8], offset: usize, words: &str) -> Hint {
    let mut line: usize = 1;
    let mut column: usize = 1;
    for byte in text.iter().take(offset) {
        if *byte == b'\n' {
            line = line.saturating_add(1);
            column = 1;
        } else if *byte & 0xC0 != 0x80 {
            column = column.saturating_add(1);
        }
    }
    Hint::of(format_args!("line {line}, column {column}: {words}"))
}

/// The line, from 1, that gives a value to a key, behind so many heads of tables of links and before the next. None where no such line
/// is seen, as where the key stands in a table on one line.
pub(crate) fn line_of(text: &[u8], key: &str, links: usize) -> Option<usize> {
    let text = std::str::from_utf8(text).ok()?;
    let mut heads: usize = 0;
    for (i, line) in text.lines().enumerate() {
        if heads == links && is_of(line, key) {
            return Some(i.saturating_add(1));
        }
        if is_head(line) {
            heads = heads.saturating_add(1);
        }
    }
    None
}

/// Whether a line begins with this key, bare or in quotes, or is the head of a table of this name.
fn is_of(line: &str, key: &str) -> bool {
    let begin = line.trim_start_matches(is_before);
    match begin.strip_prefix(key) {
        Some(rest) => {
            let rest = rest.trim_start_matches(is_behind);
            rest.starts_with("=") || rest.starts_with(".") || rest.starts_with("]")
        }
        None => false,
    }
}

/// Whether a line is the head of a table of links.
fn is_head(line: &str) -> bool {
    line.trim_start().starts_with("[[") && is_of(line, "links")
}

/// Whether a character may stand before a key.
fn is_before(c: char) -> bool {
    is_behind(c) || c == '['
}

/// Whether a character may stand between a key and what follows it.
fn is_behind(c: char) -> bool {
    c == ' ' || c == '\t' || c == '"' || c == '\''
}
