//! Texts made by a grammar.
//!
//! A grammar is a table with a line for each name: the name, and behind it the texts that may stand for it, with a `~` before each.
//! In a text another name stands between two `$`, and a `;` ends a line.

use lf_latency::word;
use std::alloc::{AllocError, Global};

/// More names than any made text has.
const MOST: u32 = 10_000;

/// Choices that look like chance, the same for the same numbers: each is a word of a stream.
#[derive(Clone, Copy)]
pub(crate) struct Choices {
    of: u64,
    part: u8,
    made: u64,
}

impl Choices {
    /// The choices for a part of a case.
    pub(crate) fn new(of: u64, part: u8) -> Choices {
        Choices { of, part, made: 0 }
    }

    /// The next choice, a number below `count`. It is 0 where there is none.
    fn below(&mut self, count: u32) -> u32 {
        let chosen = word(&[self.part; 32], self.of, self.made);
        self.made = self.made.wrapping_add(1);
        chosen.checked_rem(count).unwrap_or(0)
    }

    /// One of the texts, which `~` parts.
    fn one_of<'a>(&mut self, texts: &'a str) -> &'a str {
        let mut count: u32 = 0;
        for _ in texts.split('~') {
            count = count.saturating_add(1);
        }
        let chosen = self.below(count);
        let mut at: u32 = 0;
        for text in texts.split('~') {
            if at == chosen {
                return text;
            }
            at = at.saturating_add(1);
        }
        ""
    }
}

/// The texts that may stand for a name. None where the grammar doesn't have it.
fn texts_of<'a>(grammar: &'a str, name: &str) -> Option<&'a str> {
    for line in grammar.lines() {
        if let Some((own, texts)) = line.split_once('~') {
            if own == name {
                return Some(texts);
            }
        }
    }
    None
}

/// Adds a text without names.
fn push_plain(text: &mut String, plain: &str) -> Result<(), AllocError> {
    for c in plain.chars() {
        text.push(if c == ';' { '\n' } else { c })?;
    }
    Ok(())
}

/// The text with one for each name in it, by these choices. None where the grammar lacks a name, or there is no end to it.
pub(crate) fn made<'a>(
    alloc: Global,
    grammar: &'a str,
    text: &'a str,
    choices: Choices,
) -> Result<Option<String>, AllocError> {
    let mut choices = choices;
    let mut made = String::new(alloc);
    // What is still to be added, the last first.
    let mut rest = vec![in alloc; text]?;
    for _ in 0..MOST {
        let Some(next) = rest.pop() else {
            return Ok(Some(made));
        };
        let Some((plain, named)) = next.split_once('$') else {
            push_plain(&mut made, next)?;
            continue;
        };
        let (name, behind) = named.split_once('$').unwrap_or((named, ""));
        let Some(texts) = texts_of(grammar, name) else {
            return Ok(None);
        };
        push_plain(&mut made, plain)?;
        rest.push(behind)?;
        rest.push(choices.one_of(texts))?;
    }
    Ok(None)
}
